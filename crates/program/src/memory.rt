// Want of memory, as a refusal.
ghost use Rattle.program.specs.declared.refusal.Refusal.TheVariants.{OutOfMemory};
ghost use Rattle.std.specs.Prelude.{◌≡◌};

use crate::refusal::Refusal;
use std::alloc::{AllocError, AllocFailed};
use std::fmt;

// Each `From` is by hand, since clauses name the refusal that `?` makes and a derived one promises nothing.
impl From<AllocError> for Refusal {
    ghost from_gives = { λ _ r. r ≡ OutOfMemory };

    fn from(_e: AllocError) -> Refusal {
        Refusal::OutOfMemory
    }
}

impl<T: Drop> From<AllocFailed<T>> for Refusal {
    ghost from_gives = { λ _ r. r ≡ OutOfMemory };

    fn from(_e: AllocFailed<T>) -> Refusal {
        AllocError.into()
    }
}

// A text in memory fails to be written to only for want of memory. No crate here asks for it: it is promised to callers.
impl From<fmt::Error> for Refusal {
    ghost from_gives = { λ _ r. r ≡ OutOfMemory };

    fn from(_e: fmt::Error) -> Refusal {
        Refusal::from(AllocError)
    }
}
