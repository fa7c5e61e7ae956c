// Why a call is refused, and its number.
ghost use Rattle.program.specs.Refusals.{code_of, refused_text};
ghost use Rattle.std.specs.Prelude.{◌≡◌, Some};

use std::error::Error;
use std::fmt;

/// Why a call on programs and sources is refused, or that memory was wanting.
#[derive(Clone, Copy, Debug, PartialEq, Eq)]
pub enum Refusal {
    /// There are no words, or the first is not of the kind end.
    BadHeader = 11,
    /// The header counts more than 256 atoms.
    TooManyAtoms = 12,
    /// A head, need or bar is no atom of the program.
    NoSuchAtom = 13,
    /// A part of a rule stands after one of a later kind, or its numbers do not rise.
    OutOfOrder = 14,
    /// An end word has another number than 0.
    BadEnd = 15,
    /// The last rule has no end word.
    Unfinished = 16,
    /// There are more than 1,024 rules.
    TooManyRules = 17,
    /// There are more than 16,384 words.
    TooLong = 18,
    /// The source has more atoms or rules than a program may have.
    Overfull = 21,
    /// The bytes are no whole number of words.
    PartialWord = 31,
    /// An atom of a selector is above 255.
    AtomTooHigh = 41,
    /// A selector's first outlet is above its last, or it has more than 32.
    BadOutlets = 42,
    /// A selector's box is one of its outlets.
    BoxAmongOutlets = 43,
    /// There was no memory for the answer.
    OutOfMemory = 99,
}

impl Refusal {
    /// The number that is printed, and that a host sees.
    pub fn code(self) -> u32
        ensures { result ≡ code_of self }
    {
        self as u32
    }
}

impl Error for Refusal {}

/// `refused` with a space and the number.
impl fmt::Display for Refusal {
    ghost output = { λ r. Some (refused_text r) };

    fn fmt<W: fmt::Write>(&self, f: &mut fmt::Formatter<W>) -> fmt::Result {
        let code = self.code();
        write!(f, "refused {code}")
    }
}
