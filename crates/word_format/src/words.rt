// A program kept as words.
ghost use Rattle.std.specs.Prelude.{◌≡◌};
ghost use Rattle.program.specs.Programs.{Limited};
ghost use Rattle.word_format.specs.Checks.{Lawful};
ghost use Rattle.word_format.specs.Index.{starts};
ghost use Rattle.word_format.specs.Reading.{meaning};
ghost use Rattle.word_format.specs.Writing.{written};

pub mod open;
pub mod show;
pub mod source;

/// Lawful words, with the positions at which the rules begin. What they mean keeps the limits of a program, and they
/// are its writing.
#[derive(Drop)]
pub struct WordProgram {
    words: Vec<u32>,
    // where each rule begins, and the end: an index, one longer than there are rules
    begins: Vec<usize>,
    ghost lawful: { Lawful words.items },
    ghost indexed: { begins.items ≡ starts words.items },
    ghost limited: { Limited (meaning (words.items)) },
    pub ghost as_written: { written (meaning (words.items)) ≡ words.items },
}
