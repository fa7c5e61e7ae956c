// Opening: words are checked once, and lawful ever after.
ghost use Rattle.word_format.specs.Bytes.{OpensBytes};
ghost use Rattle.word_format.specs.Checks.{Lawful};
ghost use Rattle.word_format.specs.Held.{Opens, contents};
ghost use Rattle.word_format.specs.Index.{starts};
ghost use Rattle.std.specs.Prelude.{◌≡◌, [], ◌∷◌, MatchResult, IfOk};

use super::WordProgram;
use crate::bytes::words_from_bytes;
use crate::check::check;
use crate::word::{END, Kind, is_kind};
use program::refusal::Refusal;
use std::alloc::{AllocError, Global};

impl WordProgram {
    /// The empty program: no atoms and no rules.
    // A `Refusal`, though only memory can be wanting: the project asks for one enum in all public calls.
    pub fn new(heap: Global) -> Result<WordProgram, Refusal>
        ensures { MatchResult result (λ p. contents p ≡ 3221225472 ∷ []) (λ e. e ≡ Refusal.OutOfMemory) }
    {
        // a header that counts no atoms
        let words = vec![in heap; END]?;
        let begins = vec![in heap; 1]?;
        Ok(WordProgram { words, begins })
    }

    /// Holds these words from now on if they are lawful; else it stays as it was.
    pub fn open(&mut self, words: &[u32]) -> Result<(), Refusal>
        ensures { Opens words.now self.old result self.new }
    {
        check(words)?;
        let heap = *self.words.allocator();
        let begins = index(heap, words)?;
        let words = Vec::from_slice(heap, words)?;
        *self = WordProgram::with_index(words, begins);
        Ok(())
    }

    /// Lawful words and their index.
    fn with_index(words: Vec<u32>, begins: Vec<usize>) -> WordProgram
        requires lawful { Lawful words.items }
        requires indexed { begins.items ≡ starts words.items }
        ensures { result.words ≡ words }
    {
        WordProgram { words, begins }
    }

    /// Holds the words of these bytes from now on if all is lawful; else it stays as it was.
    pub fn open_bytes(&mut self, bytes: &[u8]) -> Result<(), Refusal>
        ensures { OpensBytes bytes.now self.old result self.new }
    {
        let words = words_from_bytes(*self.words.allocator(), bytes)?;
        self.open(&words)
    }
}

/// The positions just after the end words.
fn index(heap: Global, words: &[u32]) -> Result<Vec<usize>, AllocError>
    ensures { IfOk result (λ v. v.items ≡ starts words.now) }
{
    words
        .iter()
        .enumerate()
        .filter(|(_, word)| is_kind(**word, Kind::End))
        .map(|(i, _)| i + 1)
        .collect(heap)
}
