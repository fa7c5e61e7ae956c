// Words from bytes.
ghost use Rattle.word_format.specs.Bytes.{bytes_fault, words_of_bytes};
ghost use Rattle.word_format.specs.Checks.{Clear};
ghost use Rattle.std.specs.Prelude.{◌≡◌, ◌⊎◌, Some, MatchResult};

use crate::check::MAX_WORDS;
use program::refusal::Refusal;
use std::alloc::Global;

/// The most bytes that a file may have.
pub const MAX_BYTES: usize = 4 * MAX_WORDS;

/// The words of these bytes, four to a word, the most significant first.
// A function, since a `TryFrom` is given no allocator.
pub fn words_from_bytes(heap: Global, bytes: &[u8]) -> Result<Vec<u32>, Refusal>
    ensures { MatchResult result (λ v. Clear (bytes_fault bytes.now) × (v.items ≡ words_of_bytes bytes.now)) (λ e. (bytes_fault bytes.now ≡ Some e) ⊎ (Clear (bytes_fault bytes.now) × (e ≡ Refusal.OutOfMemory))) }
{
    if bytes.len() > MAX_BYTES {
        return Err(Refusal::TooLong);
    }
    let (fours, rest) = bytes.as_chunks::<4>();
    if !rest.is_empty() {
        return Err(Refusal::PartialWord);
    }
    let words = fours
        .iter()
        .map(|four| u32::from_be_bytes(*four))
        .collect(heap)?;
    Ok(words)
}
