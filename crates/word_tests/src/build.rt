// Words for the tests.
use program::refusal::Refusal;
use std::alloc::{AllocError, Global};
use word_format::check::check;
pub(crate) use word_format::word::{BAR, END, END as HEADER, NEED};

/// The number of the refusal, if the words are not lawful.
pub(crate) fn verdict(words: &[u32]) -> Option<u32> {
    code(check(words))
}

pub(crate) fn code(answer: Result<(), Refusal>) -> Option<u32> {
    answer.err().map(Refusal::code)
}

/// A header, so many empty rules, and these words.
pub(crate) fn empty_rules(
    heap: Global,
    rules: usize,
    rest: &[u32],
) -> Result<Vec<u32>, AllocError> {
    let mut words = vec![in heap; HEADER + 1]?;
    words.extend(std::iter::repeat_n(END, rules))?;
    words.extend_from_slice(rest)?;
    Ok(words)
}

/// So many words of a program with 256 atoms: fifteen heads to a rule.
pub(crate) fn long(heap: Global, len: usize) -> Result<Vec<u32>, AllocError> {
    let mut words = vec![in heap; HEADER + 256]?;
    words.extend((1..len.saturating_sub(1)).map(|i| if i % 16 == 0 {
        END
    } else {
        (i % 16) as u32
    }))?;
    words.push(END)?;
    Ok(words)
}

/// The bytes of the words.
pub(crate) fn bytes(heap: Global, words: &[u32]) -> Result<Vec<u8>, AllocError> {
    words
        .iter()
        .flat_map(|word| word.to_be_bytes())
        .collect(heap)
}
