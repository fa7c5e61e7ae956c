// Sets, rules and programs for the tests.
use atoms::AtomSet;
use program::refusal::Refusal;
use program::rule::Rule;
use program::source::RuleSource;
use std::alloc::Global;
pub(crate) use word_format::word::{BAR, END, END as HEADER, NEED};
use word_format::words::WordProgram;

pub(crate) fn rule(heads: &[u8], needs: &[u8], bars: &[u8]) -> Rule {
    Rule {
        heads: AtomSet::from(heads),
        needs: AtomSet::from(needs),
        bars: AtomSet::from(bars),
    }
}

/// Rule k of the source, if it has one.
pub(crate) fn rule_at<S: RuleSource>(source: &S, k: usize) -> Option<Rule> {
    let mut place = Rule::empty();
    source.rule(k, &mut place).then_some(place)
}

pub(crate) fn opened(heap: Global, words: &[u32]) -> Result<WordProgram, Refusal> {
    let mut program = WordProgram::new(heap)?;
    program.open(words)?;
    Ok(program)
}

/// A program with no atoms and so many rules.
// The tests of the word format make such words too: a crate for both would be a library, with a contract for each.
pub(crate) fn empty_rules(heap: Global, rules: usize) -> Result<WordProgram, Refusal> {
    let mut words = vec![in heap; HEADER]?;
    words.extend(std::iter::repeat_n(END, rules))?;
    opened(heap, &words)
}
