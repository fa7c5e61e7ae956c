// The steps that make a pile.
use program::selector::Selector;

/// What is done to a source.
#[derive(Clone, Copy, Debug)]
pub enum Step {
    /// Every atom is moved up by so many.
    Offset(usize),
    /// The rules of a selector come after the others.
    Select(Selector),
}
