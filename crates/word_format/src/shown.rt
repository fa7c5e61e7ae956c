// A rule as it is shown.
ghost use Rattle.word_format.specs.Showing.{form_of, has_kind, shown_form};
ghost use Rattle.std.specs.Prelude.{◌≡◌};
ghost use Rattle.std.specs.List.{list_any};

use crate::word::{Kind, is_kind};

#[derive(Clone, Copy, Debug, PartialEq, Eq)]
pub enum Form {
    /// heads only
    Fact,
    /// heads and a body
    Rule,
    /// no heads
    Constraint,
}

/// The words of a rule, its end word included, and the position of the first.
// An enum of the forms and no `Option`: the project asks that its cases lend the words, with one for past the end.
#[derive(Clone, Copy)]
pub enum Shown<'a> {
    Fact(&'a [u32], usize),
    Rule(&'a [u32], usize),
    Constraint(&'a [u32], usize),
    PastEnd,
}

impl Shown<'_> {
    /// The form of the rule, if there is one.
    pub fn form(&self) -> Option<Form>
        ensures { result ≡ shown_form self.now }
    {
        match self {
            Shown::Fact(..) => Some(Form::Fact),
            Shown::Rule(..) => Some(Form::Rule),
            Shown::Constraint(..) => Some(Form::Constraint),
            Shown::PastEnd => None,
        }
    }
}

/// Whether some word is of this kind.
pub fn has_kind(words: &[u32], kind: Kind) -> bool
    ensures { result ≡ has_kind kind words.now }
{
    let (parts, rest) = words.as_chunks::<16>();
    some_part(parts, kind) || part_has(rest, kind)
}

/// Whether some word of some part is of this kind.
fn some_part(parts: &[[u32; 16]], kind: Kind) -> bool
    ensures { result ≡ list_any (has_kind kind) parts.now }
{
    parts.iter().any(|part| part_has(part, kind))
}

/// The same of a few words, all of them read: so they are compared side by side.
fn part_has(words: &[u32], kind: Kind) -> bool
    ensures { result ≡ has_kind kind words.now }
{
    words
        .iter()
        .fold(false, |found, word| found | is_kind(*word, kind))
}

/// The form of a rule by its words.
pub fn form_of(words: &[u32]) -> Form
    ensures { result ≡ form_of words.now }
{
    if !has_kind(words, Kind::Head) {
        return Form::Constraint;
    }
    if has_kind(words, Kind::Need) || has_kind(words, Kind::Bar) {
        return Form::Rule;
    }
    Form::Fact
}
