// The text of a rule.
ghost use Rattle.account.specs.Lines.{atoms_text, line_text, numbers, rule_text, shown_line};
ghost use Rattle.account.specs.Listed.{listed, text_of};
ghost use Rattle.atoms.specs.Member.{members};
ghost use Rattle.program.specs.Programs.{Over};
ghost use Rattle.program.specs.Rules.{as_rule};
ghost use Rattle.std.specs.Fmt.{DisplaysOnOk};
ghost use Rattle.std.specs.Prelude.{◌≡◌, ◌≤◌, ℕ, string_bytes, MatchResult, Some};
ghost use Rattle.word_format.specs.Writing.{write_rule};

use atoms::AtomSet;
use program::refusal::Refusal;
use program::rule::Rule;
use std::alloc::Global;
use std::fmt;
use word_format::shown::{Shown, has_kind};
use word_format::word::{Kind, is_kind, number_of};

/// The line of what is shown as rule k: its number, the position of its first word, and the rule. Past the end there is none.
// A `Refusal`, though only memory can be wanting: the project asks for one enum in all public calls.
pub fn rule_line(heap: Global, k: usize, shown: Shown<'_>) -> Result<String, Refusal>
    ensures { MatchResult result (λ s. string_bytes s ≡ shown_line k shown.entry) (λ e. e ≡ Refusal.OutOfMemory) }
{
    match shown {
        Shown::Fact(words, position)
        | Shown::Rule(words, position)
        | Shown::Constraint(words, position) => {
            let line = RuleLine {
                number: k,
                position,
                rule: RuleText::of_words(words),
            };
            Ok(line.to_string(heap)?)
        }
        Shown::PastEnd => Ok(String::new(heap)),
    }
}

/// A rule with its number and the position of its first word, on a line.
#[derive(Clone, Copy)]
pub(crate) struct RuleLine<'a> {
    pub(crate) number: usize,
    pub(crate) position: usize,
    pub(crate) rule: RuleText<'a>,
}

impl fmt::Display for RuleLine<'_> {
    ghost output = { λ l. Some (line_text l.number l.position (text_of l.rule)) };

    fn fmt<W: fmt::Write>(&self, f: &mut fmt::Formatter<W>) -> fmt::Result {
        let rule = &self.rule;
        let number = self.number;
        let position = self.position;
        writeln!(f, "rule {number} at {position}:{rule}")
    }
}

/// The heads, the needs and the bars, and whether there is a need.
#[derive(Clone, Copy)]
pub(crate) struct RuleText<'a> {
    heads: Numbers<'a>,
    needs: Numbers<'a>,
    bars: Numbers<'a>,
    some_need: bool,
}

impl<'a> RuleText<'a> {
    /// The rule that these words spell.
    pub(crate) fn of_words(words: &'a [u32]) -> RuleText<'a>
        ensures { text_of result ≡ rule_text words.now }
    {
        RuleText {
            heads: Numbers::Words(words, Kind::Head),
            needs: Numbers::Words(words, Kind::Need),
            bars: Numbers::Words(words, Kind::Bar),
            some_need: has_kind(words, Kind::Need),
        }
    }

    /// The rule of these sets: its text is that of its words, which need not be written for it.
    pub(crate) fn of_sets(rule: &'a Rule) -> RuleText<'a>
        ensures { (n : ℕ) → n ≤ 256 → Over n (as_rule rule.now) → text_of result ≡ rule_text (write_rule n (as_rule rule.now)) }
    {
        RuleText {
            heads: Numbers::Set(&rule.heads),
            needs: Numbers::Set(&rule.needs),
            bars: Numbers::Set(&rule.bars),
            some_need: !rule.needs.is_empty(),
        }
    }
}

impl fmt::Display for RuleText<'_> {
    ghost output = { λ r. Some (text_of r) };

    fn fmt<W: fmt::Write>(&self, f: &mut fmt::Formatter<W>) -> fmt::Result {
        list(f, &self.heads, " ", " | ")?;
        f.write_str(" <-")?;
        list(f, &self.needs, " ", ", ")?;
        let lead = if self.some_need { ", not " } else { " not " };
        list(f, &self.bars, lead, ", not ")
    }
}

/// Where the atoms of a list stand.
#[derive(Clone, Copy)]
enum Numbers<'a> {
    /// in the words of this kind
    Words(&'a [u32], Kind),
    /// in a set
    Set(&'a AtomSet),
}

/// Writes the atoms of a list, the first with one lead, the others with another.
fn list<'a, W: fmt::Write>(
    f: &mut fmt::Formatter<W>,
    numbers: &Numbers<'_>,
    first: &'a str,
    later: &'a str,
) -> fmt::Result
    ensures { DisplaysOnOk W.write_str_gives f.old result (Some (atoms_text first.now later.now (listed numbers.now))) f.new }
{
    match *numbers {
        Numbers::Words(words, kind) => list_words(f, words, kind, first, later),
        Numbers::Set(set) => list_set(f, set, first, later),
    }
}

fn list_words<'a, W: fmt::Write>(
    f: &mut fmt::Formatter<W>,
    words: &[u32],
    kind: Kind,
    first: &'a str,
    later: &'a str,
) -> fmt::Result
    ensures { DisplaysOnOk W.write_str_gives f.old result (Some (atoms_text first.now later.now (numbers kind words.now))) f.new }
{
    let mut lead = first;
    for word in words {
        if is_kind(*word, kind) {
            let atom = number_of(*word).0;
            write!(f, "{lead}{atom}")?;
            lead = later;
        }
    }
    Ok(())
}

fn list_set<'a, W: fmt::Write>(
    f: &mut fmt::Formatter<W>,
    set: &AtomSet,
    first: &'a str,
    later: &'a str,
) -> fmt::Result
    ensures { DisplaysOnOk W.write_str_gives f.old result (Some (atoms_text first.now later.now (members set.now))) f.new }
{
    let mut lead = first;
    for atom in set {
        write!(f, "{lead}{atom}")?;
        lead = later;
    }
    Ok(())
}
