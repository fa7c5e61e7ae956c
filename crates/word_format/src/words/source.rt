// A word program as a source of rules.
ghost use Rattle.std.specs.Prelude.{◌≡◌, ℕ, ◌<◌, false, ◌&&◌, ◌||◌, length, ◌==◌, nat_lt, slice_index, slice_index_or};
ghost use Rattle.atoms.specs.Member.{has};
ghost use Rattle.program.specs.Meanings.{program};
ghost use Rattle.program.specs.Rules.{as_rule};
ghost use Rattle.word_format.specs.Held.{contents, program_of};
ghost use Rattle.word_format.specs.Reading.{rule_of};
ghost use Rattle.word_format.specs.Showing.{AsShown, Shows};
ghost use Rattle.word_format.specs.Words.{is_end, is_kind, number_of};
ghost use Rattle.word_format.specs.declared.shown.Shown.{Shown as ShownRule};
ghost use Rattle.word_format.specs.declared.word.Kind.TheVariants.{Bar, Head, Need};

use super::WordProgram;
use crate::word::{Kind, kind_of, number_of};
use program::rule::Rule;
use program::source::RuleSource;

impl RuleSource for WordProgram {
    ghost meaning = { λ p. program (program_of p) };

    ghost small = { λ p. p.limited };

    fn atom_count(&self) -> usize {
        WordProgram::atom_count(self)
    }

    fn rule_count(&self) -> usize {
        WordProgram::rule_count(self)
    }

    fn rule(&self, k: usize, place: &mut Rule) -> bool
        ensures test { result ≡ nat_lt k (length (program_of self.now).rules) }
        ensures after { as_rule place.new ≡ slice_index_or (program_of self.now).rules k (as_rule place.old) }
        ensures shown { (s : ShownRule) → Shows (contents self.now) k s → AsShown s result (as_rule place.old) (as_rule place.new) }
    {
        let Some(span) = self.span(k) else {
            return false;
        };
        *place = rule_of(&self.words[span]);
        true
    }
}

/// The rule that these words spell.
// A function, since a `From` can ask nothing of the words.
fn rule_of(words: &[u32]) -> Rule
    requires { (i : ℕ) → is_end (slice_index words.now i) ≡ false → number_of (slice_index words.now i) < 256 }
    ensures { as_rule result ≡ rule_of words.now }
{
    let mut rule = Rule::empty();
    for word in words {
        add_word(&mut rule, *word);
    }
    rule
}

/// One word more: its atom joins the part that its kind names.
fn add_word(rule: &mut Rule, word: u32)
    requires { is_end word ≡ false → number_of word < 256 }
    ensures heads { (i : ℕ) → has rule.new.heads i ≡ ((is_kind Head word && i == (number_of word)) || has rule.old.heads i) }
    ensures needs { (i : ℕ) → has rule.new.needs i ≡ ((is_kind Need word && i == (number_of word)) || has rule.old.needs i) }
    ensures bars { (i : ℕ) → has rule.new.bars i ≡ ((is_kind Bar word && i == (number_of word)) || has rule.old.bars i) }
{
    let number = number_of(word).0;
    match kind_of(word) {
        Kind::Head => rule.heads.insert(number as u8),
        Kind::Need => rule.needs.insert(number as u8),
        Kind::Bar => rule.bars.insert(number as u8),
        Kind::End => {}
    }
}
