// What is asked of a word program.
ghost use Rattle.std.specs.Prelude.{◌≡◌, ◌+◌, ◌≤◌, length, MatchOption};
ghost use Rattle.word_format.specs.Held.{contents, program_of};
ghost use Rattle.word_format.specs.Index.{Spans};
ghost use Rattle.word_format.specs.Showing.{Shows};

use super::WordProgram;
use crate::shown::{Form, Shown, form_of};
use crate::word::number_of;
use std::ops::Range;

impl WordProgram {
    /// The number of atoms.
    pub fn atom_count(&self) -> usize
        ensures { result ≡ (program_of self.now).atoms }
    {
        number_of(self.words[0]).0 as usize
    }

    /// The number of rules.
    pub fn rule_count(&self) -> usize
        ensures { result ≡ length (program_of self.now).rules }
    {
        self.begin_count() - 1
    }

    /// One more than the number of rules.
    #[tactic(auto, using(crate::proofs::Begins::begins_count))]
    fn begin_count(&self) -> usize
        ensures { result ≡ length (program_of self.now).rules + 1 }
    {
        self.begins.len()
    }

    /// Rule k, counted from 0.
    pub fn show(&self, k: usize) -> Shown<'_>
        ensures { Shows (contents self.now) k result }
    {
        let Some(span) = self.span(k) else {
            return Shown::PastEnd;
        };
        let from = span.start;
        let part = &self.words[span];
        // an arm for each form: here the cases are made
        match form_of(part) {
            Form::Fact => Shown::Fact(part, from),
            Form::Rule => Shown::Rule(part, from),
            Form::Constraint => Shown::Constraint(part, from),
        }
    }

    /// Where rule k stands, if there is one.
    #[tactic(auto, using(crate::proofs::Begins::begins_count))]
    pub(super) fn span(&self, k: usize) -> Option<Range<usize>>
        ensures { MatchOption result (length (program_of self.now).rules ≤ k) (λ s. Spans (contents self.now) k s.start s.end) }
    {
        if k >= self.rule_count() {
            return None;
        }
        Some(self.begins[k]..self.begins[k + 1])
    }
}
