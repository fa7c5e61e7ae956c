// Two sources, the rules of the one and then those of the other.
ghost use Rattle.std.specs.Prelude.{◌+◌, ◌≤◌, SomeIff};
ghost use Rattle.program.specs.Combined.{united};
ghost use Rattle.program.specs.Limits.{united_small};
ghost use Rattle.program.specs.Meanings.{rule_count};

use crate::limits::{MAX_RULES, OVERFULL};
use crate::rule::Rule;
use crate::source::RuleSource;

/// The rules of the first, and then those of the second.
#[derive(Drop)]
pub struct Union<A: RuleSource, B: RuleSource> {
    pub first: A,
    pub second: B,
}

impl<A: RuleSource, B: RuleSource> RuleSource for Union<A, B> {
    ghost meaning = { λ s. united (A.RuleSource.meaning s.first) (B.RuleSource.meaning s.second) };

    ghost small = { λ s. united_small _ _ (A.RuleSource.small s.first) (B.RuleSource.small s.second) };

    fn atom_count(&self) -> usize {
        if self.joint_count().is_none() {
            return 0;
        }
        self.first.atom_count().max(self.second.atom_count())
    }

    fn rule_count(&self) -> usize {
        self.joint_count().unwrap_or(OVERFULL)
    }

    fn rule(&self, k: usize, place: &mut Rule) -> bool {
        if self.joint_count().is_none() {
            return false;
        }
        match k.checked_sub(self.first.rule_count()) {
            None => self.first.rule(k, place),
            Some(later) => self.second.rule(later, place),
        }
    }
}

impl<A: RuleSource, B: RuleSource> Union<A, B> {
    /// The number of rules, if a program may have as many.
    fn joint_count(&self) -> Option<usize>
        ensures { let n = rule_count (A.RuleSource.meaning self.now.first) + rule_count (B.RuleSource.meaning self.now.second) in
            SomeIff result (n ≤ 1024) n }
    {
        let count = self.first.rule_count() + self.second.rule_count();
        (count <= MAX_RULES).then_some(count)
    }
}
