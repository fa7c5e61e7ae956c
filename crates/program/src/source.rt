// Where rules come from.
ghost use Rattle.program.specs.Meanings.{Meaning, Small, atom_count, overfull, rule_count, rules_of};
ghost use Rattle.program.specs.Iterated.{rules_left};
ghost use Rattle.program.specs.Rules.{as_rule};
ghost use Rattle.std.specs.Prelude.{◌≡◌, ◌↔◌, IsTrue, length, nat_lt, slice_index_or};

use crate::limits::MAX_RULES;
use crate::rule::Rule;
use crate::rules::Rules;

/// A source of rules. No question alters it.
// docs/RULES.md fixes the three answers: also 0 and 1,025 for overfull, and the yes beside a place, where an `Option` could stand.
pub trait RuleSource {
    // overfull, or a number of atoms and a list of rules
    ghost meaning: { Self → Meaning };

    // the limits, which every source proves
    ghost small: { (s : Self) → Small (meaning s) };

    /// The number of atoms, and 0 when overfull.
    fn atom_count(&self) -> usize
        ensures { result ≡ atom_count (meaning self.now) };

    /// The number of rules, and 1,025 when overfull.
    fn rule_count(&self) -> usize
        ensures { result ≡ rule_count (meaning self.now) };

    /// Puts rule k into the place, if there is one; else the place stays as it was.
    fn rule(&self, k: usize, place: &mut Rule) -> bool
        ensures test { result ≡ nat_lt k (length (rules_of (meaning self.now))) }
        ensures after { as_rule place.new ≡ slice_index_or (rules_of (meaning self.now)) k (as_rule place.old) };

    /// Whether there are too many atoms or rules.
    #[tactic(auto, using(crate::proofs::Meant::over))]
    final fn is_overfull(&self) -> bool
        ensures { IsTrue result ↔ (meaning self.now ≡ overfull) }
    {
        self.rule_count() > MAX_RULES
    }

    /// The rules in order; none when overfull.
    final fn iter(&self) -> Rules<'_, Self>
    where
        Self: Sized,
        ensures { rules_left meaning result ≡ rules_of (meaning self.now) }
    {
        Rules {
            source: self,
            next: 0,
        }
    }
}
