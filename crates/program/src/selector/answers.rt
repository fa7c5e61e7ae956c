// A selector as a source of rules.
ghost use Rattle.std.specs.Prelude.{◌≡◌, ℕ, ◌-◌, ◌*◌, ◌/◌, ◌≤◌, Some, None, IfSome, IfNone, slice_get};
ghost use Rattle.atoms.specs.Member.{has};
ghost use Rattle.program.specs.SelectorLimits.{selector_small};
ghost use Rattle.program.specs.Rules.{Holds};
ghost use Rattle.program.specs.Selectors.{exclusion, exclusions_in, selector_meaning, some_outlet, span};

use super::Selector;
use crate::rule::Rule;
use crate::source::RuleSource;
use atoms::AtomSet;

/// Two outlets.
#[derive(Clone, Copy)]
struct Pair {
    low: u8,
    high: u8,
}

impl Pair {
    /// The two are not both on.
    fn exclusion(self) -> Rule
        ensures { Holds result (exclusion self.low self.high) }
    {
        Rule {
            needs: AtomSet::from(&[self.low, self.high][..]),
            ..Rule::empty()
        }
    }
}

impl RuleSource for Selector {
    ghost meaning = { selector_meaning };

    ghost small = { selector_small };

    fn atom_count(&self) -> usize {
        self.box_atom.max(self.last) as usize + 1
    }

    #[tactic(auto, using(crate::proofs::Outlets::pair_count))]
    fn rule_count(&self) -> usize {
        let outlets = (self.last - self.first) as usize + 1;
        1 + pairs(outlets)
    }

    #[tactic(auto, using(crate::proofs::Outlets::later_test, crate::proofs::Outlets::past_test, crate::proofs::Outlets::past_rule))]
    fn rule(&self, k: usize, place: &mut Rule) -> bool {
        if k == 0 {
            *place = self.some_outlet();
            return true;
        }
        match self.pair(k - 1) {
            Some(pair) => {
                *place = pair.exclusion();
                true
            }
            None => false,
        }
    }
}

impl Selector {
    /// If the box is on, some outlet is.
    fn some_outlet(&self) -> Rule
        ensures { Holds result (some_outlet self.now.box_atom self.now.first self.now.last) }
    {
        Rule {
            heads: self.outlets(),
            needs: AtomSet::from(&[self.box_atom][..]),
            ..Rule::empty()
        }
    }

    /// The set of the outlets.
    #[tactic(auto, using(crate::proofs::Outlets::span_has))]
    fn outlets(&self) -> AtomSet
        ensures { (i : ℕ) → has result i ≡ span self.now.first self.now.last i }
    {
        let up_to_last = AtomSet::below(self.last as usize + 1);
        up_to_last.minus(&AtomSet::below(self.first as usize))
    }

    /// The two outlets at place k of all pairs, ordered by the lower and then by the higher.
    #[tactic(auto, using(crate::proofs::Outlets::pair_here, crate::proofs::Outlets::pair_later, crate::proofs::Outlets::pair_past))]
    fn pair(&self, k: usize) -> Option<Pair>
        ensures some { IfSome result (λ p. slice_get (exclusions_in self.now) k ≡ Some (exclusion p.low p.high)) }
        ensures none { IfNone result (slice_get (exclusions_in self.now) k ≡ None) }
    {
        let mut rest = k;
        // a row at a time: a chain over all pairs passes each pair before k, and is a hundred times slower
        for low in self.first..self.last {
            let row = (self.last - low) as usize;
            if rest < row {
                return Some(Pair {
                    low,
                    high: low + 1 + rest as u8,
                });
            }
            rest -= row;
        }
        None
    }
}

/// How many pairs so many outlets make.
fn pairs(outlets: usize) -> usize
    requires { (1 ≤ outlets) × (outlets ≤ 32) }
    ensures { result ≡ outlets * (outlets - 1) / 2 }
{
    let twice = outlets * (outlets - 1);
    twice / 2
}
