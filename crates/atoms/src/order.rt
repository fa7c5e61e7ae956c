// Sets in order: of two sets the one that lacks the lowest atom in which they differ comes first.
ghost use Rattle.std.specs.Prelude.{◌≡◌, ℕ, drop, map, Some, IsSomeAnd, IsTrue, ◌↔◌, refl};
ghost use Rattle.atoms.specs.Laws.{CmpLaw, ListLaws, OrderLaws};
ghost use Rattle.atoms.specs.Member.{differ, has, set_cmp};
ghost use Rattle.atoms.specs.Sets.{Precedes, Rising};
ghost use Rattle.std.specs.Cmp.{partial_order_from_total};
ghost use Rattle.std.specs.Ordering.{MatchOrdering, as_partial_cmp, is_lt};
ghost use Rattle.std.specs.List.{list_all, zip};
ghost use Rattle.atoms.specs.Order.{set_cmp_total};

use super::AtomSet;
use std::cmp::Ordering;

impl AtomSet {
    /// Whether the set comes before the other.
    pub fn precedes(&self, other: &AtomSet) -> bool
        ensures value { IsTrue result ↔ (Precedes (has self.now) (has other.now)) }
        ensures test { result ≡ is_lt (set_cmp self.now other.now) }
        ensures laws { OrderLaws }
    {
        // a match: with `is_some_and` the search proved neither outcome
        match self.difference(other).lowest() {
            Some(i) => other.contains(i),
            None => false,
        }
    }

    // The atoms that are in one of the two sets only.
    fn difference(&self, other: &AtomSet) -> AtomSet
        ensures { (i : ℕ) → has result i ≡ differ (has self.now i) (has other.now i) }
    {
        self.minus(other).union(&other.minus(self))
    }
}

// By hand, both: a derived order would compare the words as numbers.
impl PartialOrd for AtomSet {
    ghost partial_cmp = { as_partial_cmp set_cmp };

    ghost laws = { partial_order_from_total set_cmp_total };

    fn partial_cmp(&self, other: &AtomSet) -> Option<Ordering>
        ensures value { result ≡ Some (set_cmp self.now other.now) }
        ensures ranked { IsSomeAnd result (λ o. MatchOrdering o (Precedes (has self.now) (has other.now)) (self.now ≡ other.now) (Precedes (has other.now) (has self.now))) }
    {
        Some(self.cmp(other))
    }
}

impl Ord for AtomSet {
    ghost cmp = { set_cmp };

    ghost total = { set_cmp_total };

    ghost matches_partial_cmp = { λ x y. refl };

    ghost matches_eq = { λ x y. refl };

    #[tactic(auto, using(crate::proofs::Ordered::less_is, crate::proofs::Ordered::greater_is))]
    fn cmp(&self, other: &AtomSet) -> Ordering
        ensures value { result ≡ set_cmp self.now other.now }
        ensures law { CmpLaw }
        ensures ranked { MatchOrdering result (Precedes (has self.now) (has other.now)) (self.now ≡ other.now) (Precedes (has other.now) (has self.now)) }
    {
        if self.precedes(other) {
            Ordering::Less
        } else if other.precedes(self) {
            Ordering::Greater
        } else {
            Ordering::Equal
        }
    }
}

/// Whether each set precedes all later ones.
#[tactic(auto, using(crate::proofs::Ordered::each_below_next_rises, crate::proofs::Ordered::rises_each_below_next))]
pub fn is_rising(sets: &[AtomSet]) -> bool
    ensures value { IsTrue result ↔ (Rising (map has sets.now)) }
    ensures laws { ListLaws }
{
    each_precedes_next(sets)
}

// Whether each set precedes the next.
// By a chain: the clause of `is_sorted_by` is none that the search uses, so an edit here would not be refused by one.
fn each_precedes_next(sets: &[AtomSet]) -> bool
    ensures { result ≡ list_all (λ p. is_lt (set_cmp p.0 p.1)) (zip sets.now (drop 1 sets.now)) }
{
    sets.iter()
        .zip(sets.iter().skip(1))
        .all(|(a, b)| a.precedes(b))
}
