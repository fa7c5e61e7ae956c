// The operations on sets. Each contract says, of every number i, whether i is in the result.
ghost use Rattle.std.specs.Prelude.{◌≡◌, ℕ, ◌≤◌, false, not, ◌&&◌, ◌||◌, IsTrue, ◌↔◌, MatchOption, ◌==◌, nat_lt};
ghost use Rattle.atoms.specs.Member.{Lowest, has, set_cmp, size};
ghost use Rattle.atoms.specs.Sets.{Apart, Sub};
ghost use Rattle.std.specs.Cmp.{eq_by_cmp_equiv, partial_equiv_from_equiv};
ghost use Rattle.std.specs.List.{list_any};
ghost use Rattle.std.specs.Ordering.{eq_by_cmp};
ghost use Rattle.atoms.specs.Order.{set_cmp_total};

use super::AtomSet;
use super::word_ops::{
    count_digits, first_word, low_digit, low_digits, same_words, with_digit, without_digit,
    zip_words,
};

impl AtomSet {
    /// The set with no atom.
    pub fn empty() -> AtomSet
        ensures { (i : ℕ) → has result i ≡ false }
    {
        AtomSet { words: [0; 4] }
    }

    /// The atoms below n: all where n passes 255.
    pub fn below(n: usize) -> AtomSet
        ensures { (i : ℕ) → has result i ≡ (nat_lt i n && nat_lt i 256) }
    {
        AtomSet {
            words: [0, 64, 128, 192].map(|first| low_digits(n.saturating_sub(first))),
        }
    }

    pub fn contains(&self, i: u8) -> bool
        ensures { result ≡ has self.now i }
    {
        (self.words[(i / 64) as usize] >> (i % 64)) % 2 == 1
    }

    pub fn insert(&mut self, i: u8)
        ensures { (j : ℕ) → has self.new j ≡ (j == i || has self.old j) }
    {
        let k = (i / 64) as usize;
        self.words[k] = with_digit(self.words[k], i % 64);
    }

    pub fn remove(&mut self, i: u8)
        ensures { (j : ℕ) → has self.new j ≡ (not (j == i) && has self.old j) }
    {
        let k = (i / 64) as usize;
        self.words[k] = without_digit(self.words[k], i % 64);
    }

    pub fn union(&self, other: &AtomSet) -> AtomSet
        ensures { (i : ℕ) → has result i ≡ (has self.now i || has other.now i) }
    {
        AtomSet {
            words: zip_words(&self.words, &other.words, |x, y| x | y),
        }
    }

    pub fn intersection(&self, other: &AtomSet) -> AtomSet
        ensures { (i : ℕ) → has result i ≡ (has self.now i && has other.now i) }
    {
        AtomSet {
            words: zip_words(&self.words, &other.words, |x, y| x & y),
        }
    }

    /// The atoms of the set that are not in the other.
    pub fn minus(&self, other: &AtomSet) -> AtomSet
        ensures { (i : ℕ) → has result i ≡ (has self.now i && not (has other.now i)) }
    {
        AtomSet {
            words: zip_words(&self.words, &other.words, |x, y| x & !y),
        }
    }

    pub fn is_empty(&self) -> bool
        ensures { IsTrue result ↔ ((i : ℕ) → has self.now i ≡ false) }
    {
        *self == AtomSet::empty()
    }

    pub fn is_subset(&self, other: &AtomSet) -> bool
        ensures { IsTrue result ↔ (Sub (has self.now) (has other.now)) }
    {
        self.minus(other).is_empty()
    }

    /// Whether no atom is in both sets.
    pub fn is_disjoint(&self, other: &AtomSet) -> bool
        ensures { IsTrue result ↔ (Apart (has self.now) (has other.now)) }
    {
        self.intersection(other).is_empty()
    }

    /// How many atoms the set has.
    #[tactic(auto, using(crate::proofs::Words::size_words, crate::proofs::Sizes::tally_bound))]
    pub fn count(&self) -> usize
        ensures value { result ≡ size self.now }
        ensures bound { result ≤ 256 }
    {
        count_digits(&self.words)
    }

    /// The lowest atom of the set.
    pub fn lowest(&self) -> Option<u8>
        ensures { MatchOption result ((i : ℕ) → has self.now i ≡ false) (λ i. Lowest (has self.now) i) }
    {
        let (k, w) = first_word(&self.words)?;
        Some(64 * k as u8 + low_digit(w))
    }
}

impl From<&[u8]> for AtomSet {
    // a number is in the result exactly if it stands among the atoms given
    ghost from_gives = { λ atoms s. (i : ℕ) → has s i ≡ list_any (λ j. i == j) atoms.now };

    fn from(atoms: &[u8]) -> AtomSet {
        let mut s = AtomSet::empty();
        for i in atoms {
            s.insert(*i);
        }
        s
    }
}

// By hand: a derived `==` has no clauses, and the law that ties it to `cmp` did not prove.
impl PartialEq for AtomSet {
    ghost eq = { eq_by_cmp set_cmp };

    ghost laws = { partial_equiv_from_equiv (eq_by_cmp_equiv set_cmp_total) };

    #[tactic(auto, using(crate::proofs::Ordered::eq_value, crate::proofs::Ordered::eq_tells))]
    fn eq(&self, other: &AtomSet) -> bool
        ensures value { result ≡ eq_by_cmp set_cmp self.now other.now }
        ensures same { IsTrue result ↔ (self.now ≡ other.now) }
        ensures members { IsTrue result ↔ ((i : ℕ) → has self.now i ≡ has other.now i) }
    {
        same_words(&self.words, &other.words)
    }
}

impl Eq for AtomSet {
    ghost laws = { eq_by_cmp_equiv set_cmp_total };
}
