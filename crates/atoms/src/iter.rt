// The atoms of a set, one by one.
ghost use Rattle.std.specs.Prelude.{◌≡◌, ◌≢◌, ◌∷◌, ℕ, ◌<◌, ◌≤◌, List, Some, length, slice_set};
ghost use Rattle.std.specs.Iterator.{YieldsFirst, item_count};
ghost use Rattle.atoms.specs.declared.AtomSet.{AtomSet};
ghost use Rattle.atoms.specs.Member.{left, members};

use super::AtomSet;
use super::word_ops::{first_word, low_digit, without_lowest};
use std::marker::Model;

/// The atoms of a set from the lowest on, seen as the list of those that are left.
#[derive(Drop)]
pub struct Iter {
    // the digits left of the word begun, in which the digit k is the atom first + k
    word: u64,
    first: usize,
    // the atoms of the words not begun
    rest: AtomSet,
}

impl Model for Iter {
    ghost Value = { List ℕ };

    ghost view = { λ it. left it.first it.word it.rest };

    ghost invariant = { λ it. it.first ≤ 192 };
}

impl Iterator for Iter {
    type Item = u8;

    ghost next_gives = { YieldsFirst (λ rest. rest) };

    ghost remaining = { item_count (λ rest. rest) };

    #[tactic(auto, using(crate::proofs::WordsListed::left_begun, crate::proofs::WordsListed::left_none))]
    fn next(&mut self) -> Option<u8> {
        // the word is a field of its own, so that a loop keeps it in a register
        if self.word == 0 {
            let (k, w) = first_word(&self.rest.words)?;
            self.word = w;
            self.first = 64 * k;
            self.rest = self.rest.without_word(k);
        }
        let (atom, word) = take_lowest(self.first, self.word);
        self.word = word;
        Some(atom)
    }

    fn size_hint(&self) -> (usize, Option<usize>)
        ensures exact { result ≡ (length self.now, Some (length self.now)) }
    {
        let n = self.len();
        (n, Some(n))
    }
}

impl ExactSizeIterator for Iter {
    #[tactic(auto, using(crate::proofs::WordsListed::left_length))]
    fn len(&self) -> usize {
        self.word.count_ones() as usize + self.rest.count()
    }
}

impl AtomSet {
    /// The atoms of the set, rising.
    #[tactic(auto, using(crate::proofs::WordsListed::left_at_first))]
    pub fn iter(&self) -> Iter
        ensures { result ≡ members self.now }
    {
        Iter {
            word: 0,
            first: 0,
            rest: *self,
        }
    }

    // The set without the atoms of the word k.
    fn without_word(&self, k: usize) -> AtomSet
        requires { k < 4 }
        ensures { result.words ≡ slice_set self.now.words k 0 }
    {
        let mut words = self.words;
        words[k] = 0;
        AtomSet { words }
    }
}

impl IntoIterator for &AtomSet {
    type Item = u8;

    type IntoIter = Iter;

    ghost into_iter_gives = { λ s it. it ≡ members s.now };

    fn into_iter(self) -> Iter {
        self.iter()
    }
}

// The lowest atom of the word begun, and the digits that are left of the word.
#[tactic(auto, using(crate::proofs::WordsListed::left_step))]
fn take_lowest(first: usize, word: u64) -> (u8, u64)
    requires low { first ≤ 192 }
    requires some { word ≢ 0 }
    ensures { (s : AtomSet) → left first word s ≡ result.0 ∷ left first result.1 s }
{
    let atom = first + low_digit(word) as usize;
    (atom as u8, without_lowest(word))
}
