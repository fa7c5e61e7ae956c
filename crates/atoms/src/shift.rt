// A set moved up, atom by atom the same way, by moving and shifting its words.
ghost use Rattle.std.specs.Prelude.{◌≡◌, ℕ, ◌-◌, ◌&&◌, if◌then◌else◌, nat_le, nat_lt, slice_index};
ghost use Rattle.atoms.specs.Member.{has};
ghost use Rattle.atoms.specs.Words.{IsWord};

use super::AtomSet;
use super::word_ops::words_from;

impl AtomSet {
    /// The atoms i + d for each atom i of the set; those that would pass 255 are dropped.
    pub fn shifted(&self, d: usize) -> AtomSet
        ensures { (i : ℕ) → has result i ≡ (nat_le d i && (nat_lt i 256 && has self.now (i - d))) }
    {
        AtomSet {
            words: words_from(|j| self.shifted_word(d, j)),
        }
    }

    // The word j of the set moved up by d.
    fn shifted_word(&self, d: usize, j: usize) -> u64
        ensures { IsWord (λ i. nat_le d i && has self.now (i - d)) j result }
    {
        let whole = d / 64;
        let part = d % 64;
        let high = self.word_before(j, whole) << part;
        // by 64 - part digits, in two steps, since that may be 64
        let low = self.word_before(j, whole + 1) >> 1 >> (63 - part);
        high | low
    }

    // The word that stands `back` words before the word j, and 0 where there is none.
    fn word_before(&self, j: usize, back: usize) -> u64
        ensures { result ≡ (if nat_le back j then slice_index self.now.words (j - back) else 0) }
    {
        let k = j.checked_sub(back);
        k.and_then(|k| self.words.get(k)).copied().unwrap_or(0)
    }
}
