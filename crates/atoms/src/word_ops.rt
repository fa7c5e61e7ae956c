// What the operations on sets do with their words. A set has four words of 64 digits, and the atom i
// is the digit i % 64 of the word i / 64.
ghost use Rattle.std.specs.Prelude.{◌≡◌, ◌≢◌, ℕ, ◌-◌, ◌^◌, ◌<◌, ◌≤◌, min, nat_eq, MatchOption, bit_and, bit_or, count_ones, slice_index, sum_by};
ghost use Rattle.std.specs.Cmp.Lexicographic.{pointwise};
ghost use Rattle.std.specs.Int.Count.{count_trailing_zeros};

use std::array;

// The words that f gives for the four places: `array::from_fn` with a clause that the search can use.
pub(super) fn words_from<F: Fn(usize) -> u64>(f: F) -> [u64; 4]
    requires { F.IsAlwaysCallable f }
    ensures { (j : ℕ) → j < 4 → F.post f j (slice_index result j) }
{
    array::from_fn(|j| f(j))
}

// The words that f makes of the two words at each place, where f computes w.
pub(super) fn zip_words<F: Fn(u64, u64) -> u64>(a: &[u64; 4], b: &[u64; 4], f: F) -> [u64; 4]
    ghost w: { ℕ → ℕ → ℕ }
    requires callable { F.IsAlwaysCallable f }
    requires computes { (x y z : ℕ) → F.post f x y z → z ≡ w x y }
    ensures { (j : ℕ) → j < 4 → slice_index result j ≡ w (slice_index a.now j) (slice_index b.now j) }
{
    // written out: `array::from_fn` takes a quarter longer here
    [f(a[0], b[0]), f(a[1], b[1]), f(a[2], b[2]), f(a[3], b[3])]
}

// Written out, a word at a time: `==` of arrays reads two words at once, which waits where one was just written.
pub(super) fn same_words(a: &[u64; 4], b: &[u64; 4]) -> bool
    ensures { result ≡ pointwise nat_eq a.now b.now }
{
    a[0] == b[0] && a[1] == b[1] && a[2] == b[2] && a[3] == b[3]
}

pub(super) fn with_digit(w: u64, k: u8) -> u64
    requires { k < 64 }
    ensures { result ≡ bit_or w (2 ^ k) }
{
    w | 1 << k
}

pub(super) fn without_digit(w: u64, k: u8) -> u64
    requires { k < 64 }
    ensures { result ≡ bit_and w (2 ^ 64 - 1 - 2 ^ k) }
{
    w & !(1 << k)
}

// The n lowest digits set, or all of them.
pub(super) fn low_digits(n: usize) -> u64
    ensures { result ≡ 2 ^ min n 64 - 1 }
{
    if n < 64 { (1 << n) - 1 } else { u64::MAX }
}

// How many digits of the words are set.
pub(super) fn count_digits(a: &[u64; 4]) -> usize
    requires { sum_by count_ones a.now ≤ 256 }
    ensures { result ≡ sum_by count_ones a.now }
{
    a.iter().map(|w| w.count_ones() as usize).sum()
}

// The place of the first word that is not 0, and that word.
pub(super) fn first_word(a: &[u64; 4]) -> Option<(usize, u64)>
    ensures { MatchOption result ((j : ℕ) → j < 4 → slice_index a.now j ≡ 0) (λ p. (p.0 < 4) × (slice_index a.now p.0 ≡ p.1) × (p.1 ≢ 0) × ((j : ℕ) → j < p.0 → slice_index a.now j ≡ 0)) }
{
    let (k, w) = a.iter().enumerate().find(|(_, w)| **w != 0)?;
    Some((k, *w))
}

// The place of the lowest digit that is set, and 64 where none is.
pub(super) fn low_digit(w: u64) -> u8
    ensures value { result ≡ count_trailing_zeros 64 w }
    ensures bound { (w ≢ 0) → result < 64 }
{
    w.trailing_zeros() as u8
}

// The word without its lowest digit that is set.
pub(super) fn without_lowest(w: u64) -> u64
    requires { w ≢ 0 }
    ensures { result ≡ bit_and w (w - 1) }
{
    w & (w - 1)
}
