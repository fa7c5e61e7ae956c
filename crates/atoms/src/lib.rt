#![tactic(auto)]

ghost use Rattle.std.specs.Prelude.{◌≡◌, ℕ, ◌^◌, ◌<◌, length, slice_index};

pub mod iter;
pub mod ops;
pub mod order;
pub mod shift;
#[cfg(test)]
mod tests;
mod word_ops;

/// A set of atoms, which are the numbers 0 to 255.
#[derive(Clone, Copy, Debug)]
pub struct AtomSet {
    words: [u64; 4],
    ghost long: { length words ≡ 4 },
    ghost fits: { (k : ℕ) → slice_index words k < 2 ^ 64 },
}
