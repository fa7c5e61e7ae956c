// While a box is on, exactly one of its outlets is on.
ghost use Rattle.std.specs.Prelude.{◌≡◌, ◌+◌, ◌<◌, ◌≤◌, false, ◌&&◌, nat_le};

pub mod answers;
pub mod make;

/// A box atom, and the outlets from the first to the last.
// The outlets are two fields: a `RangeInclusive` is not `Copy`, and the clauses of `new` name first and last.
#[derive(Clone, Copy, Debug)]
pub struct Selector {
    box_atom: u8,
    first: u8,
    last: u8,
    ghost box_low: { box_atom ≤ 255 },
    ghost last_low: { last ≤ 255 },
    ghost order: { first ≤ last },
    ghost few: { last < first + 32 },
    ghost apart: { (nat_le first box_atom && nat_le box_atom last) ≡ false },
}
