// Making a selector.
ghost use Rattle.program.specs.Selectors.{selector_fault};
ghost use Rattle.std.specs.Prelude.{◌≡◌, ◌<◌, Some, None, MatchResult};

use super::Selector;
use crate::refusal::Refusal;

/// The most outlets that a selector may have.
pub const MAX_OUTLETS: usize = 32;

impl Selector {
    /// The selector with this box and the outlets from the first to the last.
    pub fn new(box_atom: usize, first: usize, last: usize) -> Result<Selector, Refusal>
        ensures { MatchResult result (λ s. (selector_fault box_atom first last ≡ None) × (s.box_atom ≡ box_atom) × (s.first ≡ first) × (s.last ≡ last)) (λ e. selector_fault box_atom first last ≡ Some e) }
    {
        let box_atom = atom_of(box_atom)?;
        let first = atom_of(first)?;
        let last = atom_of(last)?;
        if first > last || (last - first) as usize >= MAX_OUTLETS {
            return Err(Refusal::BadOutlets);
        }
        if (first..=last).contains(&box_atom) {
            return Err(Refusal::BoxAmongOutlets);
        }
        Ok(Selector {
            box_atom,
            first,
            last,
        })
    }
}

/// The atom of this number: what 8 bits hold is an atom.
fn atom_of(number: usize) -> Result<u8, Refusal>
    ensures { MatchResult result (λ a. a ≡ number) (λ e. (e ≡ Refusal.AtomTooHigh) × (255 < number)) }
{
    u8::try_from(number).map_err(|_| Refusal::AtomTooHigh)
}
