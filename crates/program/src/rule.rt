// A rule as three sets.
ghost use Rattle.std.specs.Prelude.{◌≡◌, ℕ};
ghost use Rattle.atoms.specs.Member.{has};
ghost use Rattle.program.specs.Programs.{no_rule};
ghost use Rattle.program.specs.Rules.{Holds, shifted_set};

use atoms::AtomSet;

/// If the needs are in and the bars are out, at least one of the heads is in.
#[derive(Clone, Copy, Debug, PartialEq, Eq)]
pub struct Rule {
    pub heads: AtomSet,
    pub needs: AtomSet,
    pub bars: AtomSet,
}

impl Rule {
    /// The rule with no atoms.
    pub fn empty() -> Rule
        ensures { Holds result no_rule }
    {
        Rule {
            heads: AtomSet::empty(),
            needs: AtomSet::empty(),
            bars: AtomSet::empty(),
        }
    }

    /// The rule with each atom moved up by d; those that would pass 255 are dropped.
    pub fn shifted(&self, d: usize) -> Rule
        ensures heads { (i : ℕ) → has result.heads i ≡ shifted_set d (has self.now.heads) i }
        ensures needs { (i : ℕ) → has result.needs i ≡ shifted_set d (has self.now.needs) i }
        ensures bars { (i : ℕ) → has result.bars i ≡ shifted_set d (has self.now.bars) i }
    {
        Rule {
            heads: self.heads.shifted(d),
            needs: self.needs.shifted(d),
            bars: self.bars.shifted(d),
        }
    }
}
