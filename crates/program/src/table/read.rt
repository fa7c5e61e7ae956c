// What a table holds.
ghost use Rattle.std.specs.Prelude.{◌≡◌};

use super::RuleTable;
use crate::rule::Rule;

impl RuleTable {
    /// The number of atoms.
    pub fn atom_count(&self) -> usize
        ensures { result ≡ self.now.atoms }
    {
        self.atoms
    }

    /// The rules in order.
    pub fn rules(&self) -> &[Rule]
        ensures { result.now ≡ self.now.rules.items }
    {
        self.rules.as_slice()
    }
}
