// The rules of a source, gathered in memory.
ghost use Rattle.std.specs.Prelude.{map};
ghost use Rattle.program.specs.Programs.{Limited};
ghost use Rattle.program.specs.Rules.{as_rule};

use crate::rule::Rule;

pub mod answers;
pub mod read;

/// A program: the number of its atoms, and its rules in order.
#[derive(Drop)]
pub struct RuleTable {
    pub(crate) atoms: usize,
    pub(crate) rules: Vec<Rule>,
    ghost limited: { Limited (record { atoms = atoms; rules = map as_rule rules.items }) },
}
