// A table as a source of rules.
ghost use Rattle.program.specs.Meanings.{program};
ghost use Rattle.program.specs.Tables.{tabled, table_limits};

use super::RuleTable;
use crate::rule::Rule;
use crate::source::RuleSource;

impl RuleSource for RuleTable {
    ghost meaning = { λ t. program (tabled t) };

    ghost small = { table_limits };

    fn atom_count(&self) -> usize {
        self.atoms
    }

    fn rule_count(&self) -> usize {
        self.rules.len()
    }

    fn rule(&self, k: usize, place: &mut Rule) -> bool {
        match self.rules.get(k) {
            Some(rule) => {
                *place = *rule;
                true
            }
            None => false,
        }
    }
}
