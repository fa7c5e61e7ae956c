// A source with every atom moved up.
ghost use Rattle.std.specs.Prelude.{◌+◌, ◌≤◌, SomeIff};
ghost use Rattle.program.specs.Combined.{offset_by};
ghost use Rattle.program.specs.Limits.{offset_small};

use crate::limits::{MAX_ATOMS, OVERFULL};
use crate::rule::Rule;
use crate::source::RuleSource;

/// The rules of the source, with every atom moved up by so many.
#[derive(Drop)]
pub struct Offset<S: RuleSource> {
    pub source: S,
    pub by: usize,
}

impl<S: RuleSource> RuleSource for Offset<S> {
    ghost meaning = { λ s. offset_by s.by (S.RuleSource.meaning s.source) };

    ghost small = { λ s. offset_small s.by _ (S.RuleSource.small s.source) };

    fn atom_count(&self) -> usize {
        let count = moved_count(self.source.atom_count(), self.by);
        if self.source.is_overfull() {
            return 0;
        }
        count.unwrap_or(0)
    }

    fn rule_count(&self) -> usize {
        match moved_count(self.source.atom_count(), self.by) {
            Some(_) => self.source.rule_count(),
            None => OVERFULL,
        }
    }

    fn rule(&self, k: usize, place: &mut Rule) -> bool {
        if moved_count(self.source.atom_count(), self.by).is_none() {
            return false;
        }
        let mut found = *place;
        if !self.source.rule(k, &mut found) {
            return false;
        }
        *place = found.shifted(self.by);
        true
    }
}

/// So many atoms and so many more, if a program may have as many.
fn moved_count(atoms: usize, by: usize) -> Option<usize>
    ensures { SomeIff result (atoms + by ≤ 256) (atoms + by) }
{
    let count = atoms.checked_add(by)?;
    (count <= MAX_ATOMS).then_some(count)
}
