// A source that is lent.
use crate::rule::Rule;
use crate::source::RuleSource;

impl<S: RuleSource> RuleSource for &S {
    ghost meaning = { λ s. S.RuleSource.meaning s.now };

    ghost small = { λ s. S.RuleSource.small s.now };

    fn atom_count(&self) -> usize {
        (**self).atom_count()
    }

    fn rule_count(&self) -> usize {
        (**self).rule_count()
    }

    fn rule(&self, k: usize, place: &mut Rule) -> bool {
        (**self).rule(k, place)
    }
}
