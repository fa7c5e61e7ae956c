// The rules of a source, one after the other.
ghost use Rattle.std.specs.Prelude.{◌≡◌, length, IfSome, Some};
ghost use Rattle.std.specs.Iterator.{YieldsFirstBy, item_count, UpTo};
ghost use Rattle.std.specs.Iterator.SizeHint.{IsWithinCount};
ghost use Rattle.program.specs.Rules.{as_rule};
ghost use Rattle.program.specs.Iterated.{rules_left};

use crate::limits::MAX_RULES;
use crate::rule::Rule;
use crate::source::RuleSource;

/// Gives the rules of a source in order, and asks for each of them once.
#[derive(Drop)]
pub struct Rules<'a, S> {
    pub(crate) source: &'a S,
    pub(crate) next: usize,
}

impl<S: RuleSource> Iterator for Rules<'_, S> {
    type Item = Rule;

    ghost next_gives = { YieldsFirstBy as_rule (rules_left S.RuleSource.meaning) };

    ghost remaining = { item_count (rules_left S.RuleSource.meaning) };

    fn next(&mut self) -> Option<Rule> {
        let mut rule = Rule::empty();
        if !self.source.rule(self.next, &mut rule) {
            return None;
        }
        self.next += 1;
        Some(rule)
    }

    fn size_hint(&self) -> (usize, Option<usize>)
        ensures lower { IsWithinCount result.0 (item_count (rules_left S.RuleSource.meaning) self.now) }
        ensures upper { IfSome result.1 (UpTo (item_count (rules_left S.RuleSource.meaning) self.now)) }
        ensures exact { (result.0 ≡ length (rules_left S.RuleSource.meaning self.now)) × (result.1 ≡ Some result.0) }
    {
        let count = self.source.rule_count();
        let left = if count > MAX_RULES {
            0
        } else {
            count.saturating_sub(self.next)
        };
        (left, Some(left))
    }
}
