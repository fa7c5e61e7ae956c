// Any source, gathered into a table.
ghost use Rattle.program.specs.Meanings.{overfull, rules_of};
ghost use Rattle.program.specs.Programs.{rule_at};
ghost use Rattle.program.specs.Rules.{as_rule};
ghost use Rattle.program.specs.Tables.{Loads};
ghost use Rattle.std.specs.Prelude.{◌≡◌, ◌↔◌, ◌<◌, ◌≤◌, drop, length, map, IfOk, IsErrOf, MatchOption};
ghost use Rattle.std.specs.Iterator.{YieldsFirstBy, item_count};

use crate::limits::MAX_RULES;
use crate::refusal::Refusal;
use crate::rule::Rule;
use crate::source::RuleSource;
use crate::table::RuleTable;
use std::alloc::{AllocError, Global};

/// The source's program as a table. Each rule is asked for once.
pub fn load<S: RuleSource>(heap: Global, source: &S) -> Result<RuleTable, Refusal>
    ensures loads { Loads (S.RuleSource.meaning source.now) result }
    ensures overfull { IsErrOf result Refusal.Overfull ↔ (S.RuleSource.meaning source.now ≡ overfull) }
{
    let count = source.rule_count();
    if count > MAX_RULES {
        return Err(Refusal::Overfull);
    }
    Ok(RuleTable {
        atoms: source.atom_count(),
        rules: gather(heap, source, count)?,
    })
}

/// The rules of a source, of which there are so many.
fn gather<S: RuleSource>(heap: Global, source: &S, count: usize) -> Result<Vec<Rule>, AllocError>
    requires { count ≡ length (rules_of (S.RuleSource.meaning source.now)) }
    ensures { IfOk result (λ v. map as_rule v.items ≡ rules_of (S.RuleSource.meaning source.now)) }
{
    let mut rules = Vec::with_capacity(heap, count)?;
    rules.extend(Counted {
        source,
        next: 0,
        end: count,
    })?;
    Ok(rules)
}

/// The rules of a source from `next` on, where it was asked before how many it has.
// In place of `iter`: that would ask it again, and for a rule past the end.
#[derive(Drop)]
struct Counted<'a, S: RuleSource> {
    source: &'a S,
    next: usize,
    end: usize,
    ghost counted: { end ≡ length (rules_of (S.RuleSource.meaning source.now)) },
}

impl<S: RuleSource> Iterator for Counted<'_, S> {
    type Item = Rule;

    ghost next_gives = { YieldsFirstBy as_rule (λ s. drop s.next (rules_of (S.RuleSource.meaning s.source.now))) };

    ghost remaining = { item_count (λ s. drop s.next (rules_of (S.RuleSource.meaning s.source.now))) };

    fn next(&mut self) -> Option<Rule> {
        if self.next >= self.end {
            return None;
        }
        let k = self.next;
        self.next += 1;
        rule_at(self.source, k)
    }
}

/// Rule k, if there is one.
fn rule_at<S: RuleSource>(source: &S, k: usize) -> Option<Rule>
    ensures { let rules = rules_of (S.RuleSource.meaning source.now) in
        MatchOption result (length rules ≤ k) (λ r. (k < length rules) × (as_rule r ≡ rule_at rules k)) }
{
    let mut rule = Rule::empty();
    source.rule(k, &mut rule).then_some(rule)
}
