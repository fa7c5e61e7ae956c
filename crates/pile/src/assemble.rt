// A pile from a source and steps.
ghost use Rattle.pile.specs.Steps.{piled, stepped};
ghost use Rattle.program.specs.Meanings.{program};
ghost use Rattle.program.specs.Tables.{Loads, tabled};

use crate::step::Step;
use program::load::load;
use program::offset::Offset;
use program::refusal::Refusal;
use program::source::RuleSource;
use program::table::RuleTable;
use program::union::Union;
use std::alloc::Global;

/// The source after these steps, in order, loaded.
pub fn assemble<S: RuleSource>(
    heap: Global,
    source: &S,
    steps: &[Step],
) -> Result<RuleTable, Refusal>
    ensures { Loads (piled steps.now (S.RuleSource.meaning source.now)) result }
{
    let mut pile = load(heap, source)?;
    for step in steps {
        pile = add(heap, &pile, *step)?;
    }
    Ok(pile)
}

/// The pile after one step more.
fn add(heap: Global, pile: &RuleTable, step: Step) -> Result<RuleTable, Refusal>
    ensures { Loads (stepped step (program (tabled pile.now))) result }
{
    // a match on two kinds, which are closed: each makes a source of another type
    match step {
        Step::Offset(by) => load(heap, &Offset { source: pile, by }),
        Step::Select(selector) => load(
            heap,
            &Union {
                first: pile,
                second: selector,
            },
        ),
    }
}
