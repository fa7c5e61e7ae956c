// Piles, loaded and accounted for.
use crate::build::*;
use account::inspect::inspect_pile;
use account::report::{Counts, account, count_forms};
use pile::assemble::assemble;
use pile::step::Step;
use program::load::load;
use program::offset::Offset;
use program::refusal::Refusal;
use program::rule::Rule;
use program::selector::Selector;
use program::source::RuleSource;
use program::table::RuleTable;
use program::union::Union;
use std::test::Fail;

#[test]
fn a_loaded_pile_answers_as_the_pile(rt: HostRuntime) -> Result<(), Fail> {
    let heap = rt.alloc();
    let program = opened(heap, &[HEADER + 2, 0, END, 1, NEED, BAR + 1, END])?;
    let pile = Union {
        first: Offset {
            source: &program,
            by: 4,
        },
        second: Selector::new(0, 1, 3)?,
    };
    let loaded = load(heap, &pile)?;
    assert_eq!(rt; loaded.atom_count(), pile.atom_count());
    assert_eq!(rt; loaded.rule_count(), 6);
    for k in 0..7 {
        let mut asked = Rule::empty();
        let mut held = Rule::empty();
        assert_eq!(rt; loaded.rule(k, &mut held), pile.rule(k, &mut asked));
        assert_eq!(rt; held, asked);
    }
    assert_eq!(rt; rule_at(&loaded, 1), Some(rule(&[5], &[4], &[5])));
    let mut place = rule(&[5], &[4], &[5]);
    assert!(rt; !loaded.rule(6, &mut place));
    assert_eq!(rt; place, rule(&[5], &[4], &[5]));
    Ok(())
}

#[test]
fn overfull_piles(rt: HostRuntime) -> Result<(), Fail> {
    let heap = rt.alloc();
    let selector = Selector::new(0, 1, 3)?;
    let full = empty_rules(heap, 1_021)?;
    assert!(rt; is_overfull(assemble(heap, &full, &[Step::Select(selector)])));
    let full = empty_rules(heap, 1_020)?;
    assert!(rt; assemble(heap, &full, &[Step::Select(selector)]).is_ok());
    // once overfull, overfull ever after
    let steps = [Step::Offset(257), Step::Select(selector)];
    assert!(rt; is_overfull(assemble(heap, &full, &steps)));
    Ok(())
}

fn is_overfull(pile: Result<RuleTable, Refusal>) -> bool {
    matches!(pile, Err(Refusal::Overfull))
}

#[test]
fn accounts_of_piles(rt: HostRuntime) -> Result<(), Fail> {
    let heap = rt.alloc();
    let bytes = [0xC0, 0, 0, 1, 0, 0, 0, 0, 0xC0, 0, 0, 0];
    let steps = [Step::Offset(1), Step::Select(Selector::new(1, 2, 3)?)];
    let text = inspect_pile(heap, &bytes, &steps)?;
    assert!(rt;
        text.as_str()
            == "atoms 4\nrules 3: facts 1, with a body 1, constraints 1\nrule 0 at 1: 1 <-\nrule 1 at 3: 2 | 3 <- 1\nrule 2 at 7: <- 2, 3\n"
    );
    match inspect_pile(heap, &bytes, &[Step::Offset(256)]) {
        Ok(_) => Err(Fail::new("an overfull pile was accounted for")),
        Err(refusal) => {
            assert!(rt; refusal.to_string(heap)?.as_str() == "refused 21");
            Ok(())
        },
    }
}

#[test]
fn accounts_of_sources(rt: HostRuntime) -> Result<(), Fail> {
    let heap = rt.alloc();
    let program = opened(heap, &[HEADER + 2, 0, END, 1, NEED, END, BAR + 1, END])?;
    let counts = Counts {
        facts: 1,
        bodies: 1,
        constraints: 1,
    };
    assert_eq!(rt; count_forms(&program), counts);
    let text = account(heap, &program)?;
    assert!(rt;
        text.as_str()
            == "atoms 2\nrules 3: facts 1, with a body 1, constraints 1\nrule 0 at 1: 0 <-\nrule 1 at 3: 1 <- 0\nrule 2 at 6: <- not 1\n"
    );
    let overfull = Offset {
        source: &program,
        by: 255,
    };
    assert_eq!(rt; count_forms(&overfull), Counts::default());
    assert_eq!(rt; account(heap, &overfull).err(), Some(Refusal::Overfull));
    Ok(())
}
