// What each kind of source answers, at its boundaries.
use crate::build::*;
use program::offset::Offset;
use program::refusal::Refusal;
use program::rule::Rule;
use program::selector::Selector;
use program::source::RuleSource;
use program::union::Union;
use std::test::Fail;

#[test]
fn selector_refusals(rt: HostRuntime) {
    let table = [
        (0, 1, 3, None),
        (0, 1, 1, None),
        (255, 0, 31, None),
        (0, 224, 255, None),
        (256, 0, 0, Some(41)),
        (0, 256, 256, Some(41)),
        (0, 1, 256, Some(41)),
        (0, 1, usize::MAX, Some(41)),
        (0, 3, 2, Some(42)),
        (40, 0, 32, Some(42)),
        (1, 1, 1, Some(43)),
        (3, 1, 3, Some(43)),
        // an atom too high comes before the outlets, and these before the box
        (256, 3, 2, Some(41)),
        (3, 3, 2, Some(42)),
        (5, 0, 32, Some(42)),
    ];
    for (b, first, last, expected) in table {
        assert_eq!(rt;
            Selector::new(b, first, last).err().map(Refusal::code),
            expected
        );
    }
}

#[test]
fn selector_rules(rt: HostRuntime) -> Result<(), Fail> {
    let selector = Selector::new(0, 1, 3)?;
    assert_eq!(rt; selector.atom_count(), 4);
    assert_eq!(rt; selector.rule_count(), 4);
    let table = [
        rule(&[1, 2, 3], &[0], &[]),
        rule(&[], &[1, 2], &[]),
        rule(&[], &[1, 3], &[]),
        rule(&[], &[2, 3], &[]),
    ];
    for (k, expected) in table.iter().enumerate() {
        assert_eq!(rt; rule_at(&selector, k), Some(*expected));
    }
    let mut place = table[0];
    assert!(rt; !selector.rule(4, &mut place));
    assert_eq!(rt; place, table[0]);
    let one = Selector::new(9, 4, 4)?;
    assert_eq!(rt; one.atom_count(), 10);
    assert_eq!(rt; one.rule_count(), 1);
    let most = Selector::new(0, 224, 255)?;
    assert_eq!(rt; most.rule_count(), 497);
    assert_eq!(rt; rule_at(&most, 31), Some(rule(&[], &[224, 255], &[])));
    assert_eq!(rt; rule_at(&most, 32), Some(rule(&[], &[225, 226], &[])));
    assert_eq!(rt; rule_at(&most, 496), Some(rule(&[], &[254, 255], &[])));
    assert_eq!(rt; rule_at(&most, 497), None);
    Ok(())
}

#[test]
fn unions(rt: HostRuntime) -> Result<(), Fail> {
    let heap = rt.alloc();
    let one = opened(heap, &[HEADER + 7, 6, NEED + 1, BAR + 2, END])?;
    let fits = Union {
        first: empty_rules(heap, 1_023)?,
        second: &one,
    };
    assert_eq!(rt; fits.atom_count(), 7);
    assert_eq!(rt; fits.rule_count(), 1_024);
    assert_eq!(rt; rule_at(&fits, 1_022), Some(Rule::empty()));
    assert_eq!(rt; rule_at(&fits, 1_023), Some(rule(&[6], &[1], &[2])));
    assert_eq!(rt; rule_at(&fits, 1_024), None);
    let turned = Union {
        first: &one,
        second: &one,
    };
    assert_eq!(rt; rule_at(&turned, 0), rule_at(&one, 0));
    let overfull = Union {
        first: &one,
        second: empty_rules(heap, 1_024)?,
    };
    assert_eq!(rt; overfull.atom_count(), 0);
    assert_eq!(rt; overfull.rule_count(), 1_025);
    assert_eq!(rt; rule_at(&overfull, 0), None);
    Ok(())
}

#[test]
fn offsets(rt: HostRuntime) -> Result<(), Fail> {
    let heap = rt.alloc();
    let program = opened(heap, &[HEADER + 3, 0, 1, NEED + 1, BAR + 2, END])?;
    let most = Offset {
        source: &program,
        by: 253,
    };
    assert_eq!(rt; most.atom_count(), 256);
    assert_eq!(rt; most.rule_count(), 1);
    assert_eq!(rt; rule_at(&most, 0), Some(rule(&[253, 254], &[254], &[255])));
    for by in [254, 256, usize::MAX] {
        let overfull = Offset {
            source: &program,
            by,
        };
        assert_eq!(rt; overfull.atom_count(), 0);
        assert_eq!(rt; overfull.rule_count(), 1_025);
        assert_eq!(rt; rule_at(&overfull, 0), None);
    }
    let none = Offset {
        source: empty_rules(heap, 0)?,
        by: 256,
    };
    assert_eq!(rt; none.atom_count(), 256);
    assert_eq!(rt; none.rule_count(), 0);
    Ok(())
}
