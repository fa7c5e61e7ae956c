// Every refusal, on the shortest words and at its boundary, and the order of the tests where two faults meet.
use crate::build::*;
use std::test::Fail;
use word_format::words::WordProgram;

#[test]
fn shortest(rt: HostRuntime) {
    let table: [(&[u32], Option<u32>); 16] = [
        (&[HEADER], None),
        (&[HEADER, END], None),
        (&[HEADER + 1, 0, END], None),
        (&[HEADER + 2, 1, END, 0, END], None),
        (&[HEADER + 2, 1, NEED, BAR, END], None),
        (&[HEADER + 256, 255, NEED + 255, BAR + 255, END], None),
        (&[], Some(11)),
        (&[0], Some(11)),
        (&[NEED], Some(11)),
        (&[BAR], Some(11)),
        (&[HEADER + 257], Some(12)),
        (&[HEADER, 0], Some(13)),
        (&[HEADER + 256, 256], Some(13)),
        (&[HEADER + 2, 1, 1], Some(14)),
        (&[HEADER, END + 1], Some(15)),
        (&[HEADER + 1, 0], Some(16)),
    ];
    for (words, code) in table {
        assert_eq!(rt; verdict(words), code);
    }
}

#[test]
fn order_of_tests(rt: HostRuntime) {
    let table: [(&[u32], Option<u32>); 14] = [
        // the first word is a bad header, whatever its number
        (&[256], Some(11)),
        (&[NEED + 256, END + 1], Some(11)),
        // the header comes before every other word
        (&[HEADER + 257, 256], Some(12)),
        // on one word: the atom, then the order
        (&[HEADER + 2, NEED, 2], Some(13)),
        (&[HEADER + 2, 1, 256], Some(13)),
        (&[HEADER + 2, NEED, 0], Some(14)),
        (&[HEADER + 2, BAR, NEED + 1], Some(14)),
        (&[HEADER + 2, BAR, 1], Some(14)),
        (&[HEADER + 2, 1, 0], Some(14)),
        // a large number in an end word is no atom
        (&[HEADER, END + 256], Some(15)),
        // the first word with a fault counts, not the least number
        (&[HEADER + 2, END + 1, 2], Some(15)),
        (&[HEADER + 2, 1, 1, 2], Some(14)),
        (&[HEADER + 1, 1, 0, 0, END + 1], Some(13)),
        // the end of the words comes last
        (&[HEADER + 1, 0, 0], Some(14)),
    ];
    for (words, code) in table {
        assert_eq!(rt; verdict(words), code);
    }
}

#[test]
fn most_rules(rt: HostRuntime) -> Result<(), Fail> {
    let heap = rt.alloc();
    assert_eq!(rt; verdict(&empty_rules(heap, 1_024, &[])?), None);
    assert_eq!(rt; verdict(&empty_rules(heap, 1_025, &[])?), Some(17));
    assert_eq!(rt; verdict(&empty_rules(heap, 1_023, &[0, END])?), None);
    // the end word's number is tested before the count of rules
    assert_eq!(rt; verdict(&empty_rules(heap, 1_024, &[END + 1])?), Some(15));
    // a rule too many that does not end
    assert_eq!(rt; verdict(&empty_rules(heap, 1_024, &[0])?), Some(16));
    assert_eq!(rt; verdict(&empty_rules(heap, 1_024, &[0, END])?), Some(17));
    Ok(())
}

#[test]
fn most_words(rt: HostRuntime) -> Result<(), Fail> {
    let heap = rt.alloc();
    assert_eq!(rt; verdict(&long(heap, 16_384)?), None);
    assert_eq!(rt; verdict(&long(heap, 16_385)?), Some(18));
    // the length comes before the header
    assert_eq!(rt; verdict(&[0; 16_385]), Some(18));
    assert_eq!(rt; verdict(&[0; 16_384]), Some(11));
    Ok(())
}

#[test]
fn most_bytes(rt: HostRuntime) -> Result<(), Fail> {
    let heap = rt.alloc();
    let most = bytes(heap, &long(heap, 16_384)?)?;
    let mut program = WordProgram::new(heap)?;
    assert_eq!(rt; most.len(), 65_536);
    assert_eq!(rt; code(program.open_bytes(&most)), None);
    assert_eq!(rt; code(program.open_bytes(&[0; 65_535])), Some(31));
    // the length comes before what is left over
    assert_eq!(rt; code(program.open_bytes(&[0; 65_537])), Some(18));
    assert_eq!(rt; code(program.open_bytes(&[0; 65_540])), Some(18));
    // what is left over comes before the words
    assert_eq!(rt; code(program.open_bytes(&[1, 2, 3, 4, 5])), Some(31));
    assert_eq!(rt; code(program.open_bytes(&[1, 2, 3, 4])), Some(11));
    assert_eq!(rt; code(program.open_bytes(&[])), Some(11));
    assert_eq!(rt; code(program.open_bytes(&[0xC0, 0, 1, 1])), Some(12));
    // the most significant byte first
    assert_eq!(rt; code(program.open_bytes(&[0xC0, 0, 1, 0])), None);
    assert_eq!(rt; program.atom_count(), 256);
    Ok(())
}

#[test]
fn a_refusal_leaves_the_place(rt: HostRuntime) -> Result<(), Fail> {
    let mut program = WordProgram::new(rt.alloc())?;
    assert_eq!(rt; program.atom_count(), 0);
    assert_eq!(rt; program.rule_count(), 0);
    assert_eq!(rt; code(program.open(&[HEADER + 3, 2, END, END])), None);
    assert_eq!(rt; code(program.open(&[HEADER + 9, 2, 1, END])), Some(14));
    assert_eq!(rt; code(program.open_bytes(&[0])), Some(31));
    assert_eq!(rt; program.atom_count(), 3);
    assert_eq!(rt; program.rule_count(), 2);
    assert_eq!(rt; code(program.open(&[HEADER])), None);
    assert_eq!(rt; program.rule_count(), 0);
    Ok(())
}
