// What is shown of each rule, and its line.
use crate::build::*;
use account::inspect::inspect;
use account::text::rule_line;
use std::test::Fail;
use word_format::shown::{Form, Shown};
use word_format::words::WordProgram;

// a fact, two rules, a constraint, and a rule with no parts
const WORDS: [u32; 20] = [
    HEADER + 12,
    0,
    11,
    END,
    0,
    1,
    NEED + 2,
    BAR + 3,
    END,
    7,
    BAR + 4,
    BAR + 5,
    END,
    NEED + 2,
    NEED + 10,
    BAR,
    END,
    END,
    BAR + 1,
    END,
];

/// The form, the position, the first word and the number of words, if a rule is shown.
fn parts(shown: Shown<'_>) -> Option<(Form, usize, u32, usize)> {
    let form = shown.form()?;
    match shown {
        Shown::Fact(part, position)
        | Shown::Rule(part, position)
        | Shown::Constraint(part, position) => {
            Some((form, position, *part.first()?, part.len()))
        }
        Shown::PastEnd => None,
    }
}

#[test]
fn forms(rt: HostRuntime) -> Result<(), Fail> {
    let mut program = WordProgram::new(rt.alloc())?;
    assert_eq!(rt; parts(program.show(0)), None);
    assert_eq!(rt; code(program.open(&WORDS)), None);
    let table = [
        (0, Some((Form::Fact, 1, 0, 3))),
        (1, Some((Form::Rule, 4, 0, 5))),
        (2, Some((Form::Rule, 9, 7, 4))),
        (3, Some((Form::Constraint, 13, NEED + 2, 4))),
        (4, Some((Form::Constraint, 17, END, 1))),
        (5, Some((Form::Constraint, 18, BAR + 1, 2))),
        (6, None),
        (usize::MAX, None),
    ];
    for (k, expected) in table {
        assert_eq!(rt; parts(program.show(k)), expected);
    }
    Ok(())
}

#[test]
fn lines(rt: HostRuntime) -> Result<(), Fail> {
    let heap = rt.alloc();
    let mut program = WordProgram::new(heap)?;
    assert_eq!(rt; code(program.open(&WORDS)), None);
    let table = [
        "rule 0 at 1: 0 | 11 <-\n",
        "rule 1 at 4: 0 | 1 <- 2, not 3\n",
        "rule 2 at 9: 7 <- not 4, not 5\n",
        "rule 3 at 13: <- 2, 10, not 0\n",
        "rule 4 at 17: <-\n",
        "rule 5 at 18: <- not 1\n",
        "",
    ];
    for (k, expected) in table.iter().enumerate() {
        let line = rule_line(heap, k, program.show(k))?;
        assert!(rt; line.as_str() == *expected);
    }
    Ok(())
}

#[test]
fn accounts(rt: HostRuntime) -> Result<(), Fail> {
    let heap = rt.alloc();
    let bytes = [0xC0, 0, 0, 2, 0, 0, 0, 0, 0, 0, 0, 1, 0xC0, 0, 0, 0];
    let text = inspect(heap, &bytes)?;
    assert!(rt;
        text.as_str()
            == "atoms 2\nrules 1: facts 1, with a body 0, constraints 0\nrule 0 at 1: 0 | 1 <-\n"
    );
    match inspect(heap, &bytes[0..12]) {
        Ok(_) => Err(Fail::new("an unfinished rule was accepted")),
        Err(refusal) => {
            assert!(rt; refusal.to_string(heap)?.as_str() == "refused 16");
            Ok(())
        }
    }
}
