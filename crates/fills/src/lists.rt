// Questions 1 to 6 and 17, of books over rule records.
use crate::writing::{Answer, rule, told};
use books::{Book, Listed, check as check_book};
use rules::Rule;
use std::test::Fail;

fn answer(events: u16, rules: &[Rule]) -> Answer {
    check_book(&Listed { events, rules }).map_err(told)
}

#[test]
fn event_counts(rt: HostRuntime) {
    for (events, expected) in [
        (0, Err((1, 0))),
        (1, Ok(())),
        (1_024, Ok(())),
        (1_025, Err((1, 0))),
        (65_535, Err((1, 0))),
    ] {
        assert_eq!(rt; answer(events, &[]), expected);
    }
    assert_eq!(rt; answer(0, &[rule(0, 9, 9, 0)]), Err((1, 0)));
}

#[test]
fn rule_counts(rt: HostRuntime) -> Result<(), Fail> {
    let mut rules = Vec::new(rt.alloc());
    for number in 1..=4_096u16 {
        rules.push(rule(number, 0, 0, 0))?;
    }
    assert_eq!(rt; answer(1, &rules), Ok(()));
    rules.push(rule(0, 9, 9, 0))?;
    assert_eq!(rt; answer(1, &rules), Err((2, 0)));
    assert_eq!(rt; answer(0, &rules), Err((1, 0)));
    Ok(())
}

// A rule alone in a book of two events, with what it leads to.
#[test]
fn rules_alone(rt: HostRuntime) {
    for (alone, expected) in [
        (rule(0, 0, 1, 0), Err((3, 0))),
        (rule(1, 0, 1, 0), Ok(())),
        (rule(65_535, 1, 1, 0), Ok(())),
        (rule(1, 2, 1, 0), Err((4, 0))),
        (rule(1, 1, 2, 0), Err((4, 0))),
        (rule(1, 0, 1, 100_000_000), Ok(())),
        (rule(1, 0, 1, 100_000_001), Err((5, 0))),
        (rule(1, 0, 1, -100_000_000), Ok(())),
        (rule(1, 0, 1, -100_000_001), Err((5, 0))),
        (rule(1, 0, 1, i32::MIN), Err((5, 0))),
        (rule(1, 0, 1, i32::MAX), Err((5, 0))),
        // Within a rule, the lower question wins.
        (rule(0, 9, 9, 200_000_000), Err((3, 0))),
        (rule(1, 9, 0, 200_000_000), Err((4, 0))),
        (rule(1, 0, 9, 200_000_000), Err((4, 0))),
    ] {
        assert_eq!(rt; answer(2, &[alone]), expected);
    }
}

// Numbers of three rules that are otherwise lawful, with what they lead to.
const NUMBERS: [([u16; 3], Answer); 7] = [
    ([7, 8, 9], Ok(())),
    ([7, 7, 7], Err((6, 1))),
    ([7, 8, 7], Err((6, 2))),
    ([7, 8, 8], Err((6, 2))),
    // Numbers with one remainder by 4,096 are different numbers.
    ([7, 4_103, 8_199], Ok(())),
    ([7, 4_103, 7], Err((6, 2))),
    // The earlier place wins, whatever its question.
    ([7, 7, 0], Err((6, 1))),
];

#[test]
fn numbers_are_borne_once(rt: HostRuntime) {
    for ([a, b, c], expected) in NUMBERS {
        assert_eq!(rt;
            answer(2, &[rule(a, 0, 1, 0), rule(b, 1, 0, 0), rule(c, 0, 0, 0)]),
            expected
        );
    }
}

// The second rule of two, the first being 7: 0→1 0, and what it leads to.
#[test]
fn first_no_wins(rt: HostRuntime) {
    for (second, expected) in [
        (rule(0, 9, 9, 200_000_000), Err((3, 1))),
        (rule(7, 9, 9, 200_000_000), Err((4, 1))),
        (rule(7, 0, 1, 200_000_000), Err((5, 1))),
        (rule(7, 0, 1, 0), Err((6, 1))),
        (rule(8, 0, 1, 0), Ok(())),
    ] {
        assert_eq!(rt; answer(2, &[rule(7, 0, 1, 0), second]), expected);
    }
    // A fault at an earlier place is told, though a later one has a lower number.
    assert_eq!(rt;
        answer(2, &[rule(7, 0, 1, 200_000_000), rule(0, 0, 1, 0)]),
        Err((5, 0))
    );
    assert_eq!(rt;
        answer(2, &[rule(7, 0, 9, 0), rule(0, 0, 1, 0)]),
        Err((4, 0))
    );
}

#[test]
fn rules_by_place(rt: HostRuntime) -> Result<(), Fail> {
    let mut rules = vec![in rt.alloc(); rule(1, 2, 3, 4); 65_534]?;
    rules.push(rule(5, 6, 7, -8))?;
    assert_eq!(rt;
        Listed {
            events: 9,
            rules: &rules
        }
        .count(),
        65_535
    );
    rules.push(rule(0, 0, 0, 0))?;
    let book = Listed {
        events: 9,
        rules: &rules,
    };
    assert_eq!(rt; (book.events(), book.count()), (9, 65_535));
    assert_eq!(rt; book.rule(65_534), Ok(rule(5, 6, 7, -8)));
    assert_eq!(rt; book.rule(65_535).map_err(told), Err((17, 0)));
    Ok(())
}
