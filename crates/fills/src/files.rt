// Questions 21 to 29, the decoded book, and its names.
use crate::writing::{Answer, File, answer, rule, told};
use books::{Book, Packed};
use std::alloc::{AllocError, Global};
use std::test::Fail;

// Events card, lift and valve; the lift follows the card by at least 200 ms, and the valve the lift by at least 150.
const CARD_FILL: &[u8; 65] = b"FPD\x00\x01\x00\x03\x00\x04\
\x00\x0a\x00\x00\x00\x01\x00\x00\xea\x60\
\x00\x0b\x00\x01\x00\x00\xff\xff\xff\x38\
\x00\x0c\x00\x01\x00\x02\x00\x00\x03\x84\
\x00\x0d\x00\x02\x00\x01\xff\xff\xff\x6a\
\x04card\x04lift\x05valve";

// The fill with one byte changed.
fn changed(at: usize, byte: u8) -> Answer {
    let mut file = *CARD_FILL;
    if let Some(old) = file.get_mut(at) {
        *old = byte;
    }
    answer(&file)
}

// The fill's first bytes.
fn front(size: usize) -> Answer {
    answer(&CARD_FILL[..size.min(65)])
}

fn named(book: &Packed, event: u16, name: &[u8]) -> bool {
    book.name(event).is_some_and(|part| part == name)
}

#[test]
fn fill_is_decoded(rt: HostRuntime) -> Result<(), Fail> {
    assert_eq!(rt; answer(CARD_FILL), Ok(()));
    let Ok(book) = Packed::open(CARD_FILL) else {
        return Err(Fail::new("refused"));
    };
    assert_eq!(rt; (book.events(), book.count()), (3, 4));
    assert_eq!(rt; book.rule(3), Ok(rule(13, 2, 1, -150)));
    assert_eq!(rt; book.rule(4).map_err(told), Err((17, 0)));
    Ok(())
}

#[test]
fn names_are_parts_of_the_file(rt: HostRuntime) -> Result<(), Fail> {
    let Ok(book) = Packed::open(CARD_FILL) else {
        return Err(Fail::new("refused"));
    };
    let names = named(&book, 0, b"card") && named(&book, 1, b"lift") && named(&book, 2, b"valve");
    assert!(rt; names && book.name(3).is_none() && book.name(65_535).is_none());
    Ok(())
}

#[test]
fn bytes_are_high_first(rt: HostRuntime) -> Result<(), Fail> {
    let mut file = File::new(rt.alloc(), 0x0203, 1)?;
    file.rule(rule(0x0405, 0x0107, 0x0009, 0x0011_2233))?;
    file.nameless(0x0203)?;
    let Ok(book) = Packed::open(&file.bytes) else {
        return Err(Fail::new("refused"));
    };
    assert_eq!(rt; book.events(), 0x0203);
    assert_eq!(rt; book.rule(0), Ok(rule(0x0405, 0x0107, 0x0009, 0x0011_2233)));
    Ok(())
}

// Byte changes of the fill, with what each leads to.
const CHANGES: [(usize, u8, Answer); 20] = [
    (0, b'f', Err((22, 0))),
    (1, b'Q', Err((22, 0))),
    (2, b'E', Err((22, 0))),
    (3, 1, Err((23, 3))),
    (4, 0, Err((23, 3))),
    (4, 2, Err((23, 3))),
    (6, 0, Err((24, 5))),
    (7, 255, Err((25, 7))),
    (8, 5, Err((27, 65))),
    (8, 6, Err((26, 65))),
    (49, 13, Err((27, 49))),
    (59, 6, Err((27, 59))),
    // The first name's bytes are asked about before the second name's length.
    (51, 127, Err((28, 51))),
    (6, 2, Err((29, 59))),
    (59, 4, Err((29, 64))),
    (10, 0, Err((3, 0))),
    (22, 3, Err((4, 1))),
    (35, 9, Err((5, 2))),
    (45, 0x80, Err((5, 3))),
    (40, 11, Err((6, 3))),
];

#[test]
fn changed_bytes(rt: HostRuntime) {
    for (at, byte, expected) in CHANGES {
        assert_eq!(rt; changed(at, byte), expected);
    }
}

// How many bytes of the fill are there, with what they lead to.
const FRONTS: [(usize, Answer); 10] = [
    (0, Err((21, 0))),
    (8, Err((21, 8))),
    (9, Err((26, 9))),
    (48, Err((26, 48))),
    (49, Err((27, 49))),
    (50, Err((27, 49))),
    (53, Err((27, 49))),
    (54, Err((27, 54))),
    (64, Err((27, 59))),
    (65, Ok(())),
];

#[test]
fn files_cut_short(rt: HostRuntime) {
    for (size, expected) in FRONTS {
        assert_eq!(rt; front(size), expected);
    }
}

#[test]
fn files_too_long(rt: HostRuntime) -> Result<(), Fail> {
    let mut file = CARD_FILL.to_vec(rt.alloc())?;
    file.push(0)?;
    assert_eq!(rt; answer(&file), Err((29, 65)));
    file.push(65)?;
    assert_eq!(rt; answer(&file), Err((29, 65)));
    // The file is asked about before its book.
    if let Some(number) = file.get_mut(10) {
        *number = 0;
    }
    assert_eq!(rt; answer(&file), Err((29, 65)));
    Ok(())
}

// Heads with several faults, and what the first leads to.
const HEADS: [(&[u8; 9], Answer); 5] = [
    (b"FPE\x00\x02\x00\x00\xff\xff", Err((22, 0))),
    (b"FPD\x00\x02\x00\x00\xff\xff", Err((23, 3))),
    (b"FPD\x00\x01\x00\x00\xff\xff", Err((24, 5))),
    (b"FPD\x00\x01\x00\x01\xff\xff", Err((25, 7))),
    (b"FPD\x00\x01\x00\x01\x00\x00", Err((27, 9))),
];

#[test]
fn first_fault_of_a_head(rt: HostRuntime) {
    for (head, expected) in HEADS {
        assert_eq!(rt; answer(head), expected);
    }
}

fn of_events(heap: Global, events: u16) -> Result<Answer, AllocError> {
    let mut file = File::new(heap, events, 0)?;
    file.nameless(events)?;
    Ok(answer(&file.bytes))
}

#[test]
fn event_counts(rt: HostRuntime) -> Result<(), Fail> {
    for (events, expected) in [
        (0, Err((24, 5))),
        (1, Ok(())),
        (1_024, Ok(())),
        (1_025, Err((24, 5))),
        (65_535, Err((24, 5))),
    ] {
        assert_eq!(rt; of_events(rt.alloc(), events)?, expected);
    }
    Ok(())
}

// A file whose rules have the numbers from 1 on, and whose events all have one name.
fn of_rules(heap: Global, rules: u16, events: u16, name: &[u8]) -> Result<File, AllocError> {
    let mut file = File::new(heap, events, rules)?;
    for place in 0..rules {
        file.rule(rule(place.saturating_add(1), 0, 1, 5))?;
    }
    for _ in 0..events {
        file.name(name)?;
    }
    Ok(file)
}

#[test]
fn rule_counts(rt: HostRuntime) -> Result<(), Fail> {
    for (rules, expected) in [(0, Ok(())), (4_096, Ok(())), (4_097, Err((25, 7)))] {
        assert_eq!(rt;
            answer(&of_rules(rt.alloc(), rules, 2, b"")?.bytes),
            expected
        );
    }
    Ok(())
}

#[test]
fn longest_file(rt: HostRuntime) -> Result<(), Fail> {
    let longest = of_rules(rt.alloc(), 4_096, 1_024, b"twelve bytes")?;
    assert_eq!(rt;
        (longest.bytes.len(), answer(&longest.bytes)),
        (54_281, Ok(()))
    );
    let too_long = of_rules(rt.alloc(), 4_096, 1_024, b"thirteen byte")?;
    assert_eq!(rt; answer(&too_long.bytes), Err((27, 40_969)));
    Ok(())
}

fn of_name(heap: Global, name: &[u8]) -> Result<Answer, AllocError> {
    let mut file = File::new(heap, 1, 0)?;
    file.name(name)?;
    Ok(answer(&file.bytes))
}

// So many bytes of one value as a name.
const NAMES: [(usize, u8, Answer); 9] = [
    (0, 65, Ok(())),
    (1, 65, Ok(())),
    (12, 65, Ok(())),
    (13, 65, Err((27, 9))),
    (13, 31, Err((27, 9))),
    (1, 31, Err((28, 10))),
    (12, 32, Ok(())),
    (12, 126, Ok(())),
    (2, 127, Err((28, 10))),
];

#[test]
fn names_alone(rt: HostRuntime) -> Result<(), Fail> {
    for (size, byte, expected) in NAMES {
        let name = vec![in rt.alloc(); byte; size]?;
        assert_eq!(rt; of_name(rt.alloc(), &name)?, expected);
    }
    assert_eq!(rt; of_name(rt.alloc(), &[65, 66, 255])?, Err((28, 12)));
    Ok(())
}
