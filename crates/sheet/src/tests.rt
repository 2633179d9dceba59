// What is printed for files worked by hand.
use crate::write_sheet;
use std::alloc::Global;
use std::process::Abort;
use std::test::Fail;

// What is printed for a file is this text.
fn check_sheet(rt: &impl Abort, heap: Global, file: &[u8], text: &[u8]) -> Result<(), Fail> {
    let mut out = Vec::new(heap);
    write_sheet(&mut out, file)?;
    assert!(rt; out.as_slice() == text);
    Ok(())
}

#[test]
fn fill_is_settled(rt: HostRuntime) -> Result<(), Fail> {
    let fill = b"FPD\x00\x01\x00\x03\x00\x04\
\x00\x0a\x00\x00\x00\x01\x00\x00\xea\x60\
\x00\x0b\x00\x01\x00\x00\xff\xff\xff\x38\
\x00\x0c\x00\x01\x00\x02\x00\x00\x03\x84\
\x00\x0d\x00\x02\x00\x01\xff\xff\xff\x6a\
\x04card\x04lift\x05valve";
    check_sheet(
        &rt,
        rt.alloc(),
        fill,
        b"events 3 rules 4\n0 0 card\n1 200 lift\n2 350 valve\n",
    )
}

#[test]
fn ring_is_refused(rt: HostRuntime) -> Result<(), Fail> {
    let ring = b"FPD\x00\x01\x00\x03\x00\x05\
\x00\x0a\x00\x00\x00\x01\x00\x00\xea\x60\
\x00\x0b\x00\x01\x00\x00\xff\xff\xff\x38\
\x00\x0c\x00\x01\x00\x02\x00\x00\x03\x84\
\x00\x0d\x00\x02\x00\x01\xff\xff\xff\x6a\
\x00\x0e\x00\x00\x00\x02\x00\x00\x01\x2c\
\x04card\x04lift\x05valve";
    check_sheet(&rt, rt.alloc(), ring, b"refused plan 15 3\n")
}

#[test]
fn nameless_lines_end_after_the_time(rt: HostRuntime) -> Result<(), Fail> {
    // 1: 0→1 −500
    let early = b"FPD\x00\x01\x00\x02\x00\x01\x00\x01\x00\x00\x00\x01\xff\xff\xfe\x0c\x00\x01b";
    check_sheet(&rt, rt.alloc(), early, b"events 2 rules 1\n0 0\n1 -500 b\n")
}

// Files of one event, and what is printed.
const SMALL: [(&[u8], &[u8]); 7] = [
    (b"", b"refused file 21 0\n"),
    (
        b"FPD\x00\x01\x00\x01\x00\x00\x00",
        b"events 1 rules 0\n0 0\n",
    ),
    (b"FPD\x00\x01\x00\x01\x00\x00\x00!", b"refused file 29 10\n"),
    // 0: 0→0 0
    (
        b"FPD\x00\x01\x00\x01\x00\x01\x00\x00\x00\x00\x00\x00\x00\x00\x00\x00\x00",
        b"refused book 3 0\n",
    ),
    // 1: 0→1 0
    (
        b"FPD\x00\x01\x00\x01\x00\x01\x00\x01\x00\x00\x00\x01\x00\x00\x00\x00\x00",
        b"refused book 4 0\n",
    ),
    // 1: 0→0 0
    (
        b"FPD\x00\x01\x00\x01\x00\x01\x00\x01\x00\x00\x00\x00\x00\x00\x00\x00\x00",
        b"events 1 rules 1\n0 0\n",
    ),
    // 1: 0→0 −1
    (
        b"FPD\x00\x01\x00\x01\x00\x01\x00\x01\x00\x00\x00\x00\xff\xff\xff\xff\x00",
        b"refused plan 15 1\n",
    ),
];

#[test]
fn small_files(rt: HostRuntime) -> Result<(), Fail> {
    for (file, text) in SMALL {
        check_sheet(&rt, rt.alloc(), file, text)?;
    }
    Ok(())
}
