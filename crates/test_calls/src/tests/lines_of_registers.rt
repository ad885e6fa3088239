//! The lines of recorded registers.

use register_lines::{LINE_LIMIT, RegisterLine, read_register_line};
use std::process::Abort;
use std::test::Fail;

// Lines, and what each is read as.
const LINES: &[(&str, RegisterLine)] = &[
    ("register 0", RegisterLine::Register(0)),
    ("register 3 4", RegisterLine::Valued(3, 4)),
    (
        "cut register 18446744073709551615",
        RegisterLine::Cut(18_446_744_073_709_551_615),
    ),
    ("cut register 0 1", RegisterLine::CutValued(0, 1)),
    ("W write 7", RegisterLine::Write(7)),
    ("W wrote", RegisterLine::Wrote),
    ("R1 read", RegisterLine::Read(1)),
    ("R64 got 0", RegisterLine::Got(64, 0)),
    (
        "R10 got 18446744073709551615",
        RegisterLine::Got(10, 18_446_744_073_709_551_615),
    ),
];

// Bytes that are not a line.
const OTHERS: &[&str] = &[
    "",
    "register",
    "register ",
    "register  0",
    "register 0 ",
    "register 00",
    "register 3 3",
    "register 0 0",
    "register 0 1 2",
    "register 18446744073709551616",
    "cut",
    "cut register",
    "cut  register 0",
    "W",
    "W write",
    "W write ",
    "W write 01",
    "W write 1 ",
    "W wrote 1",
    "w wrote",
    "R read",
    "R0 read",
    "R01 read",
    "R65 read",
    "R1 reads",
    "R1  read",
    "R1 got",
    "R1 got ",
    "R1 got 0\r",
    "R1 got -1",
    " R1 read",
];

// The longest line.
const LONGEST: &str = "cut register 18446744073709551614 18446744073709551615";

#[test]
fn lines_of_a_register_are_read(rt: HostRuntime) -> Result<(), Fail> {
    for (text, line) in LINES {
        assert!(rt;
            read_register_line(text.as_bytes()) == Some(*line),
            "{text}"
        );
    }
    for text in OTHERS {
        assert!(rt; read_register_line(text.as_bytes()).is_none(), "{text}");
    }
    assert!(rt; LONGEST.len() == LINE_LIMIT);
    assert!(rt; read_register_line(LONGEST.as_bytes()).is_some());
    Ok(())
}
