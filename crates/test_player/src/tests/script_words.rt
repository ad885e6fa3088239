//! The texts of the faults of scripts.
use bits_core::ShapeFault;
use ring_script::{Field, ScriptFault};
use std::alloc::AllocGlobal;
use std::fmt::Display;
use std::process::Abort;

static WORDS: [(ScriptFault, u8, &str); 12] = [
    (ScriptFault::NotJson, 1, "script is not JSON"),
    (ScriptFault::NotObject, 2, "script is not an object"),
    (ScriptFault::UnknownField, 3, "script has an unknown field"),
    (
        ScriptFault::MissingField(Field::Close),
        4,
        "field close is missing",
    ),
    (
        ScriptFault::WrongKind(Field::Batch),
        5,
        "field batch has the wrong kind",
    ),
    (ScriptFault::TooManyItems, 7, "script has too many items"),
    (
        ScriptFault::ItemTooWide(12),
        8,
        "item 12 does not fit the width",
    ),
    (
        ScriptFault::BadSchedule(34),
        9,
        "schedule is wrong at byte 34",
    ),
    (ScriptFault::ScheduleTooLong, 10, "schedule is too long"),
    (ScriptFault::BadOracle(5), 11, "oracle is wrong at byte 5"),
    (ScriptFault::OutOfMemory, 12, "out of memory"),
    (
        ScriptFault::MissingField(Field::Capacity),
        4,
        "field capacity is missing",
    ),
];

// A shape that is refused, with its text: the fault of a script has the number 6.
static SHAPE_WORDS: [(ShapeFault, &str); 4] = [
    (ShapeFault::Capacity, "capacity must be from 1 to 64"),
    (
        ShapeFault::Modulus,
        "modulus must be from capacity + batch + 1 to 256",
    ),
    (ShapeFault::Width, "width must be from 1 to 64"),
    (ShapeFault::Batch, "batch must be from 1 to capacity"),
];

/// A fault with this number has the expected number and text.
pub fn expect_words(
    rt: &(impl Abort + AllocGlobal),
    fault: &impl Display,
    number: u8,
    wanted: (u8, &str),
) {
    let told = fault.to_string(rt.alloc()).expect(rt, "memory for words");
    assert!(rt; (number, told.as_str()) == wanted, "{told}");
}

#[test]
fn faults_have_their_numbers_and_words(rt: HostRuntime) {
    for (fault, number, words) in WORDS.iter() {
        expect_words(&rt, fault, fault.number(), (*number, words));
    }
    for (refused, words) in SHAPE_WORDS.iter() {
        let fault = ScriptFault::Shape(*refused);
        expect_words(&rt, &fault, fault.number(), (6, words));
    }
}
