//! The text of scripts: each field, and what is refused.

use bits_core::{ShapeFault, Side};
use ring_script::{Field, ITEM_LIMIT, LETTER_LIMIT, Script, ScriptFault};
use std::alloc::{AllocError, AllocGlobal, Global};
use std::process::Abort;

// The fields of a plain script.
static PLAIN: [(&str, &str); 8] = [
    ("capacity", "1"),
    ("modulus", "3"),
    ("width", "1"),
    ("items", "[1]"),
    ("takes", "1"),
    ("close", "false"),
    ("schedule", "\"P8C10\""),
    ("oracle", "\"\""),
];

// A plain script with its batch named, without some fields, and with further members after it, each
// with a comma before it. Since the last of two equal names counts, these change the plain fields.
fn script_with(alloc: Global, left_out: &[&str], members: &str) -> Result<String, AllocError> {
    let mut text = String::from_str(alloc, "{\"batch\":1")?;
    for (name, value) in PLAIN.iter() {
        if !left_out.iter().any(|other| *other == *name) {
            for part in [",\"", name, "\":", value] {
                text.push_str(part)?;
            }
        }
    }
    text.push_str(members)?;
    text.push_str("}")?;
    Ok(text)
}

// The script that the text is.
fn read(rt: &(impl Abort + AllocGlobal), text: &str) -> Script<Global> {
    Script::read(rt.alloc(), text.as_bytes()).expect(rt, "a script")
}

// The bytes have this fault, or none.
fn expect_fault(rt: &(impl Abort + AllocGlobal), bytes: &[u8], fault: Option<ScriptFault>) {
    assert_eq!(rt; Script::read(rt.alloc(), bytes).err(), fault);
}

// A plain script with these members after it has this fault, or none.
fn expect_with(rt: &(impl Abort + AllocGlobal), members: &str, fault: Option<ScriptFault>) {
    let text = script_with(rt.alloc(), &[], members).expect(rt, "memory for the text");
    let found = Script::read(rt.alloc(), text.as_bytes()).err();
    assert!(rt; found == fault, "{members}");
}

// A fault, and members that have it.
type Refused = (ScriptFault, &'static [&'static str]);

// Faults, each with its members.
macro_rules! refused {
    ($($fault:ident $(($of:expr))?: $($members:literal),*;)*) => {
        &[$((ScriptFault::$fault $(($of))?, &[$($members),*])),*]
    };
}

// Plain scripts with members after them have these faults.
fn expect_refused(rt: &(impl Abort + AllocGlobal), rows: &[Refused]) {
    for (fault, texts) in rows {
        for members in texts.iter() {
            expect_with(rt, members, Some(*fault));
        }
    }
}

// The same if the members are a text, a part repeated this often, and a text.
fn expect_repeated(
    rt: &(impl Abort + AllocGlobal),
    members: (&str, &str, usize, &str),
    fault: Option<ScriptFault>,
) {
    let (before, part, times, after) = members;
    let parts = part.repeat(rt.alloc(), times);
    let parts = parts.expect(rt, "memory for the parts");
    let whole = format!(in rt.alloc(); "{before}{parts}{after}");
    expect_with(rt, &whole.expect(rt, "memory for the text"), fault);
}

fn expect_number(rt: &impl Abort, what: &str, made: u64, wanted: u64) {
    assert_eq!(rt; made, wanted, "{what}");
}

// The shape has this capacity, modulus, width, batch and take batch.
fn expect_shape(rt: &impl Abort, script: &Script<Global>, numbers: [u64; 5]) {
    let shape = script.shape();
    expect_number(rt, "capacity", shape.capacity(), numbers[0]);
    expect_number(rt, "modulus", shape.modulus(), numbers[1]);
    expect_number(rt, "width", shape.width(), numbers[2]);
    expect_number(rt, "batch", shape.batch(), numbers[3]);
    expect_number(rt, "take batch", shape.take_batch(), numbers[4]);
}

fn expect_lists(rt: &impl Abort, script: &Script<Global>, items: &[u64], oracle: &[bool]) {
    assert!(rt; script.items() == items);
    assert!(rt; script.oracle() == oracle);
}

fn expect_letter(rt: &impl Abort, script: &Script<Global>, place: u64, side: Option<Side>) {
    assert!(rt; script.letter(place) == side, "letter {place}");
}

// The letters of the schedule are those of a text of P and C, and there are no more.
fn expect_letters(rt: &impl Abort, script: &Script<Global>, letters: &str) {
    for (place, letter) in letters.as_bytes().iter().enumerate() {
        let side = if *letter == b'P' { Side::P } else { Side::C };
        expect_letter(rt, script, place as u64, Some(side));
    }
    let count = letters.len() as u64;
    expect_number(rt, "letters", script.len(), count);
    expect_letter(rt, script, count, None);
    expect_letter(rt, script, u64::MAX, None);
}

#[test]
fn reads_each_field(rt: HostRuntime) {
    let text = "{\"capacity\":4,\"modulus\":9,\"width\":3,\"items\":[7,0,5],\"takes\":2,\
        \"close\":true,\"schedule\":\"CP2C3\",\"oracle\":\"011\"}";
    let script = read(&rt, text);
    expect_shape(&rt, &script, [4, 9, 3, 1, 1]);
    expect_lists(&rt, &script, &[7, 0, 5], &[false, true, true]);
    expect_number(&rt, "takes", script.takes(), 2);
    assert!(rt; script.closes());
    expect_letters(&rt, &script, "CPPCCC");
}

#[test]
fn reads_fields_in_another_order(rt: HostRuntime) {
    let text = " { \"oracle\" : \"\", \"schedule\" : \"\", \"close\" : false, \"takes\" : 0,\n\
        \"items\" : [ ], \"batch\" : 64, \"width\" : 64, \"modulus\" : 256, \"capacity\" : 64 } \n";
    let script = read(&rt, text);
    expect_shape(&rt, &script, [64, 256, 64, 64, 1]);
    expect_lists(&rt, &script, &[], &[]);
    expect_number(&rt, "takes", script.takes(), 0);
    assert!(rt; !script.closes());
    expect_letters(&rt, &script, "");
}

// For a name that occurs twice the last value counts, whatever the first one was.
#[test]
fn reads_the_last_of_a_name(rt: HostRuntime) {
    let twice = ",\"takes\":5,\"takes\":6,\"close\":0,\"close\":true";
    let text = script_with(rt.alloc(), &[], twice).expect(&rt, "memory for the text");
    let script = read(&rt, &text);
    expect_number(&rt, "takes", script.takes(), 6);
    assert!(rt; script.closes());
    expect_with(
        &rt,
        ",\"takes\":5,\"takes\":null",
        Some(ScriptFault::WrongKind(Field::Takes)),
    );
}

#[test]
fn reads_a_batch(rt: HostRuntime) {
    let members = ",\"capacity\":3,\"modulus\":7,\"batch\":3";
    let three = script_with(rt.alloc(), &[], members).expect(&rt, "memory for the text");
    expect_shape(&rt, &read(&rt, &three), [3, 7, 1, 3, 1]);
}

#[test]
fn reads_a_take_batch(rt: HostRuntime) {
    let members = ",\"capacity\":3,\"modulus\":7,\"take_batch\":3";
    let alone = script_with(rt.alloc(), &[], members).expect(&rt, "memory for the text");
    expect_shape(&rt, &read(&rt, &alone), [3, 7, 1, 1, 3]);
    let members = ",\"capacity\":3,\"modulus\":7,\"take_batch\":2,\"batch\":3";
    let both = script_with(rt.alloc(), &[], members).expect(&rt, "memory for the text");
    expect_shape(&rt, &read(&rt, &both), [3, 7, 1, 3, 2]);
}

static ACCEPTED: [&str; 18] = [
    "",
    ",\"batch\":1",
    ",\"take_batch\":1",
    ",\"capacity\":3,\"modulus\":7,\"batch\":3,\"take_batch\":3",
    ",\"schedule\":\"P1000000\"",
    ",\"schedule\":\"P999999C\"",
    ",\"schedule\":\"P\\u00432\"",
    ",\"schedule\":\"PPP\"",
    ",\"schedule\":\"C1P10C100\"",
    ",\"schedule\":\"\"",
    ",\"oracle\":\"0110\"",
    ",\"items\":[0,1,1]",
    ",\"items\":[]",
    ",\"takes\":18446744073709551615",
    ",\"width\":3,\"items\":[7]",
    ",\"width\":63,\"items\":[9223372036854775807]",
    ",\"width\":64,\"items\":[18446744073709551615]",
    ",\"capacity\":3,\"modulus\":7,\"batch\":3",
];

#[test]
fn accepts(rt: HostRuntime) {
    for members in ACCEPTED.iter() {
        expect_with(&rt, members, None);
    }
}

static SHAPES: &[Refused] = refused! {
    Shape(ShapeFault::Capacity): ",\"capacity\":0", ",\"capacity\":65";
    Shape(ShapeFault::Modulus): ",\"modulus\":2", ",\"modulus\":257", ",\"capacity\":3,\"modulus\":6,\"batch\":3",
        ",\"width\":65,\"modulus\":2,\"items\":[2]";
    Shape(ShapeFault::Width): ",\"width\":0", ",\"width\":65", ",\"width\":0,\"items\":[2]";
    Shape(ShapeFault::Batch): ",\"capacity\":3,\"modulus\":7,\"batch\":0",
        ",\"capacity\":3,\"modulus\":0,\"batch\":4", ",\"take_batch\":2,\"batch\":2";
    Shape(ShapeFault::TakeBatch): ",\"take_batch\":0", ",\"take_batch\":2";
    Shape(ShapeFault::ModulusOfBatches): ",\"capacity\":3,\"modulus\":6,\"take_batch\":3";
};

#[test]
fn refuses_shapes(rt: HostRuntime) {
    expect_refused(&rt, SHAPES);
}

// The place of an item, or of a byte.
static PLACES: &[Refused] = refused! {
    ItemTooWide(0): ",\"items\":[2]", ",\"width\":63,\"items\":[9223372036854775808]",
        ",\"items\":[2],\"schedule\":\"P0C\"", ",\"items\":[2],\"schedule\":\"P0C\",\"oracle\":\"x\"",
        ",\"items\":[2],\"schedule\":\"P1000001\"", ",\"items\":[2],\"oracle\":\"x\"";
    ItemTooWide(2): ",\"items\":[1,0,2,3]";
    ItemTooWide(1): ",\"width\":3,\"items\":[7,8]";
    BadSchedule(1): ",\"schedule\":\"P0C\"", ",\"schedule\":\"P C\"", ",\"schedule\":\"C\u{e9}\"",
        ",\"schedule\":\"P0C\",\"oracle\":\"x\"";
    BadSchedule(0): ",\"schedule\":\"3P\"", ",\"schedule\":\"0\"", ",\"schedule\":\"p\"";
    BadSchedule(3): ",\"schedule\":\"P1C0\"";
    BadSchedule(9): ",\"schedule\":\"P99999999Q\"";
    ScheduleTooLong: ",\"schedule\":\"P1000001\"", ",\"schedule\":\"P999999C2\"", ",\"schedule\":\"P1000000C\"",
        ",\"schedule\":\"P18446744073709551616\"", ",\"schedule\":\"P18446744073709551617\"",
        ",\"schedule\":\"P1000001\",\"oracle\":\"x\"";
    BadOracle(2): ",\"oracle\":\"01x\"";
    BadOracle(0): ",\"oracle\":\"2\"";
    BadOracle(1): ",\"oracle\":\"1 0\"";
};

#[test]
fn refuses_items_schedules_and_oracles(rt: HostRuntime) {
    expect_refused(&rt, PLACES);
}

static UNKNOWN: &[Refused] = refused! {
    UnknownField: ",\"note\":0", ",\"Capacity\":1", ",\"\":1", ",\"note\":0,\"oracle\":1,\"capacity\":null",
        ",\"capacity\":0,\"batch \":1";
};

#[test]
fn refuses_unknown_names(rt: HostRuntime) {
    expect_refused(&rt, UNKNOWN);
}

static NEEDED: [(&str, Field); 8] = [
    ("capacity", Field::Capacity),
    ("modulus", Field::Modulus),
    ("width", Field::Width),
    ("items", Field::Items),
    ("takes", Field::Takes),
    ("close", Field::Close),
    ("schedule", Field::Schedule),
    ("oracle", Field::Oracle),
];

// Without the field, and without the later one too, the field is the one reported missing.
fn expect_missing(rt: &(impl Abort + AllocGlobal), name: &str, later: &str, field: Field) {
    assert!(rt; field.name() == name);
    let text = script_with(
        rt.alloc(),
        &[later, name],
        ",\"batch\":null,\"take_batch\":null",
    );
    let text = text.expect(rt, "memory for the text");
    expect_fault(rt, text.as_bytes(), Some(ScriptFault::MissingField(field)));
}

#[test]
fn names_the_missing_field(rt: HostRuntime) {
    for (name, field) in NEEDED.iter() {
        expect_missing(&rt, name, name, *field);
        expect_missing(&rt, name, "oracle", *field);
    }
}

static WRONG_KINDS: &[Refused] = refused! {
    WrongKind(Field::Capacity): ",\"capacity\":\"1\"";
    WrongKind(Field::Modulus): ",\"modulus\":true";
    WrongKind(Field::Width): ",\"width\":null";
    WrongKind(Field::Items): ",\"items\":1", ",\"items\":{}", ",\"items\":\"1\"", ",\"items\":[1,\"1\"]",
        ",\"items\":[[1]]", ",\"items\":[2,null]", ",\"items\":[-1]";
    WrongKind(Field::Takes): ",\"takes\":[1]";
    WrongKind(Field::Close): ",\"close\":0", ",\"close\":\"true\"";
    WrongKind(Field::Schedule): ",\"schedule\":1", ",\"schedule\":[\"P\"]";
    WrongKind(Field::Oracle): ",\"oracle\":false";
    WrongKind(Field::Batch): ",\"batch\":\"1\"", ",\"batch\":[]", ",\"capacity\":0,\"batch\":-1";
    WrongKind(Field::TakeBatch): ",\"take_batch\":null", ",\"batch\":0,\"take_batch\":\"1\"";
    // of two fields the first, of which the batches are the last
    WrongKind(Field::Close): ",\"batch\":null,\"oracle\":1,\"close\":0";
    WrongKind(Field::Batch): ",\"take_batch\":null,\"batch\":null";
};

#[test]
fn names_the_field_of_the_wrong_kind(rt: HostRuntime) {
    expect_refused(&rt, WRONG_KINDS);
}

static OTHER_NUMBERS: [&str; 8] = [
    "-1",
    "-0.5",
    "1.0",
    "1.5",
    "1e3",
    "1E0",
    "18446744073709551616",
    "100000000000000000000000000000000000000000",
];

#[test]
fn refuses_other_numbers(rt: HostRuntime) {
    let modulus = Some(ScriptFault::WrongKind(Field::Modulus));
    let items = Some(ScriptFault::WrongKind(Field::Items));
    for number in OTHER_NUMBERS.iter() {
        expect_repeated(&rt, (",\"modulus\":", number, 1, ""), modulus);
        expect_repeated(&rt, (",\"items\":[1,", number, 1, "]"), items);
    }
}

#[test]
fn keeps_the_limits(rt: HostRuntime) {
    expect_number(&rt, "items", ITEM_LIMIT as u64, 1000);
    expect_number(&rt, "letters", LETTER_LIMIT, 1_000_000);
    let many = Some(ScriptFault::TooManyItems);
    let long = Some(ScriptFault::ScheduleTooLong);
    expect_repeated(&rt, (",\"items\":[1", ",1", 999, "]"), None);
    expect_repeated(&rt, (",\"items\":[2", ",2", 1000, "]"), many);
    expect_repeated(&rt, (",\"schedule\":\"", "PC", 500_000, "\""), None);
    expect_repeated(&rt, (",\"schedule\":\"P", "PC", 500_000, "\""), long);
}

// A count of more digits than any machine number has.
#[test]
fn reads_long_counts(rt: HostRuntime) {
    for (members, fault) in [
        (
            (",\"schedule\":\"P", "0", 64, "\""),
            ScriptFault::BadSchedule(1),
        ),
        (
            (",\"schedule\":\"P", "9", 100, "\""),
            ScriptFault::ScheduleTooLong,
        ),
        (
            (",\"schedule\":\"P1", "0", 99, "\""),
            ScriptFault::ScheduleTooLong,
        ),
        (
            (",\"schedule\":\"P1", "0", 99, "x\""),
            ScriptFault::BadSchedule(101),
        ),
    ] {
        expect_repeated(&rt, members, Some(fault));
    }
}

#[test]
fn keeps_the_depth(rt: HostRuntime) {
    let deep = "[".repeat(rt.alloc(), 200).expect(&rt, "memory for it");
    let members = format!(in rt.alloc(); ",\"items\":{deep}").expect(&rt, "memory for it");
    expect_repeated(
        &rt,
        (members.as_str(), "]", 200, ""),
        Some(ScriptFault::NotJson),
    );
}

static NOT_JSON: [&[u8]; 8] = [
    b"",
    b"{",
    b"{}{}",
    b"{\"note\":0",
    b"\"\xff\"",
    b"{\"\xc3\":0}",
    b"{\"takes\":1e999}",
    b"{\"oracle\":\"\\ud800\"}",
];

static OTHER_BYTES: [(&[u8], ScriptFault); 6] = [
    (b"[]", ScriptFault::NotObject),
    (b"null", ScriptFault::NotObject),
    (b"1", ScriptFault::NotObject),
    (b"\"{}\"", ScriptFault::NotObject),
    (b"{}", ScriptFault::MissingField(Field::Capacity)),
    (b"{\"a\":0}", ScriptFault::UnknownField),
];

#[test]
fn refuses_bytes(rt: HostRuntime) {
    for bytes in NOT_JSON.iter() {
        expect_fault(&rt, bytes, Some(ScriptFault::NotJson));
    }
    for (bytes, fault) in OTHER_BYTES.iter() {
        expect_fault(&rt, bytes, Some(*fault));
    }
}
