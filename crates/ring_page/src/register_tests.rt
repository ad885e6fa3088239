//! `page_register`: recorded registers, each class that is missed, other texts, and no room.

use crate::tests::numbers;
use crate::{MissTold, ReadTold, RegisterCounts, RegisterTold, page_register};

const NO_READ: ReadTold = numbers!(ReadTold: is_there 0, reader 0, ended 0, value 0, written 0);

const NO_MISS: MissTold = numbers!(MissTold:
    line 0, reader 0, value 0, reason 0, held 0, is_since 0, since 0, first NO_READ, second NO_READ, third NO_READ,
    fourth NO_READ, fifth NO_READ, sixth NO_READ, seventh NO_READ, eighth NO_READ, is_cut 0);

const NO_COUNTS: RegisterCounts = numbers!(RegisterCounts:
    writes 0, reads 0, overlapped 0, by_several 0, could_invert 0);

const NOTHING: RegisterTold = numbers!(RegisterTold:
    outcome 0, number 0, line 0, class 0, cut 0, counts NO_COUNTS, safe NO_MISS, regular NO_MISS, by_reader NO_MISS,
    atomic NO_MISS);

// The result for a text, in slots that held 7s.
fn register(text: &str, room: usize) -> RegisterTold {
    let mut window = [7; 8];
    let mut places = [7; 8];
    let room = room.min(8);
    let mut told = numbers!(RegisterTold: outcome 9, line 9, class 9; NOTHING);
    page_register(
        text.as_bytes(),
        &mut window[..room],
        &mut places[..room],
        &mut told,
    );
    told
}

// The read of the first reader that ended at a place, of the write at a place.
fn earlier(ended: u64, value: u64, written: u64) -> ReadTold {
    numbers!(ReadTold: is_there 1, reader 0, ended ended, value value, written written)
}

#[test]
fn each_class_that_is_missed_is_reported_with_its_reason(rt: HostRuntime) {
    let text =
        "register 0 4\nW write 1\nR1 read\nR1 got 1\nR2 read\nR2 got 0\nR1 read\nR1 got 0\nR1 read\nR1 got 2\n\
        W wrote\nR1 read\nR1 got 0\n";
    let inverted = numbers!(MissTold: reason 4, first earlier(2, 1, 0); NO_MISS);
    let wanted = RegisterTold {
        counts: numbers!(RegisterCounts: writes 1, reads 5, overlapped 4, could_invert 3; NO_COUNTS),
        safe: numbers!(MissTold: line 13, reason 2, held 1, is_since 1, since 9; NO_MISS),
        regular: numbers!(MissTold: line 10, value 2, reason 3; NO_MISS),
        by_reader: numbers!(MissTold: line 8; inverted),
        atomic: numbers!(MissTold: line 6, reader 1; inverted),
        ..NOTHING
    };
    assert!(rt; register(text, 8) == wanted);
    assert!(rt; register(text, 2) == wanted);
}

#[test]
fn a_value_that_was_held_since_the_start_has_no_place(rt: HostRuntime) {
    let told = register("register 6\nR2 read\nR2 got 1\n", 8);
    let wanted = numbers!(MissTold: line 3, reader 1, value 1, reason 2, held 6; NO_MISS);
    assert!(rt; told.safe == wanted);
    let told = register("register 0 2\nR1 read\nR1 got 5\n", 8);
    assert!(rt; told.safe == numbers!(MissTold: line 3, value 5, reason 1; NO_MISS));
}

// A recording in which each read depends on the one before it: nine of them, and one more that none of them allows.
static LEANING: &str =
    "register 0 2\nW write 1\nR1 read\nR1 got 1\nR1 read\nW wrote\nW write 0\nR1 got 0\nR1 read\nW wrote\nW write 1\n\
    R1 got 1\nR1 read\nW wrote\nW write 0\nR1 got 0\nR1 read\nW wrote\nW write 1\nR1 got 1\nR1 read\nW wrote\nW write 0\nR1 got 0\n\
    R1 read\nW wrote\nW write 1\nR1 got 1\nR1 read\nW wrote\nW write 0\nR1 got 0\nR1 read\nW wrote\nW write 1\nR1 got 1\nR1 read\nR1 got 0\n";

#[test]
fn the_first_eight_reads_of_a_chain_are_reported(rt: HostRuntime) {
    let told = register(LEANING, 8);
    let wanted = numbers!(MissTold:
        line 38, reader 0, value 0, reason 4, held 0, is_since 0, since 0, first earlier(34, 1, 33),
        second earlier(30, 0, 29), third earlier(26, 1, 25), fourth earlier(22, 0, 21), fifth earlier(18, 1, 17),
        sixth earlier(14, 0, 13), seventh earlier(10, 1, 9), eighth earlier(6, 0, 5), is_cut 1);
    assert_eq!(rt; told.class, 2);
    assert!(rt; told.atomic == wanted);
    assert!(rt; told.by_reader == wanted);
}

// Texts, and the outcome, the number, the line, the class, and whether later operations are missing.
static OTHERS: [(&str, [u64; 5]); 9] = [
    (
        "cut register 0 2\nW write 1\nW wrote\nR1 read\nR1 got 1\n",
        [0, 0, 0, 4, 1],
    ),
    (
        "register 0 2\nW write 1\nR1 read\nR1 got 1\nR2 read\nR2 got 0\n",
        [0, 0, 0, 3, 0],
    ),
    (
        "register 0\nW write 1\nR1 read\nR1 got 5\n",
        [0, 0, 0, 1, 0],
    ),
    ("register 0 2\nW write 1\nW write 0\n", [1, 0, 3, 0, 0]),
    ("cut register 0 2\nR64 got 0\n", [1, 0, 2, 0, 1]),
    ("register 0 2\nW write 2\n", [2, 1, 2, 0, 0]),
    ("register 0 2\nR65 read\n", [2, 1, 2, 0, 0]),
    ("register 0 2", [2, 1, 1, 0, 0]),
    ("", [2, 1, 1, 0, 0]),
];

#[test]
fn other_texts_are_reported_by_their_numbers(rt: HostRuntime) {
    for (text, wanted) in OTHERS.iter() {
        let told = register(text, 8);
        let [outcome, number, line, class, cut] = *wanted;
        assert!(rt; (told.outcome, told.number, told.line) == (outcome, number, line));
        assert!(rt; (told.class, told.cut) == (class, cut));
    }
}

#[test]
fn no_room_for_writes_is_reported(rt: HostRuntime) {
    let text = "register 0 2\nR1 read\nW write 1\nW wrote\nW write 0\n";
    let no_room = numbers!(RegisterTold: outcome 2, number 3; NOTHING);
    assert!(rt; register(text, 0) == no_room);
    assert!(rt; register(text, 2) == no_room);
    assert_eq!(rt; register(text, 3).class, 4);
}
