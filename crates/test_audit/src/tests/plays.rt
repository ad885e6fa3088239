//! The lists that the audit of programs reads from plays.

use crate::tests::expects::{Expected, expect_found};
use ring_player::{Script, play};
use std::alloc::AllocGlobal;
use std::process::Abort;
use std::test::Fail;

// A play: the shape's fields, the items, the number of takes, whether the producer closes, the schedule and the oracle's
// answers; and the items put, the items taken and whether a take returned Closed.
struct Play<'a> {
    shape: &'a str,
    items: &'a str,
    takes: u64,
    close: bool,
    schedule: &'a str,
    oracle: &'a str,
    put: &'a [u64],
    taken: &'a [u64],
    told: bool,
}

// A play, with its parts named.
macro_rules! play {
    ($shape:expr, $items:literal, takes $takes:literal, close $close:literal, by $schedule:literal, $oracle:literal;
     put $put:expr, taken $taken:expr, told $told:literal) => {
        Play {
            shape: $shape,
            items: $items,
            takes: $takes,
            close: $close,
            schedule: $schedule,
            oracle: $oracle,
            put: &$put,
            taken: &$taken,
            told: $told,
        }
    };
}

const SMALL: &str = "\"capacity\":1,\"modulus\":3,\"width\":1";

// The history of the play is audited.
fn expect_play(rt: &(impl Abort + AllocGlobal), row: &Play) -> Result<(), Fail> {
    let text = format!(in rt.alloc();
        "{{{},\"items\":[{}],\"takes\":{},\"close\":{},\"schedule\":\"{}\",\"oracle\":\"{}\"}}",
        row.shape, row.items, row.takes, row.close, row.schedule, row.oracle
    )?;
    let script = Script::read(rt.alloc(), text.as_bytes())?;
    let report = play(rt.alloc(), &script)?;
    expect_found(
        rt,
        &script.shape(),
        report.history.as_slice(),
        Expected::Lawful(row.put, row.taken, row.told),
    )
}

fn expect_plays(rt: &(impl Abort + AllocGlobal), rows: &[Play]) -> Result<(), Fail> {
    for row in rows {
        expect_play(rt, row)?;
    }
    Ok(())
}

const PLAIN: [Play<'static>; 7] = [
    // plain path
    play!(SMALL, "1", takes 1, close false, by "P8C10", ""; put [1], taken [1], told false),
    // nothing
    play!(SMALL, "1", takes 1, close false, by "", ""; put [], taken [], told false),
    // count write open, then seen old
    play!(SMALL, "1", takes 2, close false, by "P7C14", "01"; put [1], taken [1], told false),
    // take's count write open
    play!(SMALL, "1,0,1", takes 2, close false, by "P8C9P12", "01"; put [1, 0], taken [], told false),
    // full at capacity one
    play!(SMALL, "1,1", takes 0, close false, by "P10", ""; put [1], taken [], told false),
    // wrap under an open count write
    play!(SMALL, "1,0,1", takes 3, close false, by "P8C10P10C12P9C14", "01";
        put [1, 0, 1], taken [1, 0, 1], told false),
    // five items
    play!(SMALL, "1,0,0,1,1", takes 5, close false, by "P8C10P10C12P10C6P8C10P8C10", "";
        put [1, 0, 0, 1, 1], taken [1, 0, 0, 1, 1], told false),
];

#[test]
fn the_worked_plays_have_their_lists(rt: HostRuntime) -> Result<(), Fail> {
    expect_plays(&rt, &PLAIN)
}

const OVERLAPS: [Play<'static>; 4] = [
    // a read spans a complete put and returns 1
    play!(SMALL, "1", takes 1, close false, by "C1P8C13", "1"; put [1], taken [1], told false),
    // it returns 0
    play!(SMALL, "1", takes 1, close false, by "C1P8C9", "0"; put [1], taken [1], told false),
    // largest shape
    play!("\"capacity\":1,\"modulus\":256,\"width\":64", "18446744073709551615", takes 1, close false, by "P134C136", "";
        put [18446744073709551615], taken [18446744073709551615], told false),
    // two cells
    play!("\"capacity\":2,\"modulus\":4,\"width\":2", "2,1,3", takes 1, close false, by "P22C14P12", "";
        put [2, 1, 3], taken [2], told false),
];

#[test]
fn overlapped_and_large_plays_have_their_lists(rt: HostRuntime) -> Result<(), Fail> {
    expect_plays(&rt, &OVERLAPS)
}

const CLOSED: [Play<'static>; 5] = [
    // the second scan finds the item
    play!(SMALL, "1", takes 2, close true, by "C2P10C22", ""; put [1], taken [1], told true),
    // closed while the close bit is being written
    play!(SMALL, "", takes 1, close true, by "P1C6", "1"; put [], taken [], told true),
    // the close bit flickers
    play!(SMALL, "1", takes 2, close true, by "C2P9C18", "10"; put [1], taken [1], told false),
    // cut before closed
    play!(SMALL, "", takes 1, close true, by "P1C5", "1"; put [], taken [], told false),
    // idle letters
    play!(SMALL, "1", takes 2, close true, by "C2P10C22P3C5", ""; put [1], taken [1], told true),
];

#[test]
fn plays_that_close_have_their_lists(rt: HostRuntime) -> Result<(), Fail> {
    expect_plays(&rt, &CLOSED)
}
