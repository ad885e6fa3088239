//! Plays over slots, and with too few of them.

use crate::tests::play_growths::{WRAP, WRAPPED, seen};
use crate::tests::play_scripts::{Asked, Numbers, ONE, Wanted, expect_report, script_of};
use bits_core::{Act, Bit, Event, Filled, Side, Store};
use ring_player::{PlayFault, Report, Script, World, play, play_first};
use std::alloc::{AllocGlobal, Allocator};
use std::process::Abort;

// What a slot holds before it is in use.
const UNUSED: Event = Event {
    side: Side::C,
    bit: Bit::X,
    act: Act::ReadBegin,
};

// Puts of two items.
const PAIRS: Numbers = [3, 6, 1, 2, 1];

const PAIRED: Asked<'static> = ("[1,0,1,1]", 0, false, "P20", "");

const PAIRS_PUT: Wanted<'static> = (20, &[1, 0, 1], &[], false, [1, 0, 0]);

// The play of this many letters in slots: the whole play starts with it, and equals it once there are no more letters.
fn expect_first<A: Allocator, E: Store<Event>, T: Store<u64>>(
    rt: &impl Abort,
    script: &Script<A>,
    letters: u64,
    whole: &Report<E, T>,
    wanted: &Wanted,
) {
    let (mut slots, mut items) = ([UNUSED; 70], [0; 4]);
    let (events, taken) = (Filled::new(&mut slots), Filled::new(&mut items));
    let report = play_first(script.as_ref(), letters, events, taken).expect(
        rt,
        "slots for the play",
    );
    assert!(rt;
        whole
            .history
            .as_slice()
            .starts_with(report.history.as_slice())
    );
    assert!(rt; whole.put.starts_with(report.put));
    assert!(rt; whole.taken.as_slice().starts_with(report.taken.as_slice()));
    if script.len() <= letters {
        expect_report(rt, "a play in slots", script, &report, wanted);
    }
}

// The play of the script, and that in slots, of any number of letters.
fn expect_play(rt: &(impl Abort + AllocGlobal), shape: &Numbers, asked: &Asked, wanted: &Wanted) {
    let script = script_of(rt, rt.alloc(), shape, asked);
    let whole = play(rt.alloc(), &script).expect(rt, "memory for the play");
    expect_report(rt, "a play", &script, &whole, wanted);
    for letters in 0..=script.len().saturating_add(1) {
        expect_first(rt, &script, letters, &whole, wanted);
    }
}

// Makes the steps of the schedule until one is refused, which leaves the world unchanged.
fn expect_steps<A: Allocator, E: Store<Event>, T: Store<u64>>(
    rt: &impl Abort,
    script: &Script<A>,
    world: &mut World<E, T>,
) {
    for place in 0..script.len() {
        if let Some(side) = script.letter(place) {
            let before = seen(world);
            if let Err(fault) = world.step(side) {
                assert!(rt; fault == PlayFault::OutOfMemory);
                assert!(rt; seen(world) == before);
                break;
            }
        }
    }
}

// The wrap, if the history and the items taken have this many slots. Returns how many steps were made.
fn steps_made(rt: &(impl Abort + AllocGlobal), events: usize, taken: usize) -> usize {
    let script = script_of(rt, rt.alloc(), &ONE, &WRAP);
    let (mut slots, mut items) = ([UNUSED; 63], [0; 3]);
    let history = Filled::new(&mut slots[..events.min(63)]);
    let taken = Filled::new(&mut items[..taken.min(3)]);
    let mut world = World::over(script.as_ref(), history, taken);
    expect_steps(rt, &script, &mut world);
    world.history().len()
}

#[test]
fn a_play_in_slots_is_the_play(rt: HostRuntime) {
    expect_play(&rt, &ONE, &WRAP, &WRAPPED);
    expect_play(&rt, &PAIRS, &PAIRED, &PAIRS_PUT);
}

#[test]
fn a_step_with_no_slot_left_changes_nothing(rt: HostRuntime) {
    assert!(rt; steps_made(&rt, 63, 3) == 63);
    assert!(rt; steps_made(&rt, 62, 3) == 62);
    // The last take has its item with its last event, the last of the play.
    assert!(rt; steps_made(&rt, 63, 2) < 63);
    assert!(rt; steps_made(&rt, 63, 0) < 18);
}
