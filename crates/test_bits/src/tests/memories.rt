//! Memories of safe bits: oracles, overlapped reads, refused growths.

use bits_core::{
    Access, Always, Bit, Event, Flip, Memory, MemoryFault, Oracle, Shape, Side, Store, Tape,
    Verdict, audit_bits,
};
use refusing::Refusing;
use std::alloc::AllocGlobal;
use std::process::Abort;
use trace_text::{TraceFault, read_trace, write_trace};

// What a side should do: end the access that it has open, or begin one of the bit, which writes the
// value if the side is the bit's writer.
pub(crate) type Choice = (Side, Bit, bool);

// What a side should do, the answer if that ends a read, and the access that it then has open.
type Step = (Side, bool, Option<bool>, Option<Access>);

const S0: Bit = Bit::S(0);

// The choice, and the answer if it ends a read.
pub fn make<S: Store<Event>, O: Oracle>(
    memory: &mut Memory<S>,
    oracle: &mut O,
    choice: Choice,
) -> Result<Option<bool>, MemoryFault> {
    let (side, bit, value) = choice;
    let made = match memory.pending(side) {
        Some(Access::Read(_)) => return Ok(Some(memory.end_read(side, oracle)?)),
        Some(Access::Write(_, _)) => memory.end_write(side),
        None if !memory.shape().has(bit) => Ok(()),
        None if side == bit.reader() => memory.begin_read(side, bit),
        None if side == bit.writer() => memory.begin_write(side, bit, value),
        None => Ok(()),
    };
    made?;
    Ok(None)
}

// The same, if there is memory for the event. (A `?` is expensive to prove, so if memory is lacking the test ends here.)
pub fn expect_made<S: Store<Event>, O: Oracle>(
    rt: &impl Abort,
    memory: &mut Memory<S>,
    oracle: &mut O,
    choice: Choice,
) -> Option<bool> {
    make(memory, oracle, choice).expect(rt, "memory for the event")
}

// This many events and flickers; the history is lawful, and the same after it was written and read again.
fn expect_history<S: Store<Event>>(
    rt: &(impl Abort + AllocGlobal),
    memory: &Memory<S>,
    counts: (usize, u64),
) {
    let shape = memory.shape();
    let events = memory.events();
    assert_eq!(rt; (events.len(), memory.flickers()), counts);
    assert_eq!(rt; audit_bits(&shape, events), Verdict::Lawful);
    let text = write_trace(rt.alloc(), &shape, events).expect(rt, "memory for the text");
    let read = read_trace(rt.alloc(), text.as_bytes());
    let (shape_again, events_again) = read.expect(rt, "a trace");
    assert!(rt; shape_again == shape);
    assert!(rt; events_again.as_slice() == events);
}

// The text of the history that a memory returns.
fn expect_text<S: Store<Event>>(rt: &(impl Abort + AllocGlobal), memory: Memory<S>, wanted: &str) {
    let shape = memory.shape();
    let events = memory.into_events();
    let text = write_trace(rt.alloc(), &shape, events.as_slice());
    assert_eq!(rt; text.expect(rt, "memory for the text").as_str(), wanted);
}

fn expect_answers<O: Oracle>(rt: &impl Abort, oracle: &mut O, answers: &[bool]) {
    for answer in answers {
        assert_eq!(rt; oracle.answer(), *answer);
    }
}

#[test]
fn oracles_answer_in_turn(rt: HostRuntime) {
    expect_answers(&rt, &mut Always(true), &[true, true, true]);
    expect_answers(&rt, &mut Always(false), &[false, false, false]);
    expect_answers(&rt, &mut Flip::new(), &[false, true, false, true]);
    expect_answers(&rt, &mut Flip::default(), &[false, true, false, true]);
    let taped = [true, true, false, true, true, false, true];
    expect_answers(&rt, &mut Tape::new(&[true, true, false]), &taped);
    expect_answers(&rt, &mut Tape::new(&[]), &[false, false, false]);
}

// The steps on s0 over a new memory of the smallest shape, where the tape answers overlapped reads: how
// many of the steps ask it, and the resulting text.
fn expect_steps(
    rt: &(impl Abort + AllocGlobal),
    tape: &[bool],
    steps: &[Step],
    flickers: u64,
    text: &str,
) {
    let shape = Shape::new(1, 3, 1).expect(rt, "a shape");
    let mut memory = Memory::new(rt.alloc(), shape);
    let mut oracle = Tape::new(tape);
    for (side, value, answer, open) in steps {
        let made = expect_made(rt, &mut memory, &mut oracle, (*side, S0, *value));
        assert_eq!(rt; (made, memory.pending(*side)), (*answer, *open));
    }
    expect_history(rt, &memory, (steps.len(), flickers));
    expect_text(rt, memory, text);
}

const READ_S0: Option<Access> = Some(Access::Read(S0));

const WRITE_S0: Option<Access> = Some(Access::Write(S0, false));

// P begins its write, C a read; and P ends its write, C its read with an answer.
const WRITES: Step = (Side::P, false, None, WRITE_S0);

const READS: Step = (Side::C, false, None, READ_S0);

const WROTE: Step = (Side::P, false, None, None);

const GOT_0: Step = (Side::C, false, Some(false), None);

const GOT_1: Step = (Side::C, false, Some(true), None);

// Two reads within a write, and one after it, which does not ask the tape.
#[test]
fn overlapped_reads_of_one_bit_ask_the_oracle(rt: HostRuntime) {
    expect_steps(
        &rt,
        &[true, false, true],
        &[WRITES, READS, GOT_1, READS, GOT_0, WROTE, READS, GOT_0],
        2,
        "shape 1 3 1\nP write s0 0\nC read s0\nC got s0 1\nC read s0\nC got s0 0\nP wrote s0\nC read s0\nC got s0 0\n",
    );
}

// A read, a whole write within it, and a read after both.
#[test]
fn a_read_spanned_by_a_write_flickers(rt: HostRuntime) {
    expect_steps(
        &rt,
        &[true],
        &[READS, WRITES, WROTE, GOT_1, READS, GOT_0],
        1,
        "shape 1 3 1\nC read s0\nP write s0 0\nP wrote s0\nC got s0 1\nC read s0\nC got s0 0\n",
    );
}

// A write that begins during a read of the bit marks only that read: not the next one after the write.
#[test]
fn a_read_after_an_overlapped_one_does_not_ask(rt: HostRuntime) {
    expect_steps(
        &rt,
        &[false, true],
        &[READS, WRITES, GOT_0, WROTE, READS, GOT_0],
        1,
        "shape 1 3 1\nC read s0\nP write s0 0\nC got s0 0\nP wrote s0\nC read s0\nC got s0 0\n",
    );
}

pub const CHOICE_COUNT: usize = 18;

// One event after the other. The events of a history grow at some of them.
pub static CHOICES: [Choice; CHOICE_COUNT] = [
    (Side::P, S0, false),
    (Side::C, S0, false),
    (Side::C, S0, false),
    (Side::C, S0, false),
    (Side::C, S0, false),
    (Side::P, S0, false),
    (Side::C, S0, false),
    (Side::C, S0, false),
    (Side::C, S0, false),
    (Side::C, S0, false),
    (Side::P, Bit::X, true),
    (Side::P, Bit::X, true),
    (Side::P, Bit::S(1), true),
    (Side::P, Bit::S(1), true),
    (Side::C, Bit::R(1), true),
    (Side::P, Bit::Cell(0, 0), true),
    (Side::P, Bit::Cell(0, 0), true),
    (Side::C, Bit::R(1), true),
];

pub fn expect_true(rt: &impl Abort, holds: bool) {
    assert!(rt; holds);
}

// The memory and its oracle equal the others.
pub fn expect_same<S: Store<Event>, T: Store<Event>>(
    rt: &impl Abort,
    memory: &Memory<S>,
    other: &Memory<T>,
    oracles: (Flip, Flip),
) {
    assert!(rt; memory.events() == other.events());
    assert_eq!(rt; memory.flickers(), other.flickers());
    assert_eq!(rt; memory.pending(Side::P), other.pending(Side::P));
    assert_eq!(rt; memory.pending(Side::C), other.pending(Side::C));
    assert!(rt; oracles.0 == oracles.1);
}

// Which of the four calls the choice makes.
fn call_of<S: Store<Event>>(memory: &Memory<S>, choice: Choice) -> usize {
    match memory.pending(choice.0) {
        Some(Access::Read(_)) => 0,
        Some(Access::Write(_, _)) => 1,
        None if choice.0 == choice.1.reader() => 2,
        None => 3,
    }
}

// The choices over a memory whose allocator refuses one growth, next to one that is never refused. Returns
// which of the four calls was refused, if one was: it changed nothing, and is made once more.
fn refused_call(rt: &(impl Abort + AllocGlobal), allocations: u64) -> Option<usize> {
    let shape = Shape::new(1, 3, 1).expect(rt, "a shape");
    let alloc = Refusing::after(rt.alloc(), allocations);
    let mut memory = Memory::new(&alloc, shape);
    let mut oracle = Flip::new();
    let mut other = Memory::new(rt.alloc(), shape);
    let mut other_oracle = Flip::new();
    let mut refused = None;
    for choice in CHOICES.iter() {
        if make(&mut memory, &mut oracle, *choice).is_err() {
            expect_true(rt, alloc.has_refused());
            expect_same(rt, &memory, &other, (oracle, other_oracle));
            refused = Some(call_of(&memory, *choice));
            expect_made(rt, &mut memory, &mut oracle, *choice);
        }
        expect_made(rt, &mut other, &mut other_oracle, *choice);
        expect_same(rt, &memory, &other, (oracle, other_oracle));
    }
    expect_true(rt, memory.events().len() == CHOICES.len());
    expect_true(rt, alloc.has_refused() == refused.is_some());
    refused
}

#[test]
fn each_refused_growth_changes_nothing(rt: HostRuntime) {
    let mut seen = [false; 4];
    for allocations in 0..20 {
        match refused_call(&rt, allocations) {
            Some(call) if call < 4 => seen[call] = true,
            _ => break,
        }
    }
    // Each of the two starts and the two ends was refused once.
    expect_true(&rt, seen == [true; 4]);
}

// This many choices, each event's number derived from the one before, over all kinds of bits and both sides.
fn make_many<S: Store<Event>>(rt: &impl Abort, memory: &mut Memory<S>, events: u64) {
    let mut oracle = Flip::new();
    let bits = [
        Bit::S(0),
        Bit::S(3),
        Bit::R(0),
        Bit::R(2),
        Bit::X,
        Bit::Cell(1, 1),
        Bit::Cell(0, 1),
    ];
    let mut number: u64 = 1;
    for _ in 0..events {
        number = number.wrapping_mul(75) % 65_537;
        let side = if number % 2 == 0 { Side::P } else { Side::C };
        let bit = bits[(number / 2 % 7) as usize];
        expect_made(rt, memory, &mut oracle, (side, bit, number % 3 == 0));
    }
}

// A body that gives up after 1,000 or after 10,000 events would satisfy its contract.
#[test]
fn twenty_thousand_events_are_made_written_and_read_again(rt: HostRuntime) {
    let shape = Shape::with_batch(2, 5, 2, 2).expect(&rt, "a shape");
    let mut memory = Memory::new(rt.alloc(), shape);
    make_many(&rt, &mut memory, 20_000);
    let flickers = memory.flickers();
    expect_true(&rt, 100 < flickers);
    expect_history(&rt, &memory, (20_000, flickers));
}

// Whether a growth was refused while the choices' history was written and read again, and then the fault.
fn expect_round_trip_refused(rt: &(impl Abort + AllocGlobal), allocations: u64) -> bool {
    let shape = Shape::new(1, 3, 1).expect(rt, "a shape");
    let mut memory = Memory::new(rt.alloc(), shape);
    let mut oracle = Flip::new();
    for choice in CHOICES.iter() {
        expect_made(rt, &mut memory, &mut oracle, *choice);
    }
    let alloc = Refusing::after(rt.alloc(), allocations);
    let shape = memory.shape();
    let fault = match write_trace(&alloc, &shape, memory.events()) {
        Ok(text) => read_trace(&alloc, text.as_bytes()).err(),
        Err(fault) => Some(fault),
    };
    let wanted = if alloc.has_refused() {
        Some(TraceFault::OutOfMemory)
    } else {
        None
    };
    assert_eq!(rt; fault, wanted);
    alloc.has_refused()
}

#[test]
fn writing_and_reading_refuse_at_each_growth(rt: HostRuntime) {
    let mut refusals: u64 = 0;
    for allocations in 0..60 {
        if !expect_round_trip_refused(&rt, allocations) {
            break;
        }
        refusals = allocations;
    }
    expect_true(&rt, 3 < refusals && refusals < 50);
}
