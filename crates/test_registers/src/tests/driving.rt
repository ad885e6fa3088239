//! One interface for all machines, and what tests expect of them.
ghost use Rattle.std.specs.Prelude.{◌≡◌};

use bits_core::{Access, Bit, Event, Memory, Oracle, Shape, Side, Store, Verdict, audit_bits};
use register_core::{BitWriter, UnaryScan, UnaryWriter, WordReader, WordWriter};
use ring_steps::{Step, next_event};
use std::process::Abort;

/// A machine of one side: the access that is due, and its answer.
pub(crate) trait Machine {
    fn due(&self) -> Option<Access>;

    fn answered(&mut self, answer: bool);
}

// Feeds a machine the answer, if it has an access due.
macro_rules! feed_due {
    ($machine:expr, $answer:expr) => {
        if $machine.next().is_some() {
            $machine.feed($answer);
        }
    };
}

impl Machine for WordWriter {
    fn due(&self) -> Option<Access> {
        self.next()
    }

    fn answered(&mut self, answer: bool) {
        feed_due!(self, answer)
    }
}

impl Machine for WordReader {
    fn due(&self) -> Option<Access> {
        self.next()
    }

    fn answered(&mut self, answer: bool) {
        feed_due!(self, answer)
    }
}

impl Machine for UnaryScan {
    fn due(&self) -> Option<Access> {
        self.next()
    }

    // A 0 where a 1 is expected is not fed, so the scan would never end.
    fn answered(&mut self, answer: bool) {
        if self.next().is_some() && (answer || !self.expects_one()) {
            self.feed(answer);
        }
    }
}

/// A writer of a side's count, with the modulus that its values stay below.
#[derive(Drop)]
pub(crate) struct Count {
    writer: UnaryWriter,
    modulus: u64,
    ghost of_modulus: { writer.modulus ≡ modulus },
}

impl Count {
    pub fn new(shape: &Shape, side: Side) -> Count {
        Count {
            writer: UnaryWriter::new(shape, side),
            modulus: shape.modulus(),
        }
    }

    /// Begins a write of the value, unless one is under way.
    pub fn write(&mut self, value: u64) {
        if self.writer.next().is_none() && value < self.modulus {
            self.writer.write(value);
        }
    }
}

/// A writer of one bit.
#[derive(Drop)]
pub(crate) struct Flag {
    writer: BitWriter,
}

impl Flag {
    pub fn new(bit: Bit, value: bool) -> Flag {
        Flag {
            writer: BitWriter::new(bit, value),
        }
    }

    /// Begins a write of the value, unless one is under way.
    pub fn write(&mut self, value: bool) {
        if self.writer.next().is_none() {
            self.writer.write(value);
        }
    }
}

impl Machine for Count {
    fn due(&self) -> Option<Access> {
        self.writer.next()
    }

    fn answered(&mut self, answer: bool) {
        feed_due!(self.writer, answer)
    }
}

impl Machine for Flag {
    fn due(&self) -> Option<Access> {
        self.writer.next()
    }

    fn answered(&mut self, answer: bool) {
        feed_due!(self.writer, answer)
    }
}

/// The side's next event: the end of the access that it has open, or the start of the one that is due.
/// True if there was one. If memory runs out the test fails.
pub fn step<S: Store<Event>, M: Machine, O: Oracle>(
    rt: &impl Abort,
    memory: &mut Memory<S>,
    side: Side,
    machine: &mut M,
    oracle: &mut O,
) -> bool {
    let step = next_event(memory, side, machine.due(), oracle);
    match step.expect(rt, "memory for the event") {
        Step::Nothing => false,
        Step::Begin => true,
        Step::End(answer) => {
            machine.answered(answer);
            true
        }
    }
}

/// This many of these steps, or until there is none.
pub fn steps<S: Store<Event>, M: Machine, O: Oracle>(
    rt: &impl Abort,
    memory: &mut Memory<S>,
    side: Side,
    machine: &mut M,
    oracle: &mut O,
    most: u64,
) {
    for _ in 0..most {
        if !step(rt, memory, side, machine, oracle) {
            break;
        }
    }
}

/// This many events and flickers, and a lawful history.
pub fn expect_lawful<S: Store<Event>>(rt: &impl Abort, memory: &Memory<S>, counts: (usize, u64)) {
    assert!(rt; (memory.events().len(), memory.flickers()) == counts);
    assert!(rt; audit_bits(&memory.shape(), memory.events()) == Verdict::Lawful);
}

/// The access that is due.
pub fn expect_due(rt: &impl Abort, due: Option<Access>, wanted: Option<Access>) {
    assert_eq!(rt; due, wanted);
}

/// The access is due, and is made with this answer.
pub fn expect_access(rt: &impl Abort, machine: &mut impl Machine, access: Access, answer: bool) {
    expect_due(rt, machine.due(), Some(access));
    machine.answered(answer);
}

/// The value that was read.
pub fn expect_value(rt: &impl Abort, found: Option<u64>, wanted: Option<u64>) {
    assert_eq!(rt; found, wanted);
}

pub fn expect_true(rt: &impl Abort, holds: bool) {
    assert!(rt; holds);
}
