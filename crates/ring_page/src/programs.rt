//! The audit of programs, as numbers: whether a trace is one of a ring, and what was due if it is not.
ghost use Rattle.std.specs.Prelude.{◌≡◌, ◌↔◌, ◌<◌, IsTrue, length};
ghost use Rattle.ring_audit.specs.Dues.{IsDueOf};
ghost use Rattle.ring_page.specs.Programs.{BreakIsWithin, TellsFound, TellsPrograms, WereDue, broken, no_due, none_due, of_programs, told_due, unjudged};

use crate::marks::{act_number, bit_number, digit_of, index_of, row_of, value_of};
use bits_core::{Act, Bit, Event, Kind, Shape, Side};
use ring_audit::{Dues, Found, audit_into, due_behind, dues_of_both};

/// An event that was due; all is 0 if there is none.
#[repr(C)]
#[derive(Clone, Copy, Default, PartialEq, Eq, Debug)]
pub struct Due {
    /// 1 if there is one.
    pub is_due: u64,
    /// As in a `Mark`.
    pub row: u64,
    pub index: u64,
    pub digit: u64,
    pub act: u64,
    pub value: u64,
}

/// The result of the audit of programs, as numbers.
#[repr(C)]
#[derive(Clone, Copy, Default, PartialEq, Eq, Debug)]
pub struct Judged {
    /// 0 the history is lawful and both sides follow their programs, 1 they do not, 2 no result.
    pub outcome: u64,
    /// The number of the kind of the fault.
    pub number: u64,
    /// The place of the event at fault, from 0.
    pub place: u64,
    /// How many items were put, and how many taken.
    pub put: u64,
    pub taken: u64,
    /// 1 if a take returned Closed.
    pub told: u64,
    /// 1 if the producer may close next: it is between two calls.
    pub may_close: u64,
    /// 1 if the consumer may begin to scan next: it is between two calls, or has just read the close bit as 1.
    pub may_scan: u64,
    /// What was due, if the event at fault is not of its side's program: the events of its side that were due.
    pub first: Due,
    pub second: Due,
    pub third: Due,
}

// The event as numbers.
fn told_due(event: Option<Event>) -> Due
    ensures { result ≡ told_due event }
{
    match event {
        None => Due::default(),
        Some(event) => Due {
            is_due: 1,
            row: u64::from(row_of(event.bit)),
            index: u64::from(index_of(event.bit)),
            digit: u64::from(digit_of(event.bit)),
            act: u64::from(act_number(event.act)),
            value: bit_number(value_of(event.act)),
        },
    }
}

fn is_same(due: Event, event: Event) -> bool
    ensures { IsTrue result ↔ (due ≡ event) }
{
    due == event
}

fn is_event(due: Option<Event>, event: Event) -> bool
    ensures { IsTrue result ↔ (due ≡ Some event) }
{
    match due {
        None => false,
        Some(due) => is_same(due, event),
    }
}

fn is_due(dues: Dues, event: Event) -> bool
    ensures { IsTrue result ↔ IsDueOf dues event }
{
    if is_event(dues.first, event) {
        return true;
    }
    if is_event(dues.second, event) {
        return true;
    }
    is_event(dues.third, event)
}

// What was due at the place of a fault of this kind.
fn dues_at(shape: &Shape, events: &[Event], place: usize, kind: Kind) -> Dues
    requires { place < length events.now }
    ensures { WereDue kind shape.now events.now place result }
{
    match kind {
        Kind::NotProgram => due_behind(shape, &events[..place], events[place].side),
        Kind::WrongSide | Kind::OutOfTurn | Kind::NotPermitted => Dues {
            first: None,
            second: None,
            third: None,
        },
    }
}

fn told_break(kind: Kind, place: usize, dues: Dues) -> Judged
    ensures { result ≡ broken kind place dues }
{
    Judged {
        outcome: 1,
        number: u64::from(kind.number()),
        place: place as u64,
        first: told_due(dues.first),
        second: told_due(dues.second),
        third: told_due(dues.third),
        ..Judged::default()
    }
}

fn told_programs(put: usize, taken: usize, told: bool, may_close: bool, may_scan: bool) -> Judged
    ensures { result ≡ of_programs put taken told may_close may_scan }
{
    Judged {
        put: put as u64,
        taken: taken as u64,
        told: bit_number(told),
        may_close: bit_number(may_close),
        may_scan: bit_number(may_scan),
        ..Judged::default()
    }
}

/// No result.
pub fn unjudged() -> Judged
    ensures { result ≡ unjudged }
{
    Judged {
        outcome: 2,
        ..Judged::default()
    }
}

// A finding as numbers.
fn tell_found(shape: &Shape, events: &[Event], found: Found) -> Judged
    requires { BreakIsWithin (length events.now) found }
    ensures { TellsFound shape.now events.now found result }
{
    match found {
        Found::Lawful { put, taken, told } => {
            let closes = Event {
                side: Side::P,
                bit: Bit::X,
                act: Act::WriteBegin(true),
            };
            let scans = Event {
                side: Side::C,
                bit: Bit::S(0),
                act: Act::ReadBegin,
            };
            let (puts, takes) = dues_of_both(shape, events);
            let may_close = is_due(puts, closes);
            let may_scan = is_due(takes, scans);
            told_programs(put, taken, told, may_close, may_scan)
        }
        Found::Fault { place, kind } => {
            let dues = dues_at(shape, events, place, kind);
            told_break(kind, place, dues)
        }
    }
}

/// Returns the finding of the audit of programs on the events, with the items put and taken in the first slots of two
/// slices, as `audit_into` does; or no result, if these are too short.
pub fn tell_programs(shape: &Shape, events: &[Event], put: &mut [u64], taken: &mut [u64]) -> Judged
    ensures { TellsPrograms shape.now events.now put.new taken.new result }
{
    match audit_into(shape, events, put, taken) {
        Ok(found) => tell_found(shape, events, found),
        Err(_) => unjudged(),
    }
}
