//! The class of each history of a table, and refused growths.

use queue_calls::{Fifo, Slots};
use refusing::Refusing;
use register_calls::{
    Class, ReaderState, Register, RegisterAuditor, RegisterEvent, RegisterFault, first_miss,
};
use std::alloc::AllocGlobal;
use std::process::Abort;
use std::test::Fail;

// A history of a register, its strongest class, and the places of the events at which it stops being safe, regular, atomic by
// reader and atomic.
struct Case {
    name: &'static str,
    register: Register,
    class: Option<Class>,
    misses: [Option<usize>; 4],
    events: &'static [RegisterEvent],
}

// A name; the first value, and the bound of the values, if there is one; the class; the four places; and the events.
macro_rules! case {
    ($name:literal, $first:literal $($values:literal)?, $class:expr, $misses:expr; $($event:ident $(($($number:literal),*))?),*) => {
        Case {
            name: $name,
            register: Register { first: $first, values: bound!($($values)?) },
            class: $class,
            misses: $misses,
            events: &[$(RegisterEvent::$event $(($($number),*))?),*],
        }
    };
}

macro_rules! bound {
    () => {
        None
    };
    ($values:literal) => {
        Some($values)
    };
}

const NONE: [Option<usize>; 4] = [None, None, None, None];

const ATOMIC: Option<Class> = Some(Class::Atomic);

static CASES: [Case; 15] = [
    case!("no event", 0, ATOMIC, NONE;),
    case!("a read after a write", 0, ATOMIC, NONE; WriteBegins(1), WriteEnds, ReadBegins(0), ReadEnds(0, 1)),
    case!("a read of the first value", 7, ATOMIC, NONE; ReadBegins(3), ReadEnds(3, 7)),
    case!("an old value, and no write overlaps", 0, None, [Some(3); 4]; WriteBegins(1), WriteEnds, ReadBegins(0), ReadEnds(0, 0)),
    case!("any value while a write overlaps", 0, Some(Class::Safe), [None, Some(2), Some(2), Some(2)];
        WriteBegins(1), ReadBegins(0), ReadEnds(0, 7)),
    case!("a number that is no value", 0 2, None, [Some(2); 4]; WriteBegins(1), ReadBegins(0), ReadEnds(0, 2)),
    case!("new and then old by one reader", 0, Some(Class::Regular), [None, None, Some(4), Some(4)];
        WriteBegins(1), ReadBegins(0), ReadEnds(0, 1), ReadBegins(0), ReadEnds(0, 0), WriteEnds),
    case!("new and then old by two readers", 0, Some(Class::AtomicByReader), [None, None, None, Some(4)];
        WriteBegins(1), ReadBegins(0), ReadEnds(0, 1), ReadBegins(1), ReadEnds(1, 0)),
    case!("new and old by two reads that overlap", 0, ATOMIC, NONE;
        WriteBegins(1), ReadBegins(0), ReadBegins(1), ReadEnds(0, 1), ReadEnds(1, 0)),
    case!("the value of a write that ended long ago", 0, ATOMIC, NONE;
        ReadBegins(0), WriteBegins(1), WriteEnds, WriteBegins(2), WriteEnds, ReadBegins(1), ReadEnds(1, 2), ReadEnds(0, 0)),
    case!("a value written twice", 0, ATOMIC, NONE;
        ReadBegins(0), WriteBegins(1), WriteEnds, WriteBegins(0), WriteEnds, ReadEnds(0, 0), ReadBegins(1), ReadEnds(1, 0)),
    case!("only the later write of the value is left", 0, Some(Class::AtomicByReader), [None, None, None, Some(10)];
        WriteBegins(1), WriteEnds, WriteBegins(0), ReadBegins(0), ReadEnds(0, 0), WriteEnds, WriteBegins(2), ReadBegins(1), ReadEnds(1, 2),
        ReadBegins(0), ReadEnds(0, 0)),
    case!("three classes are missed, one after the other", 0, None, [Some(9), Some(6), Some(4), Some(4)];
        WriteBegins(1), ReadBegins(0), ReadEnds(0, 1), ReadBegins(0), ReadEnds(0, 0), ReadBegins(0), ReadEnds(0, 5), WriteEnds,
        ReadBegins(0), ReadEnds(0, 0)),
    case!("what is under way at the end", 0, ATOMIC, NONE; ReadBegins(0), WriteBegins(1), ReadBegins(1)),
    case!("a write of the same value", 4, Some(Class::Safe), [None, Some(2), Some(2), Some(2)]; WriteBegins(4), ReadBegins(0), ReadEnds(0, 3)),
];

// The classes, from the weakest to the strongest.
const CLASSES: [Class; 4] = [
    Class::Safe,
    Class::Regular,
    Class::AtomicByReader,
    Class::Atomic,
];

fn is_judged<W: Fifo<u64>, R: Fifo<ReaderState>>(
    auditor: &mut RegisterAuditor<W, R>,
    case: &Case,
) -> bool {
    let mut class = ATOMIC;
    for event in case.events {
        match auditor.feed(*event) {
            Ok(strongest) => class = strongest,
            Err(_) => return false,
        }
    }
    class == case.class && auditor.class() == case.class
}

fn is_missed(rt: &HostRuntime, case: &Case) -> bool {
    for (place, class) in CLASSES.iter().enumerate() {
        if !case.register.has_value(case.register.first) {
            return false;
        }
        if first_miss(rt.alloc(), case.register, *class, case.events) != Ok(case.misses[place]) {
            return false;
        }
    }
    true
}

fn is_judged_in_memory(rt: &HostRuntime, case: &Case) -> bool {
    if !case.register.has_value(case.register.first) {
        return false;
    }
    match RegisterAuditor::new(rt.alloc(), case.register) {
        Ok(auditor) => {
            let mut auditor = auditor;
            is_judged(&mut auditor, case)
        }
        Err(_) => false,
    }
}

fn is_judged_in_slots(case: &Case) -> bool {
    let mut writes = [9; 3];
    let mut readers = [ReaderState::new(); 4];
    if !case.register.has_value(case.register.first) {
        return false;
    }
    match RegisterAuditor::with(
        Slots::new(&mut writes),
        Slots::new(&mut readers),
        case.register,
    ) {
        Ok(auditor) => {
            let mut auditor = auditor;
            is_judged(&mut auditor, case)
        }
        Err(_) => false,
    }
}

fn expect(rt: &impl Abort, is_told: bool, name: &str) {
    assert!(rt; is_told, "{name}");
}

#[test]
fn each_history_of_a_register_is_judged(rt: HostRuntime) -> Result<(), Fail> {
    for case in CASES.iter() {
        expect(&rt, is_judged_in_memory(&rt, case), case.name);
        expect(&rt, is_judged_in_slots(case), case.name);
        expect(&rt, is_missed(&rt, case), case.name);
    }
    Ok(())
}

const BIT: Register = Register {
    first: 0,
    values: Some(2),
};

// Events of a bit, over two slots for writes and one for a reader, and the result of each: a refused one leaves the auditor unchanged.
const REFUSED: [(RegisterEvent, Result<Option<Class>, RegisterFault>); 14] = [
    (RegisterEvent::WriteEnds, Err(RegisterFault::OutOfTurn)),
    (RegisterEvent::ReadEnds(0, 0), Err(RegisterFault::OutOfTurn)),
    (
        RegisterEvent::ReadBegins(1),
        Err(RegisterFault::OutOfMemory),
    ),
    (RegisterEvent::ReadBegins(0), Ok(ATOMIC)),
    (RegisterEvent::ReadBegins(0), Err(RegisterFault::OutOfTurn)),
    (RegisterEvent::WriteBegins(2), Err(RegisterFault::NoValue)),
    (RegisterEvent::WriteBegins(1), Ok(ATOMIC)),
    (RegisterEvent::WriteBegins(2), Err(RegisterFault::NoValue)),
    (RegisterEvent::WriteBegins(0), Err(RegisterFault::OutOfTurn)),
    (RegisterEvent::WriteEnds, Ok(ATOMIC)),
    (
        RegisterEvent::WriteBegins(0),
        Err(RegisterFault::OutOfMemory),
    ),
    (RegisterEvent::ReadEnds(0, 1), Ok(ATOMIC)),
    (RegisterEvent::WriteBegins(0), Ok(ATOMIC)),
    (RegisterEvent::WriteEnds, Ok(ATOMIC)),
];

#[test]
fn what_is_refused_leaves_the_register(rt: HostRuntime) -> Result<(), Fail> {
    let mut writes = [9; 2];
    let mut readers = [ReaderState::new()];
    match RegisterAuditor::with(Slots::new(&mut writes), Slots::new(&mut readers), BIT) {
        Ok(auditor) => {
            let mut auditor = auditor;
            for (event, answer) in REFUSED {
                assert!(rt; auditor.feed(event) == answer);
            }
        }
        Err(_) => assert!(rt; false),
    }
    Ok(())
}

// A write and two readers, fed with an allocator that refuses one growth: what is refused is fed again.
fn goes_on_after_a_refusal(rt: &HostRuntime, allocations: u64) -> Option<bool> {
    let alloc = Refusing::after(rt.alloc(), allocations);
    let Ok(auditor) = RegisterAuditor::new(&alloc, BIT) else {
        return Some(alloc.has_refused());
    };
    let mut auditor = auditor;
    for event in [
        RegisterEvent::WriteBegins(1),
        RegisterEvent::ReadBegins(1),
        RegisterEvent::ReadEnds(1, 1),
        RegisterEvent::ReadBegins(0),
        RegisterEvent::ReadEnds(0, 0),
    ] {
        let answer = match auditor.feed(event) {
            Err(RegisterFault::OutOfMemory) => auditor.feed(event),
            other => other,
        };
        if answer.is_err() {
            return None;
        }
    }
    if auditor.class() == Some(Class::AtomicByReader) {
        Some(alloc.has_refused())
    } else {
        None
    }
}

#[test]
fn each_growth_of_a_register_is_refused(rt: HostRuntime) -> Result<(), Fail> {
    for allocations in 0..4 {
        assert!(rt; goes_on_after_a_refusal(&rt, allocations).is_some());
    }
    assert!(rt; goes_on_after_a_refusal(&rt, 0) == Some(true));
    assert!(rt; goes_on_after_a_refusal(&rt, 1) == Some(true));
    assert!(rt; goes_on_after_a_refusal(&rt, 9) == Some(false));
    Ok(())
}
