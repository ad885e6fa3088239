//! What contradicts a read of a register.

use register_calls::{
    Chain, Class, EarlierRead, MissReason, ReaderState, Register, RegisterEvent, RegisterWitness,
};
use std::alloc::{AllocGlobal, Allocator};
use std::collections::VecDeque;
use std::process::Abort;
use std::test::Fail;

type InMemory<A> = RegisterWitness<
    VecDeque<u64, A>,
    VecDeque<ReaderState, A>,
    VecDeque<usize, A>,
    VecDeque<Chain, A>,
>;

const ANY: Register = Register {
    first: 0,
    values: None,
};

const BIT: Register = Register {
    first: 0,
    values: Some(2),
};

// A history, a class, a reader and the value that it reads, and what contradicts the class then; for an inversion the earlier reads.
struct Case {
    register: Register,
    events: &'static [RegisterEvent],
    class: Class,
    reader: usize,
    value: u64,
    reason: MissReason<&'static [EarlierRead]>,
}

macro_rules! case {
    ($register:expr, $class:ident, $reader:literal $value:literal, $reason:expr; $($event:ident $(($($number:literal),*))?),*) => {
        Case {
            register: $register,
            events: &[$(RegisterEvent::$event $(($($number),*))?),*],
            class: Class::$class,
            reader: $reader,
            value: $value,
            reason: $reason,
        }
    };
}

macro_rules! earlier {
    ($reader:literal, $ended:literal, $value:literal, $written:literal) => {
        EarlierRead {
            reader: $reader,
            ended: $ended,
            value: $value,
            written: $written,
        }
    };
}

static CASES: &[Case] = &[
    case!(BIT, Safe, 0 2, MissReason::NoValue; WriteBegins(1), ReadBegins(0)),
    case!(BIT, Atomic, 0 2, MissReason::NoValue; WriteBegins(1), ReadBegins(0)),
    case!(ANY, Safe, 0 0, MissReason::Held { value: 1, since: Some(1) }; WriteBegins(1), WriteEnds, ReadBegins(0)),
    case!(ANY, Regular, 3 5, MissReason::Held { value: 0, since: None }; ReadBegins(3)),
    case!(ANY, Regular, 0 7, MissReason::NotWritten; WriteBegins(1), ReadBegins(0)),
    case!(ANY, AtomicByReader, 0 7, MissReason::NotWritten; WriteBegins(1), ReadBegins(0)),
    case!(ANY, Atomic, 1 0, MissReason::Inverted(&[earlier!(0, 2, 1, 0)]); WriteBegins(1), ReadBegins(0), ReadEnds(0, 1), ReadBegins(1)),
    case!(ANY, AtomicByReader, 0 0, MissReason::Inverted(&[earlier!(0, 2, 1, 0)]); WriteBegins(1), ReadBegins(0), ReadEnds(0, 1), ReadBegins(0)),
    case!(ANY, Atomic, 2 1, MissReason::Inverted(&[earlier!(1, 6, 0, 5), earlier!(0, 2, 1, 0)]);
        WriteBegins(1), ReadBegins(0), ReadEnds(0, 1), ReadBegins(1), WriteEnds, WriteBegins(0), ReadEnds(1, 0), ReadBegins(2)),
];

fn fed<A: Allocator + Copy>(alloc: A, case: &Case) -> Option<InMemory<A>> {
    if !case.register.has_value(case.register.first) {
        return None;
    }
    let made = RegisterWitness::with(
        VecDeque::new(alloc),
        VecDeque::new(alloc),
        VecDeque::new(alloc),
        VecDeque::new(alloc),
        VecDeque::new(alloc),
        VecDeque::new(alloc),
        case.register,
    );
    let Ok(witness) = made else {
        return None;
    };
    let mut witness = witness;
    for event in case.events {
        if witness.feed(*event).is_err() {
            return None;
        }
    }
    if witness.has(case.class) {
        Some(witness)
    } else {
        None
    }
}

fn shows(chain: &Chain, reads: &[EarlierRead]) -> bool {
    for (place, read) in reads.iter().enumerate() {
        if chain.read(place) != Some(*read) {
            return false;
        }
    }
    chain.read(reads.len()).is_none() && !chain.is_cut()
}

fn is_given(rt: &HostRuntime, case: &Case) -> bool {
    let Some(witness) = fed(rt.alloc(), case) else {
        return false;
    };
    match (
        witness.reason(case.class, case.reader, case.value),
        case.reason,
    ) {
        (MissReason::NoValue, MissReason::NoValue) => true,
        (MissReason::NotWritten, MissReason::NotWritten) => true,
        (
            MissReason::Held { value, since },
            MissReason::Held {
                value: wanted,
                since: place,
            },
        ) => value == wanted && since == place,
        (MissReason::Inverted(chain), MissReason::Inverted(reads)) => shows(&chain, reads),
        _ => false,
    }
}

#[test]
fn what_speaks_against_a_read_is_given(rt: HostRuntime) -> Result<(), Fail> {
    for case in CASES {
        assert!(rt; is_given(&rt, case));
    }
    Ok(())
}
