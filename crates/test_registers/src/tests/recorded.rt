//! The unary register, recorded as any register is: regular and not atomic.
use bits_core::{Act, Bit, Event, Shape, Side, Verdict, audit_bits};
use register_calls::{Class, Register, RegisterEvent, first_miss};
use std::alloc::AllocGlobal;
use std::process::Abort;
use std::test::Fail;

macro_rules! event {
    ($side:ident, $bit:expr, $act:expr) => {
        Event {
            side: Side::$side,
            bit: $bit,
            act: $act,
        }
    };
}

// The producer's count is 0, and it writes 1: it sets bit 1, and then clears bit 0, which it leaves open. Meanwhile the consumer scans the
// count twice: it reads bit 0 as 0 and bit 1 as 1, and then bit 0 as 1. So it finds 1, and then 0.
const BITS: [Event; 9] = [
    event!(P, Bit::S(1), Act::WriteBegin(true)),
    event!(P, Bit::S(1), Act::WriteEnd),
    event!(P, Bit::S(0), Act::WriteBegin(false)),
    event!(C, Bit::S(0), Act::ReadBegin),
    event!(C, Bit::S(0), Act::ReadEnd(false)),
    event!(C, Bit::S(1), Act::ReadBegin),
    event!(C, Bit::S(1), Act::ReadEnd(true)),
    event!(C, Bit::S(0), Act::ReadBegin),
    event!(C, Bit::S(0), Act::ReadEnd(true)),
];

// The write and the two scans, recorded.
const RECORDED: [RegisterEvent; 5] = [
    RegisterEvent::WriteBegins(1),
    RegisterEvent::ReadBegins(0),
    RegisterEvent::ReadEnds(0, 1),
    RegisterEvent::ReadBegins(0),
    RegisterEvent::ReadEnds(0, 0),
];

const COUNT: Register = Register {
    first: 0,
    values: None,
};

#[test]
fn the_unary_register_is_regular_and_not_atomic(rt: HostRuntime) -> Result<(), Fail> {
    match Shape::new(1, 3, 1) {
        Ok(shape) => assert!(rt; audit_bits(&shape, &BITS) == Verdict::Lawful),
        Err(_) => assert!(rt; false),
    }
    assert!(rt; first_miss(rt.alloc(), COUNT, Class::Regular, &RECORDED) == Ok(None));
    assert!(rt; first_miss(rt.alloc(), COUNT, Class::AtomicByReader, &RECORDED) == Ok(Some(4)));
    assert!(rt; first_miss(rt.alloc(), COUNT, Class::Atomic, &RECORDED) == Ok(Some(4)));
    Ok(())
}
