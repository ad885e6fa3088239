//! Uses of a memory, an oracle and a ring by single steps.
ghost use Rattle.std.specs.Prelude.{◌≡◌};

use bits_core::{Always, Oracle, Shape};
use ring_core::{PutReply, TakeReply};
use std::alloc::AllocGlobal;
use std::rt::HostRuntime;
use std::test::Fail;
use uses::by_hand::{nothing_done, put_by_hand};
use uses::oracles::Minstd;
use uses::steps::take_amid_put;

// The generator's publishers give its 10,000th number from 1.
#[test]
fn the_generator_is_the_published_one(rt: HostRuntime) {
    let mut minstd = Minstd::new(1);
    for _ in 0..10_000 {
        let _answer = minstd.answer();
    }
    assert_eq!(rt; minstd.number, 399_268_537);
}

// Its first numbers are 48271, 182605794, 1291394886.
#[test]
fn the_upper_half_answers_one(rt: HostRuntime) {
    let mut minstd = Minstd::new(1);
    let first = minstd.answer();
    let second = minstd.answer();
    let third = minstd.answer();
    assert!(rt; !first && !second && third);
}

// The take begins when the put has set bit 1 of its count and is about to clear bit 0: the value read from that bit decides.
#[test]
fn a_flicker_decides_what_a_take_finds(rt: HostRuntime) -> Result<(), Fail> {
    let shape = Shape::new(1, 3, 1)?;
    assert!(rt; shape.fits(1));
    let taken = take_amid_put(rt.alloc(), shape, 1, 6, 10, Always(false))?;
    assert_eq!(rt; taken, Some(TakeReply::Item(1)));
    let none = take_amid_put(rt.alloc(), shape, 1, 6, 10, Always(true))?;
    assert_eq!(rt; none, Some(TakeReply::Empty));
    Ok(())
}

// A put reads bit 0 of the consumer's count, writes one digit and two bits of its own: four accesses. The next put reads one bit.
#[test]
fn puts_by_hand_are_answered(rt: HostRuntime) -> Result<(), Fail> {
    let shape = Shape::new(1, 3, 1)?;
    let (mut memory, mut producer) = nothing_done(rt.alloc(), shape);
    assert!(rt; shape.fits(1));
    let first = put_by_hand(&mut memory, &mut producer, 1, &mut Always(false), 8)?;
    assert_eq!(rt; first, Some(PutReply::Stored));
    assert_eq!(rt; memory.events().len(), 8);
    assert!(rt; producer.next().is_none());
    let second = put_by_hand(&mut memory, &mut producer, 1, &mut Always(false), 8)?;
    assert_eq!(rt; second, Some(PutReply::Full));
    assert_eq!(rt; memory.events().len(), 10);
    Ok(())
}
