//! Uses of rings between two threads, and of a batch.
ghost use Rattle.std.specs.Prelude.{◌≡◌};

use bits_core::Shape;
use ring_run::{CounterRing, PutEnd};
use std::alloc::{AllocGlobal, Global};
use std::process::Abort;
use std::rt::HostRuntime;
use std::test::Fail;
use std::thread::Threads;
use uses::batches::put_batch;
use uses::held_ends::deliver;
use uses::oracles::pass_flickering;
use uses::packed::{Reading, pass_places, pass_readings};
use uses::relays::pass_on;
use uses::two_threads::{Passed, pass_through};

#[test]
fn items_are_passed_on(rt: HostRuntime) -> Result<(), Fail> {
    let shape = Shape::new(8, 10, 16)?;
    let items = [5, 7, 5, 65_535];
    assert!(rt; shape.fits_all(&items));
    let taken = pass_on(&rt, rt.alloc(), shape, &items, 1_000_000_000)?;
    assert_eq!(rt; taken.as_slice(), items.as_slice());
    Ok(())
}

// What comes through, for items that fit.
fn passed(
    rt: &(impl Abort + AllocGlobal + Threads),
    shape: Shape,
    items: &[u64],
    calls: u64,
) -> Result<Passed<Global>, Fail> {
    assert!(rt; shape.fits_all(items));
    Ok(pass_through(rt, rt.alloc(), shape, items, calls)?)
}

#[test]
fn threads_of_ones_own_pass_all(rt: HostRuntime) -> Result<(), Fail> {
    let shape = Shape::with_batch(4, 8, 16, 3)?;
    let items = [5, 7, 5, 65_535, 1, 2, 3];
    let passed = passed(&rt, shape, &items, 1_000_000_000)?;
    assert!(rt; passed.stored == 7 && passed.told && passed.counts == (7, 7));
    assert_eq!(rt; passed.taken.as_slice(), items.as_slice());
    Ok(())
}

#[test]
fn held_ends_deliver_all(rt: HostRuntime) -> Result<(), Fail> {
    let shape = Shape::with_batch(4, 8, 16, 3)?;
    let items = [5, 7, 5, 65_535, 1, 2, 3];
    assert!(rt; shape.fits_all(&items));
    let delivered = deliver(&rt, rt.alloc(), shape, &items, 1_000_000_000)?;
    assert!(rt; delivered.stored == 7 && delivered.told);
    assert_eq!(rt; delivered.taken.as_slice(), items.as_slice());
    Ok(())
}

#[test]
fn held_ends_with_no_call_deliver_nothing(rt: HostRuntime) -> Result<(), Fail> {
    let shape = Shape::new(1, 3, 1)?;
    let items = [1, 0];
    assert!(rt; shape.fits_all(&items));
    let delivered = deliver(&rt, rt.alloc(), shape, &items, 0)?;
    assert!(rt; delivered.stored == 0 && delivered.taken.is_empty() && !delivered.told);
    Ok(())
}

// With modulus 3 the counts of five items are 1, 2, 0, 1, 2.
#[test]
fn counts_go_round_at_the_modulus(rt: HostRuntime) -> Result<(), Fail> {
    let shape = Shape::new(1, 3, 4)?;
    let items = [9, 8, 7, 6, 5];
    let passed = passed(&rt, shape, &items, 1_000_000_000)?;
    assert_eq!(rt; passed.counts, (2, 2));
    assert_eq!(rt; passed.taken.as_slice(), items.as_slice());
    Ok(())
}

#[test]
fn without_a_take_nothing_is_taken(rt: HostRuntime) -> Result<(), Fail> {
    let shape = Shape::new(1, 3, 1)?;
    let items = [1, 0];
    let passed = passed(&rt, shape, &items, 0)?;
    assert!(rt; passed.stored == 0 && passed.taken.is_empty() && !passed.told);
    assert!(rt; passed.counts == (0, 0));
    Ok(())
}

#[test]
fn items_are_passed_on_by_an_oracle_of_ones_own(rt: HostRuntime) -> Result<(), Fail> {
    let shape = Shape::new(2, 4, 8)?;
    let items = [5, 255, 0, 5, 170];
    assert!(rt; shape.fits_all(&items));
    let taken = pass_flickering(&rt, rt.alloc(), shape, &items, 1_000_000_000, 1)?;
    assert_eq!(rt; taken.as_slice(), items.as_slice());
    Ok(())
}

// A put of this batch stores this many.
fn expect_stored<E: PutEnd>(rt: &impl Abort, putter: &mut E, items: &[u64], wanted: usize)
    requires { E.idle putter.old }
    ensures { E.idle putter.new }
{
    let shape = putter.shape();
    assert!(rt; !items.is_empty() && items.len() as u64 <= shape.batch());
    assert!(rt; shape.fits_all(items));
    let stored = put_batch(putter, items);
    assert_eq!(rt; stored, wanted);
}

#[test]
fn a_batch_fills_the_room_that_is_left(rt: HostRuntime) -> Result<(), Fail> {
    let shape = Shape::with_batch(3, 6, 4, 2)?;
    let (ring, start) = CounterRing::new(rt.alloc(), shape)?;
    let (mut putter, _taker) = ring.ends(start);
    expect_stored(&rt, &mut putter, &[1, 2], 2);
    expect_stored(&rt, &mut putter, &[3, 4], 1);
    expect_stored(&rt, &mut putter, &[4], 0);
    Ok(())
}

const READINGS: [Reading; 3] = [
    Reading {
        left: 1,
        right: 2,
        last: false,
    },
    Reading {
        left: 65_535,
        right: 0,
        last: false,
    },
    Reading {
        left: 0,
        right: 65_535,
        last: true,
    },
];

#[test]
fn readings_come_out_as_they_went_in(rt: HostRuntime) -> Result<(), Fail> {
    let shape = Shape::new(2, 4, 33)?;
    assert!(rt; shape.width() == 33);
    assert!(rt; READINGS[0].pack() == 131_073 && READINGS[2].pack() == 8_589_869_056);
    let taken = pass_readings(&rt, rt.alloc(), shape, &READINGS, 1_000_000_000)?;
    assert_eq!(rt; taken.as_slice(), READINGS.as_slice());
    Ok(())
}

#[test]
fn things_are_found_at_the_places_that_were_taken(rt: HostRuntime) -> Result<(), Fail> {
    let names = ["left", "right", "last"];
    let shape = Shape::new(2, 4, 2)?;
    assert!(rt; shape.width() == 2);
    let places = pass_places(&rt, rt.alloc(), shape, &names, 1_000_000_000)?;
    assert_eq!(rt; places.len(), 3);
    assert_eq!(rt; names[places[2] as usize], "last");
    Ok(())
}
