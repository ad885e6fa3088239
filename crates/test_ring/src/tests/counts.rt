//! What two counts show of items and of room.

use bits_core::Shape;
use ring_core::{distance, has_item, has_room};
use std::process::Abort;
use std::test::Fail;

fn expect_counts(
    rt: &impl Abort,
    shape: &Shape,
    a: u64,
    b: u64,
    ahead: u64,
    item: bool,
    room: bool,
) {
    assert!(rt; a < shape.modulus() && b < shape.modulus());
    if a < shape.modulus() && b < shape.modulus() {
        assert!(rt; distance(a, b, shape.modulus()) == ahead);
        assert!(rt; has_item(shape, a, b) == item);
        assert!(rt; has_room(shape, a, b) == room);
    }
}

#[test]
fn counts_show_items_and_room(rt: HostRuntime) -> Result<(), Fail> {
    let shape = Shape::new(2, 5, 1)?;
    for (a, b, ahead, item, room) in [
        (0, 0, 0, false, true),
        (1, 0, 1, true, true),
        (2, 0, 2, true, false),
        (3, 0, 3, false, false),
        (4, 0, 4, false, false),
        // past the modulus
        (0, 4, 1, true, true),
        (1, 4, 2, true, false),
        (0, 1, 4, false, false),
    ] {
        expect_counts(&rt, &shape, a, b, ahead, item, room);
    }
    Ok(())
}

#[test]
fn the_largest_shape_has_its_counts(rt: HostRuntime) -> Result<(), Fail> {
    let shape = Shape::new(64, 256, 64)?;
    expect_counts(&rt, &shape, 63, 255, 64, true, false);
    expect_counts(&rt, &shape, 62, 255, 63, true, true);
    expect_counts(&rt, &shape, 64, 255, 65, false, false);
    assert!(rt; distance(0, u64::MAX - 1, u64::MAX) == 1);
    Ok(())
}
