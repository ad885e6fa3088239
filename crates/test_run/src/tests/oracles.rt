//! Relays of items under each oracle.

use crate::tests::expects::{ITEMS, Kind, ORACLES, SHAPES, expect_relay, expect_under};
use ring_run::{FreeGate, Limits};

#[test]
fn items_are_in_order_under_each_oracle(rt: HostRuntime) {
    let limits = Limits::both(1_000_000);
    for numbers in SHAPES.iter() {
        for oracles in ORACLES {
            let _outcome = expect_under(&rt, oracles, numbers, limits, &FreeGate);
        }
    }
}

#[test]
fn items_are_in_order_on_a_counter_ring(rt: HostRuntime) {
    let limits = Limits::both(1_000_000);
    for numbers in SHAPES.iter() {
        let _outcome = expect_relay(&rt, Kind::Counter, numbers, &ITEMS, limits, &FreeGate);
    }
}
