//! Which numbers are a shape, and with which fault others are refused.

use bits_core::{Bit, Kind, Memory, MemoryFault, Shape, ShapeFault};
use std::alloc::AllocGlobal;
use std::fmt::Display;
use std::process::Abort;
use trace_text::TraceFault;

// Why numbers make no shape, if they make none, and such numbers.
type Made<const COUNT: usize> = (Option<ShapeFault>, &'static [[u64; COUNT]]);

const CAPACITY: Option<ShapeFault> = Some(ShapeFault::Capacity);

const MODULUS: Option<ShapeFault> = Some(ShapeFault::Modulus);

const MODULUS_OF_BATCHES: Option<ShapeFault> = Some(ShapeFault::ModulusOfBatches);

const WIDTH: Option<ShapeFault> = Some(ShapeFault::Width);

const BATCH: Option<ShapeFault> = Some(ShapeFault::Batch);

const TAKE_BATCH: Option<ShapeFault> = Some(ShapeFault::TakeBatch);

// What was made of the numbers, and how. (A message is expensive to prove, so this one serves all.)
fn expect_made(
    rt: &impl Abort,
    how: &str,
    made: Result<Shape, ShapeFault>,
    refused: Option<ShapeFault>,
    numbers: &[u64],
) {
    assert_eq!(rt; made.err(), refused, "{how} {numbers:?}");
}

// Capacity, modulus, width and batch.
fn expect_numbers(rt: &impl Abort, numbers: &[u64; 4], refused: Option<ShapeFault>) {
    let [capacity, modulus, width, batch] = *numbers;
    let shape = Shape::with_batch(capacity, modulus, width, batch);
    expect_made(rt, "with_batch", shape, refused, numbers);
    if batch == 1 {
        let single = Shape::new(capacity, modulus, width);
        expect_made(rt, "new", single, refused, numbers);
    }
}

// Each row, and if it is a shape of batch 1, `Shape::new` too.
fn expect_shapes(rt: &impl Abort, rows: &[Made<4>]) {
    for (refused, shapes) in rows {
        for numbers in shapes.iter() {
            expect_numbers(rt, numbers, *refused);
        }
    }
}

static SINGLE: [Made<4>; 4] = [
    (None, &[[1, 3, 1, 1], [64, 66, 64, 1], [64, 256, 1, 1]]),
    (MODULUS, &[[1, 2, 1, 1], [1, 257, 1, 1], [64, 65, 1, 1]]),
    (CAPACITY, &[[65, 67, 64, 1], [0, 0, 0, 1]]),
    (WIDTH, &[[1, 3, 0, 1], [1, 3, 65, 1]]),
];

#[test]
fn shapes_accepted_and_refused(rt: HostRuntime) {
    expect_shapes(&rt, &SINGLE);
}

static BATCHES: [Made<4>; 7] = [
    (None, &[[3, 7, 1, 3], [3, 6, 1, 2], [64, 129, 64, 64]]),
    // one less than capacity + batch + 1
    (MODULUS, &[[3, 6, 1, 3], [64, 128, 64, 64]]),
    (BATCH, &[[3, 7, 1, 4], [3, 7, 1, 0]]),
    // the capacity is reported before the batch, the batch before the modulus, the modulus before the width
    (CAPACITY, &[[65, 0, 0, 0]]),
    (BATCH, &[[3, 3, 0, 4]]),
    (MODULUS, &[[3, 6, 0, 3]]),
    (WIDTH, &[[3, 7, 65, 3]]),
];

#[test]
fn batches_accepted_and_refused(rt: HostRuntime) {
    expect_shapes(&rt, &BATCHES);
}

// Rows of capacity, modulus, width, batch and take batch.
static TAKE_BATCHES: [Made<5>; 9] = [
    (None, &[[3, 7, 1, 1, 3], [3, 7, 1, 3, 3], [3, 6, 1, 1, 2]]),
    (
        None,
        &[[64, 129, 64, 1, 64], [64, 81, 64, 16, 16], [3, 5, 1, 1, 1]],
    ),
    // one less than capacity + the larger batch + 1
    (MODULUS_OF_BATCHES, &[[3, 6, 1, 1, 3], [3, 6, 1, 3, 2]]),
    (
        MODULUS_OF_BATCHES,
        &[[64, 80, 64, 1, 16], [3, 257, 1, 1, 3]],
    ),
    (MODULUS, &[[3, 6, 1, 3, 1]]),
    // the batch is reported before the take batch, the take batch before the modulus, the modulus before the width
    (BATCH, &[[3, 7, 1, 4, 4]]),
    (
        TAKE_BATCH,
        &[[3, 7, 1, 1, 4], [3, 7, 1, 1, 0], [3, 3, 0, 1, 4]],
    ),
    (MODULUS_OF_BATCHES, &[[3, 6, 0, 1, 3]]),
    (WIDTH, &[[3, 7, 65, 1, 3]]),
];

// What was made of the five numbers.
fn expect_batches(rt: &impl Abort, numbers: &[u64; 5], refused: Option<ShapeFault>) {
    let [capacity, modulus, width, batch, take_batch] = *numbers;
    let made = Shape::with_batches(capacity, modulus, width, batch, take_batch);
    expect_made(rt, "with_batches", made, refused, numbers);
}

#[test]
fn take_batches_accepted_and_refused(rt: HostRuntime) {
    for (refused, shapes) in TAKE_BATCHES.iter() {
        for numbers in shapes.iter() {
            expect_batches(&rt, numbers, *refused);
        }
    }
}

// With a take batch of 1 a shape is that of `with_batch`.
#[test]
fn a_take_batch_of_1_is_none(rt: HostRuntime) {
    let with_batch = Shape::with_batch(3, 7, 1, 3);
    assert!(rt; Shape::with_batches(3, 7, 1, 3, 1) == with_batch);
    assert!(rt; Shape::with_batches(3, 7, 1, 3, 2) != with_batch);
}

fn expect_getters(rt: &impl Abort, numbers: [u64; 5]) {
    let [capacity, modulus, width, batch, take_batch] = numbers;
    let made = Shape::with_batches(capacity, modulus, width, batch, take_batch);
    let shape = made.expect(rt, "a shape");
    let found = [
        shape.capacity(),
        shape.modulus(),
        shape.width(),
        shape.batch(),
        shape.take_batch(),
    ];
    assert!(rt; found == numbers);
    assert!(rt; Shape::with_batches(capacity, modulus, width, batch, take_batch) == Ok(shape));
}

#[test]
fn a_shape_tells_its_numbers(rt: HostRuntime) {
    expect_getters(&rt, [2, 5, 3, 2, 1]);
    expect_getters(&rt, [64, 256, 64, 1, 1]);
    expect_getters(&rt, [3, 9, 64, 3, 2]);
    expect_getters(&rt, [3, 9, 64, 1, 3]);
}

// Width, item, and whether it fits.
static ITEMS: [(u64, u64, bool); 6] = [
    (3, 7, true),
    (3, 8, false),
    (1, 1, true),
    (1, 2, false),
    (63, u64::MAX, false),
    (64, u64::MAX, true),
];

#[test]
fn an_item_fits_below_the_power_of_the_width(rt: HostRuntime) {
    for (width, item, fits) in ITEMS.iter() {
        let shape = Shape::new(2, 5, *width).expect(&rt, "a shape");
        expect_flag(&rt, shape.fits(*item), *fits);
    }
}

fn expect_flag(rt: &impl Abort, found: bool, wanted: bool) {
    assert_eq!(rt; found, wanted);
}

// Bits that are not of the shape 2 5 3.
static OUTSIDE: [Bit; 5] = [
    Bit::S(5),
    Bit::R(5),
    Bit::Cell(2, 2),
    Bit::Cell(1, 3),
    Bit::Cell(255, 255),
];

#[test]
fn a_shape_has_its_bits(rt: HostRuntime) {
    let shape = Shape::new(2, 5, 3).expect(&rt, "a shape");
    for bit in [Bit::S(0), Bit::S(4), Bit::R(4), Bit::X, Bit::Cell(1, 2)] {
        expect_flag(&rt, shape.has(bit), true);
    }
    for bit in OUTSIDE.iter() {
        expect_flag(&rt, shape.has(*bit), false);
    }
}

// The text that a value is written as.
fn expect_words(rt: &(impl Abort + AllocGlobal), value: &impl Display, words: &str) {
    let written = value
        .to_string(rt.alloc())
        .expect(rt, "memory for the words");
    assert_eq!(rt; written.as_str(), words);
}

// A value with this number has the expected number and text.
fn expect_named(
    rt: &(impl Abort + AllocGlobal),
    value: &impl Display,
    number: u8,
    wanted: (u8, &str),
) {
    let (wanted, words) = wanted;
    assert_eq!(rt; number, wanted);
    expect_words(rt, value, words);
}

static SHAPE_FAULTS: [(ShapeFault, u8, &str); 6] = [
    (ShapeFault::Capacity, 1, "capacity must be from 1 to 64"),
    (
        ShapeFault::Modulus,
        2,
        "modulus must be from capacity + batch + 1 to 256",
    ),
    (ShapeFault::Width, 3, "width must be from 1 to 64"),
    (ShapeFault::Batch, 4, "batch must be from 1 to capacity"),
    (
        ShapeFault::TakeBatch,
        5,
        "take batch must be from 1 to capacity",
    ),
    (
        ShapeFault::ModulusOfBatches,
        6,
        "modulus must be from capacity + the larger batch + 1 to 256",
    ),
];

#[test]
fn shape_faults_have_their_numbers_and_words(rt: HostRuntime) {
    for (fault, number, words) in SHAPE_FAULTS.iter() {
        expect_named(&rt, fault, fault.number(), (*number, words));
        // a bad shape has the text of its fault
        expect_words(&rt, &TraceFault::BadShape(*fault), words);
    }
}

static TRACE_FAULTS: [(TraceFault, u8, &str); 4] = [
    (
        TraceFault::BadShape(ShapeFault::Width),
        1,
        "width must be from 1 to 64",
    ),
    (
        TraceFault::BadLine(7),
        2,
        "trace line 7 is not a line of the format",
    ),
    (TraceFault::TooLong, 3, "trace has too many events"),
    (TraceFault::OutOfMemory, 4, "out of memory"),
];

#[test]
fn trace_faults_have_their_numbers_and_words(rt: HostRuntime) {
    for (fault, number, words) in TRACE_FAULTS.iter() {
        expect_named(&rt, fault, fault.number(), (*number, words));
    }
}

#[test]
fn kinds_have_their_numbers_and_words(rt: HostRuntime) {
    for (kind, number, words) in [
        (Kind::WrongSide, 1, "wrong side"),
        (Kind::OutOfTurn, 2, "out of turn"),
        (Kind::NotPermitted, 3, "not permitted"),
        (Kind::NotProgram, 4, "not of the program"),
    ] {
        expect_named(&rt, &kind, kind.number(), (number, words));
    }
}

#[test]
fn a_memory_shows_its_history(rt: HostRuntime) {
    let shape = Shape::new(1, 3, 1).expect(&rt, "a shape");
    let memory = Memory::new(rt.alloc(), shape);
    let shown = format!(in rt.alloc(); "{memory:?}");
    expect_words(
        &rt,
        &shown.expect(&rt, "memory for the text"),
        "Memory { shape: Shape { capacity: 1, modulus: 3, width: 1, batch: 1, take_batch: 1 }, events: [], flickers: 0 }",
    );
}

#[test]
fn the_fault_of_a_memory(rt: HostRuntime) {
    let fault = MemoryFault::OutOfMemory;
    expect_named(&rt, &fault, fault.number(), (1, "out of memory"));
}
