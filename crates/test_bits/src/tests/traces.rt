//! The text of traces: each form of a line, and what is refused.

use bits_core::{Act, Bit, Event, Shape, ShapeFault, Side};
use std::alloc::AllocGlobal;
use std::process::Abort;
use trace_text::{TraceFault, read_trace, write_trace};

// An event: who, which bit, and what.
type Row = (Side, Bit, Act);

// The text is a trace of this shape and these events, and it is what is written for them.
fn expect_trace(rt: &(impl Abort + AllocGlobal), text: &str, shape: &Shape, rows: &[Row]) {
    let read = read_trace(rt.alloc(), text.as_bytes());
    let (shape_read, events) = read.expect(rt, "a trace");
    assert_eq!(rt; shape_read, *shape);
    expect_rows(rt, events.as_slice(), rows);
    let again = write_trace(rt.alloc(), &shape_read, events.as_slice());
    assert_eq!(rt; again.expect(rt, "memory for the text").as_str(), text);
}

fn expect_rows(rt: &impl Abort, events: &[Event], rows: &[Row]) {
    assert_eq!(rt; events.len(), rows.len());
    for (event, row) in events.iter().zip(rows.iter()) {
        let (side, bit, act) = *row;
        assert_eq!(rt; *event, Event { side, bit, act });
    }
}

static ROWS: [Row; 8] = [
    (Side::P, Bit::S(255), Act::WriteBegin(true)),
    (Side::P, Bit::S(255), Act::WriteEnd),
    (Side::C, Bit::S(0), Act::ReadBegin),
    (Side::C, Bit::S(0), Act::ReadEnd(false)),
    (Side::C, Bit::R(17), Act::WriteBegin(false)),
    (Side::P, Bit::X, Act::ReadBegin),
    (Side::C, Bit::X, Act::WriteEnd),
    (Side::P, Bit::Cell(63, 9), Act::WriteBegin(false)),
];

#[test]
fn each_line_is_one_event(rt: HostRuntime) {
    expect_trace(
        &rt,
        "shape 64 256 64\nP write s255 1\nP wrote s255\nC read s0\nC got s0 0\nC write r17 0\nP read x\nC wrote x\nP write c63.9 0\n",
        &Shape::new(64, 256, 64).expect(&rt, "a shape"),
        &ROWS,
    );
}

// The same for a shape with these numbers.
fn expect_batch(rt: &(impl Abort + AllocGlobal), text: &str, numbers: [u64; 4], rows: &[Row]) {
    let [capacity, modulus, width, batch] = numbers;
    let shape = Shape::with_batch(capacity, modulus, width, batch);
    expect_trace(rt, text, &shape.expect(rt, "a shape"), rows);
}

#[test]
fn line_one_names_a_batch_over_1(rt: HostRuntime) {
    expect_batch(&rt, "shape 3 7 1 3\n", [3, 7, 1, 3], &[]);
    expect_batch(&rt, "shape 3 7 1\n", [3, 7, 1, 1], &[]);
    expect_batch(
        &rt,
        "shape 64 129 64 64\nP read r128\n",
        [64, 129, 64, 64],
        &[(Side::P, Bit::R(128), Act::ReadBegin)],
    );
}

// The same for a shape with a take batch.
fn expect_batches(rt: &(impl Abort + AllocGlobal), text: &str, numbers: [u64; 5], rows: &[Row]) {
    let [capacity, modulus, width, batch, take_batch] = numbers;
    let shape = Shape::with_batches(capacity, modulus, width, batch, take_batch);
    expect_trace(rt, text, &shape.expect(rt, "a shape"), rows);
}

#[test]
fn line_one_names_a_take_batch_over_1(rt: HostRuntime) {
    expect_batches(&rt, "shape 3 7 1 1 3\n", [3, 7, 1, 1, 3], &[]);
    expect_batches(&rt, "shape 3 7 1 3 2\n", [3, 7, 1, 3, 2], &[]);
    expect_batches(&rt, "shape 3 7 1 3\n", [3, 7, 1, 3, 1], &[]);
    expect_batches(
        &rt,
        "shape 64 129 64 16 64\nP read r128\n",
        [64, 129, 64, 16, 64],
        &[(Side::P, Bit::R(128), Act::ReadBegin)],
    );
}

fn expect_fault(rt: &(impl Abort + AllocGlobal), text: &[u8], fault: TraceFault) {
    assert_eq!(rt; read_trace(rt.alloc(), text).err(), Some(fault));
}

// Each text has this fault.
fn expect_faults(rt: &(impl Abort + AllocGlobal), texts: &[&str], fault: TraceFault) {
    for text in texts {
        expect_fault(rt, text.as_bytes(), fault);
    }
}

static NO_LINE_ONE: [&str; 30] = [
    "",
    "shape 1 3 1",
    "shape 1 3\n",
    "shape 1 3 \n",
    "shape 1 3 1 \n",
    "shape 1  3 1\n",
    "shape 1 3 1\r\n",
    "shape 01 3 1\n",
    "shape 1 99999 1\n",
    "shape 1 3 +1\n",
    "Shape 1 3 1\n",
    " shape 1 3 1\n",
    "P read r0\n",
    // a batch of 1 is not written, whatever the other numbers are
    "shape 3 7 1 1\n",
    "shape 1 3 1 1\n",
    "shape 0 0 0 1\n",
    // nor is a batch in another form
    "shape 3 7 1 3",
    "shape 3 7 1  3\n",
    "shape 3 7 1 03\n",
    "shape 3 7 1 3 \n",
    "shape 3 7 1 10000\n",
    // nor is a take batch of 1, whatever the batch is, or one in another form
    "shape 3 7 1 3 1\n",
    "shape 3 7 1 1 1\n",
    "shape 0 0 0 0 1\n",
    "shape 3 7 1 1 3",
    "shape 3 7 1 1  3\n",
    "shape 3 7 1 1 03\n",
    "shape 3 7 1 1 3 \n",
    "shape 3 7 1 1 3 3\n",
    "shape 3 7 1 1 10000\n",
];

#[test]
fn a_first_line_of_no_form_is_bad(rt: HostRuntime) {
    expect_faults(&rt, &NO_LINE_ONE, TraceFault::BadLine(1));
}

static BAD_SHAPES: [(ShapeFault, &[&str]); 6] = [
    (
        ShapeFault::Modulus,
        &[
            "shape 1 9999 1\n",
            "shape 1 2 1\n",
            "shape 3 6 1 3\n",
            "shape 3 6 0 3\n",
        ],
    ),
    (
        ShapeFault::Capacity,
        &[
            "shape 0 3 1\n",
            "shape 65 0 0 0\n",
            "shape 9999 9999 9999 9999 9999\n",
        ],
    ),
    (
        ShapeFault::Width,
        &[
            "shape 1 3 65\nnonsense",
            "shape 3 7 0 3\nP",
            "shape 3 7 0 1 3\nP",
        ],
    ),
    (
        ShapeFault::Batch,
        &[
            "shape 3 7 1 0\n",
            "shape 3 7 1 4\n",
            "shape 3 7 1 9999\n",
            "shape 3 6 0 4\n",
            "shape 3 7 1 4 4\n",
            "shape 3 7 1 9999 9999\n",
        ],
    ),
    (
        ShapeFault::TakeBatch,
        &["shape 3 7 1 1 0\n", "shape 3 7 1 1 4\n"],
    ),
    (
        ShapeFault::ModulusOfBatches,
        &["shape 3 6 1 1 3\n", "shape 3 6 0 3 2\n"],
    ),
];

#[test]
fn numbers_that_are_no_shape_are_told(rt: HostRuntime) {
    for (fault, texts) in BAD_SHAPES.iter() {
        expect_faults(&rt, texts, TraceFault::BadShape(*fault));
    }
}

// Each is a bad line after the first one.
fn expect_bad_lines(rt: &(impl Abort + AllocGlobal), lines: &[&str], first: &str) {
    for line in lines {
        let text = format!(in rt.alloc(); "{first}{line}");
        let text = text.expect(rt, "memory for the text");
        expect_fault(rt, text.as_bytes(), TraceFault::BadLine(2));
    }
}

static NO_LINE_TWO: [&str; 24] = [
    "P read r",
    "P read r0",
    "P read r3\n",
    "P read r00\n",
    "P read s00\n",
    "P  read r0\n",
    "P read r0 \n",
    "P got r0 2\n",
    "P got r0\n",
    "P read r0 1\n",
    "P read c1.0\n",
    "P read c0.1\n",
    "P read c0\n",
    "P read r256\n",
    "P read x0\n",
    "P wrote s0 1\n",
    "P write s0 01\n",
    "p read r0\n",
    "P Read r0\n",
    "shape 1 3 1\n",
    "\n",
    " P read r0\n",
    "P read r0\r\n",
    "P\tread r0\n",
];

#[test]
fn lines_of_no_form_are_refused(rt: HostRuntime) {
    expect_bad_lines(&rt, &NO_LINE_TWO, "shape 1 3 1\n");
    expect_fault(&rt, b"shape 1 3 1\n\xff", TraceFault::BadLine(2));
}

#[test]
fn the_faulty_line_is_named(rt: HostRuntime) {
    expect_fault(
        &rt,
        b"shape 1 3 1\nP read r0\nP got r0 1\nP wrote\n",
        TraceFault::BadLine(4),
    );
}
