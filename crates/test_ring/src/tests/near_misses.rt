// Three rings that are nearly right. Each makes a lawful history of bits, so safe bits are not to blame.
use bits_core::{
    Access, Always, Bit, Event, Memory, Oracle, Shape, Side, Store, Tape, Verdict, audit_bits,
};
use register_core::{UnaryScan, UnaryWriter, WordWriter};
use ring_core::{Consumer, Producer, PutReply, TakeReply};
use ring_steps::{Step, next_event};
use std::process::Abort;
use std::test::Fail;
use trace_text::write_trace;

// The due access, completely, if there is one: its answer. If memory runs out the test fails.
fn whole_access<S: Store<Event>, O: Oracle>(
    rt: &impl Abort,
    memory: &mut Memory<S>,
    side: Side,
    due: Option<Access>,
    oracle: &mut O,
) -> Option<bool> {
    next_event(memory, side, due, oracle).expect(rt, "memory for the event");
    match next_event(memory, side, due, oracle).expect(rt, "memory for the event") {
        Step::End(answer) => Some(answer),
        _ => None,
    }
}

// A scan by a side, and its value.
fn scan<S: Store<Event>>(rt: &impl Abort, memory: &mut Memory<S>, side: Side) -> Option<u64> {
    let mut scan = UnaryScan::new(&memory.shape(), side);
    for _ in 0..3 {
        if scan.next().is_some()
            && let Some(answer) = whole_access(rt, memory, side, scan.next(), &mut Always(false))
            && (answer || !scan.expects_one())
        {
            scan.feed(answer);
        }
    }
    scan.value()
}

// This many bit writes of a value to the producer's count, and the access that is then due.
fn write_count<S: Store<Event>>(
    rt: &impl Abort,
    memory: &mut Memory<S>,
    value: u64,
    writes: u64,
) -> Option<Access> {
    let shape = memory.shape();
    let mut count = UnaryWriter::new(&shape, Side::P);
    if value < shape.modulus() {
        count.write(value);
    }
    for _ in 0..writes {
        let answer = whole_access(rt, memory, Side::P, count.next(), &mut Always(false));
        if answer.is_some() && count.next().is_some() {
            count.feed(false);
        }
    }
    count.next()
}

// The word write of an item of one digit.
fn write_digit<S: Store<Event>>(rt: &impl Abort, memory: &mut Memory<S>, cell: u64, item: bool) {
    let shape = memory.shape();
    assert!(rt; cell < shape.capacity());
    if cell < shape.capacity() && shape.fits(u64::from(item)) {
        let mut word = WordWriter::new(&shape, cell, u64::from(item));
        let answer = whole_access(rt, memory, Side::P, word.next(), &mut Always(false));
        if answer.is_some() && word.next().is_some() {
            word.feed(false);
        }
        expect_due(rt, word.next(), None);
    }
}

// A complete take, of at most 20 accesses.
fn take<S: Store<Event>, O: Oracle>(
    rt: &impl Abort,
    memory: &mut Memory<S>,
    consumer: &mut Consumer,
    oracle: &mut O,
) -> Option<TakeReply> {
    if consumer.next().is_none() {
        consumer.take();
    }
    for _ in 0..20 {
        if consumer.next().is_some()
            && let Some(answer) = whole_access(rt, memory, Side::C, consumer.next(), oracle)
            && (answer || !consumer.expects_one())
        {
            consumer.feed(answer);
        }
    }
    consumer.reply()
}

// The accesses of a put, at most 8.
fn make_put<S: Store<Event>>(rt: &impl Abort, memory: &mut Memory<S>, producer: &mut Producer) {
    for _ in 0..8 {
        if producer.next().is_some()
            && let Some(answer) = whole_access(
                rt,
                memory,
                Side::P,
                producer.next(),
                &mut Always(false),
            )
            && (answer || !producer.expects_one())
        {
            producer.feed(answer);
        }
    }
}

// A close, of one access.
fn close<S: Store<Event>>(rt: &impl Abort, memory: &mut Memory<S>, producer: &mut Producer) {
    if producer.next().is_none() {
        producer.close();
    }
    let answer = whole_access(rt, memory, Side::P, producer.next(), &mut Always(false));
    if answer.is_some() && producer.next().is_some() {
        producer.feed(true);
    }
}

fn expect_due(rt: &impl Abort, due: Option<Access>, wanted: Option<Access>) {
    assert_eq!(rt; due, wanted);
}

// A scan by a side returns this value.
fn expect_scan<S: Store<Event>>(rt: &impl Abort, memory: &mut Memory<S>, side: Side, value: u64) {
    assert_eq!(rt; scan(rt, memory, side), Some(value));
}

fn expect_lawful_trace<S: Store<Event>>(
    rt: &(impl Abort + AllocGlobal),
    memory: &Memory<S>,
    trace: &str,
) -> Result<(), Fail> {
    assert!(rt; audit_bits(&memory.shape(), memory.events()) == Verdict::Lawful);
    let shape = memory.shape();
    assert!(rt; shape.batch() == 1);
    if shape.batch() == 1 {
        let text = write_trace(rt.alloc(), &shape, memory.events())?;
        assert!(rt; text.as_str() == trace, "{text}");
    }
    Ok(())
}

#[test]
fn a_count_before_its_cell_takes_a_stale_item(rt: HostRuntime) -> Result<(), Fail> {
    let shape = Shape::new(1, 3, 1)?;
    let mut memory = Memory::new(rt.alloc(), shape);
    // a put of 1: the scan, then the count, and the cell last
    expect_scan(&rt, &mut memory, Side::P, 0);
    let due = write_count(&rt, &mut memory, 1, 2);
    expect_due(&rt, due, None);
    let mut consumer = Consumer::new(shape);
    let taken = take(&rt, &mut memory, &mut consumer, &mut Always(false));
    write_digit(&rt, &mut memory, 0, true);
    // what was put, and what was taken
    let put: [u64; 1] = [1];
    assert!(rt; taken == Some(TakeReply::Item(0)));
    assert!(rt; taken != Some(TakeReply::Item(put[0])));
    // the trace of examples/stale_item.trace
    expect_lawful_trace(
        &rt,
        &memory,
        "shape 1 3 1\nP read r0\nP got r0 1\nP write s1 1\nP wrote s1\nP write s0 0\nP wrote s0\nC read s0\nC got s0 0\nC read s1\nC got s1 1\nC read c0.0\nC got c0.0 0\nC write r1 1\nC wrote r1\nC write r0 0\nC wrote r0\nP write c0.0 1\nP wrote c0.0\n",
    )
}

#[test]
fn closed_without_a_second_scan_loses_an_item(rt: HostRuntime) -> Result<(), Fail> {
    let shape = Shape::new(1, 3, 1)?;
    let mut memory = Memory::new(rt.alloc(), shape);
    // a take that scans, finds nothing, and reads the close bit after an item was put and the ring closed
    expect_scan(&rt, &mut memory, Side::C, 0);
    let mut producer = Producer::new(shape);
    producer.put(1);
    make_put(&rt, &mut memory, &mut producer);
    assert!(rt; producer.reply() == Some(PutReply::Stored));
    close(&rt, &mut memory, &mut producer);
    assert!(rt; producer.is_closed());
    // a consumer that takes the close bit for the end returns Closed, and has taken nothing
    let due = Some(Access::Read(Bit::X));
    let told = whole_access(&rt, &mut memory, Side::C, due, &mut Always(false)) == Some(true);
    let taken: [u64; 0] = [];
    let put: [u64; 1] = [1];
    assert!(rt; told);
    assert!(rt; taken.len() < put.len());
    // the trace of examples/closed_loses_an_item.trace
    expect_lawful_trace(
        &rt,
        &memory,
        "shape 1 3 1\nC read s0\nC got s0 1\nP read r0\nP got r0 1\nP write c0.0 1\nP wrote c0.0\nP write s1 1\nP wrote s1\nP write s0 0\nP wrote s0\nP write x 1\nP wrote x\nC read x\nC got x 1\n",
    )?;
    // the second scan finds it
    expect_scan(&rt, &mut memory, Side::C, 1);
    Ok(())
}

fn expect_taken(rt: &impl Abort, taken: Option<TakeReply>, wanted: Option<TakeReply>) {
    assert_eq!(rt; taken, wanted);
}

// A put of 1 and 0: the scan, both words, and the count, whose last write stays open.
fn put_two<S: Store<Event>>(rt: &impl Abort, memory: &mut Memory<S>) {
    expect_scan(rt, memory, Side::P, 0);
    write_digit(rt, memory, 0, true);
    write_digit(rt, memory, 1, false);
    let last = write_count(rt, memory, 2, 1);
    next_event(memory, Side::P, last, &mut Always(false)).expect(rt, "memory for the event");
}

// A batch of two over counts modulo capacity + batch, which is one too few: the count that the open write replaces is
// taken for two more items.
#[test]
fn a_batch_needs_a_larger_modulus(rt: HostRuntime) -> Result<(), Fail> {
    let shape = Shape::new(2, 4, 1)?;
    let mut memory = Memory::new(rt.alloc(), shape);
    put_two(&rt, &mut memory);
    // two scans read 0 in s0, and the third one 1
    let mut oracle = Tape::new(&[false, false, true]);
    let mut consumer = Consumer::new(shape);
    for item in [1, 0] {
        let taken = take(&rt, &mut memory, &mut consumer, &mut oracle);
        expect_taken(&rt, taken, Some(TakeReply::Item(item)));
    }
    // no third item was put
    let stale = take(&rt, &mut memory, &mut consumer, &mut oracle);
    expect_taken(&rt, stale, Some(TakeReply::Item(1)));
    // the trace of examples/batch_count_comes_back.trace
    expect_lawful_trace(
        &rt,
        &memory,
        "shape 2 4 1\nP read r0\nP got r0 1\nP write c0.0 1\nP wrote c0.0\nP write c1.0 0\nP wrote c1.0\nP write s2 1\nP wrote s2\nP write s0 0\nC read s0\nC got s0 0\nC read s1\nC got s1 0\nC read s2\nC got s2 1\nC read c0.0\nC got c0.0 1\nC write r1 1\nC wrote r1\nC write r0 0\nC wrote r0\nC read s0\nC got s0 0\nC read s1\nC got s1 0\nC read s2\nC got s2 1\nC read c1.0\nC got c1.0 0\nC write r2 1\nC wrote r2\nC write r1 0\nC wrote r1\nC read s0\nC got s0 1\nC read c0.0\nC got c0.0 1\nC write r3 1\nC wrote r3\nC write r2 0\nC wrote r2\n",
    )
}
