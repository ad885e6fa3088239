//! Puts and takes of several items.

ghost use Rattle.std.specs.Prelude.{◌≡◌};

use bits_core::{
    Always, Event, Memory, Oracle, Shape, ShapeFault, Side, Store, Tape, Verdict, audit_bits,
};
use ring_core::{BatchReply, Consumer, Producer, PutReply, TakeBatchReply, TakeReply};
use ring_steps::{Step, next_event};
use std::alloc::AllocGlobal;
use std::process::Abort;
use std::test::Fail;

// A producer of a shape.
#[derive(Drop)]
struct Puts {
    shape: Shape,
    producer: Producer,
    ghost of_producer: { producer.shape ≡ shape },
}

impl Puts {
    fn new(shape: Shape) -> Puts {
        Puts {
            shape,
            producer: Producer::new(shape),
        }
    }

    // A put of these items under one count write, if no call is under way and they may be put together.
    fn put_all(&mut self, items: &[u64]) {
        if self.producer.next().is_none()
            && !items.is_empty()
            && items.len() as u64 <= self.shape.batch()
            && self.shape.fits_all(items)
        {
            self.producer.put_all(items);
        }
    }

    fn put(&mut self, item: u64) {
        if self.producer.next().is_none() && self.shape.fits(item) {
            self.producer.put(item);
        }
    }

    fn close(&mut self) {
        if self.producer.next().is_none() {
            self.producer.close();
        }
    }

    // At most this many events: fewer if the call ends sooner.
    fn run<S: Store<Event>, O: Oracle>(
        &mut self,
        rt: &impl Abort,
        memory: &mut Memory<S>,
        oracle: &mut O,
        events: u64,
    ) {
        for _ in 0..events {
            let step = next_event(memory, Side::P, self.producer.next(), oracle);
            if let Step::End(answer) = step.expect(rt, "memory for the event")
                && self.producer.next().is_some()
                && (answer || !self.producer.expects_one())
            {
                self.producer.feed(answer);
            }
        }
    }

    fn make<S: Store<Event>>(&mut self, rt: &impl Abort, memory: &mut Memory<S>, call: Call) {
        match call {
            Call::PutAll(items) => self.put_all(items),
            Call::Put(item) => self.put(item),
            Call::Close => self.close(),
            Call::Run => self.run(rt, memory, &mut Always(false), 40),
        }
    }
}

// A complete take.
fn take<S: Store<Event>, O: Oracle>(
    rt: &impl Abort,
    consumer: &mut Consumer,
    memory: &mut Memory<S>,
    oracle: &mut O,
) {
    if consumer.next().is_none() {
        consumer.take();
    }
    for _ in 0..40 {
        let step = next_event(memory, Side::C, consumer.next(), oracle);
        if let Step::End(answer) = step.expect(rt, "memory for the event")
            && consumer.next().is_some()
            && (answer || !consumer.expects_one())
        {
            consumer.feed(answer);
        }
    }
}

// This many events were made, and the last call had these replies: as a put of one item, and as one of several.
fn expect_replies<S: Store<Event>>(
    rt: &impl Abort,
    puts: &Puts,
    memory: &Memory<S>,
    events: usize,
    put: Option<PutReply>,
    batch: Option<BatchReply>,
) {
    assert!(rt; memory.events().len() == events);
    assert!(rt; puts.producer.reply() == put);
    assert!(rt; puts.producer.batch_reply() == batch);
}

// The events of a take, its reply as a take of one and as one of several, and the items that it took.
type Take = (usize, TakeReply, TakeBatchReply, &'static [u64]);

fn expect_items(rt: &impl Abort, consumer: &Consumer, items: &[u64]) {
    assert!(rt; consumer.items() == items);
}

// A complete take has this many events, has these replies and took these items.
fn expect_take<S: Store<Event>, O: Oracle>(
    rt: &impl Abort,
    consumer: &mut Consumer,
    memory: &mut Memory<S>,
    oracle: &mut O,
    wanted: &Take,
) {
    let before = memory.events().len();
    take(rt, consumer, memory, oracle);
    assert!(rt; memory.events().len().checked_sub(before) == Some(wanted.0));
    assert!(rt; consumer.reply() == Some(wanted.1));
    assert!(rt; consumer.batch_reply() == Some(wanted.2));
    expect_items(rt, consumer, wanted.3);
}

fn expect_lawful<S: Store<Event>>(
    rt: &impl Abort,
    memory: &Memory<S>,
    events: usize,
    flickers: u64,
) {
    assert!(rt; memory.events().len() == events);
    assert!(rt; memory.flickers() == flickers);
    assert!(rt; audit_bits(&memory.shape(), memory.events()) == Verdict::Lawful);
}

static TAKES: [Take; 4] = [
    // scans that read 0 in s0 see the items
    (14, TakeReply::Item(1), TakeBatchReply::Taken(1), &[1]),
    (14, TakeReply::Item(0), TakeBatchReply::Taken(1), &[0]),
    (14, TakeReply::Item(1), TakeBatchReply::Taken(1), &[1]),
    // the next one reads 1 there: the distance from 3 is 4, more than the capacity
    (4, TakeReply::Empty, TakeBatchReply::Empty, &[]),
];

#[test]
fn a_batch_of_three_goes_through_under_one_count_write(rt: HostRuntime) -> Result<(), Fail> {
    let shape = Shape::with_batch(3, 7, 1, 3)?;
    let mut memory = Memory::new(rt.alloc(), shape);
    let mut puts = Puts::new(shape);
    let mut consumer = Consumer::new(shape);
    let mut oracle = Tape::new(&[false, false, false, true]);
    // the write of 0 to s0 stays open
    puts.put_all(&[1, 0, 1]);
    puts.run(&rt, &mut memory, &mut oracle, 11);
    expect_replies(&rt, &puts, &memory, 11, None, None);
    for wanted in TAKES.iter() {
        expect_take(&rt, &mut consumer, &mut memory, &mut oracle, wanted);
    }
    expect_lawful(&rt, &memory, 57, 4);
    Ok(())
}

#[derive(Clone, Copy)]
enum Call<'a> {
    PutAll(&'a [u64]),
    Put(u64),
    Close,
    // the events of the call under way
    Run,
}

// A call, the events so far, and the replies to a put of one item and to one of several.
type Case<'a> = (Call<'a>, usize, Option<PutReply>, Option<BatchReply>);

fn expect_calls(rt: &(impl Abort + AllocGlobal), cases: &[Case]) -> Result<(), Fail> {
    let shape = Shape::with_batch(3, 6, 1, 2)?;
    let mut memory = Memory::new(rt.alloc(), shape);
    let mut puts = Puts::new(shape);
    expect_replies(rt, &puts, &memory, 0, None, None);
    for (call, events, put, batch) in cases {
        puts.make(rt, &mut memory, *call);
        expect_replies(rt, &puts, &memory, *events, *put, *batch);
    }
    expect_lawful(rt, &memory, 20, 0);
    Ok(())
}

static BATCHES: [Case<'static>; 6] = [
    (Call::PutAll(&[1, 0]), 0, None, None),
    (Call::Run, 10, None, Some(BatchReply::Stored(2))),
    (Call::PutAll(&[1, 1]), 10, None, None),
    (Call::Run, 18, None, Some(BatchReply::Stored(1))),
    (Call::PutAll(&[1]), 18, None, None),
    (Call::Run, 20, None, Some(BatchReply::Full)),
];

#[test]
fn a_batch_is_stored_as_far_as_there_is_room(rt: HostRuntime) -> Result<(), Fail> {
    expect_calls(&rt, &BATCHES)
}

static TWO_REPLIES: [Case<'static>; 9] = [
    (Call::PutAll(&[1, 0]), 0, None, None),
    (Call::Run, 10, None, Some(BatchReply::Stored(2))),
    (Call::Put(1), 10, None, None),
    (Call::Run, 18, Some(PutReply::Stored), None),
    (Call::Close, 18, None, None),
    (Call::Run, 20, None, None),
    // after the close each returns at once
    (Call::PutAll(&[1, 1]), 20, None, Some(BatchReply::Closed)),
    (Call::Put(1), 20, Some(PutReply::Closed), None),
    (Call::Close, 20, None, None),
];

// Each of the two replies is that of the last call, if that was a put of its kind.
#[test]
fn a_put_has_one_of_two_replies(rt: HostRuntime) -> Result<(), Fail> {
    expect_calls(&rt, &TWO_REPLIES)
}

static SHAPES: [((u64, u64, u64, u64), Option<ShapeFault>); 7] = [
    ((3, 6, 1, 3), Some(ShapeFault::Modulus)),
    ((3, 7, 1, 3), None),
    ((3, 7, 1, 4), Some(ShapeFault::Batch)),
    ((3, 7, 1, 0), Some(ShapeFault::Batch)),
    ((65, 0, 0, 0), Some(ShapeFault::Capacity)),
    ((64, 129, 64, 64), None),
    ((1, 2, 1, 1), Some(ShapeFault::Modulus)),
];

fn expect_shapes(rt: &impl Abort, cases: &[((u64, u64, u64, u64), Option<ShapeFault>)]) {
    for ((capacity, modulus, width, batch), refused) in cases {
        let shape = Shape::with_batch(*capacity, *modulus, *width, *batch);
        assert_eq!(rt; shape.err(), *refused);
    }
}

#[test]
fn shapes_have_batches(rt: HostRuntime) {
    expect_shapes(&rt, SHAPES.as_slice());
}

static FITTING: [(&[u64], bool); 5] = [
    (&[], true),
    (&[7], true),
    (&[0, 7, 3], true),
    (&[8], false),
    (&[7, 0, 8], false),
];

fn expect_fitting(rt: &impl Abort, shape: &Shape, cases: &[(&[u64], bool)]) {
    for (items, fit) in cases {
        assert_eq!(rt; shape.fits_all(items), *fit);
    }
}

#[test]
fn items_fit_a_shape_together(rt: HostRuntime) -> Result<(), Fail> {
    let shape = Shape::new(3, 7, 3)?;
    expect_fitting(&rt, &shape, FITTING.as_slice());
    Ok(())
}
