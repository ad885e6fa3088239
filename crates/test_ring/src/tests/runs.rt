//! Both machines of a ring over a memory, and what is expected of them.
ghost use Rattle.std.specs.Prelude.{◌≡◌};

use bits_core::{Access, Event, Memory, Oracle, Shape, Side, Store, Verdict, audit_bits};
use ring_core::{Consumer, Producer, PutReply, TakeReply};
use ring_steps::{Step, next_event};
use std::alloc::AllocGlobal;
use std::process::Abort;

// Both machines of a ring, and what is still to be put and taken.
#[derive(Drop)]
pub(crate) struct Ring<'a> {
    pub shape: Shape,
    pub producer: Producer,
    pub consumer: Consumer,
    pub items: &'a [u64],
    pub takes: usize,
    pub closes: bool,
    // the replies so far
    pub stored: usize,
    pub full: u64,
    pub taken: usize,
    pub empty: u64,
    pub told: bool,
    // whether each item taken is the next one put
    pub in_order: bool,
    ghost of_producer: { producer.shape ≡ shape },
    ghost of_consumer: { consumer.shape ≡ shape },
}

impl<'a> Ring<'a> {
    pub fn new(shape: &Shape, items: &'a [u64], takes: usize, closes: bool) -> Ring<'a> {
        Ring {
            shape: *shape,
            producer: Producer::new(*shape),
            consumer: Consumer::new(*shape),
            items,
            takes,
            closes,
            stored: 0,
            full: 0,
            taken: 0,
            empty: 0,
            told: false,
            in_order: true,
        }
    }

    // Begins a put of the item, unless a call is under way.
    pub fn put(&mut self, item: u64) {
        if self.producer.next().is_none() && self.shape.fits(item) {
            self.producer.put(item);
        }
    }

    // Begins the close, and a take, likewise.
    pub fn close(&mut self) {
        if self.producer.next().is_none() {
            self.producer.close();
        }
    }

    pub fn take(&mut self) {
        if self.consumer.next().is_none() {
            self.consumer.take();
        }
    }

    // Begins the producer's next call, if there is one.
    pub fn begin_producer(&mut self) {
        match self.items.get(self.stored) {
            Some(item) => self.put(*item),
            None if self.closes && !self.producer.is_closed() => self.close(),
            None => {}
        }
    }

    // Feeds the producer an answer, and counts the reply.
    pub fn feed_producer(&mut self, answer: bool) {
        if self.producer.next().is_some() && (answer || !self.producer.expects_one()) {
            self.producer.feed(answer);
            match self.producer.reply() {
                Some(PutReply::Stored) => self.stored = self.stored.saturating_add(1),
                Some(PutReply::Full) => self.full = self.full.saturating_add(1),
                _ => {}
            }
        }
    }

    // One event of the producer, which begins its next call if it is idle; nothing once it is done.
    pub fn step_producer<S: Store<Event>, O: Oracle>(
        &mut self,
        rt: &impl Abort,
        memory: &mut Memory<S>,
        oracle: &mut O,
    ) {
        self.begin_producer();
        let step = next_event(memory, Side::P, self.producer.next(), oracle);
        if let Step::End(answer) = step.expect(rt, "memory for the event") {
            self.feed_producer(answer);
        }
    }

    // Feeds the consumer an answer, and counts the reply.
    pub fn feed_consumer(&mut self, answer: bool) {
        if self.consumer.next().is_some() && (answer || !self.consumer.expects_one()) {
            self.consumer.feed(answer);
            match self.consumer.reply() {
                Some(TakeReply::Item(item)) => {
                    self.in_order = self.in_order && self.items.get(self.taken) == Some(&item);
                    self.taken = self.taken.saturating_add(1);
                }
                Some(TakeReply::Empty) => self.empty = self.empty.saturating_add(1),
                Some(TakeReply::Closed) => self.told = true,
                None => {}
            }
        }
    }

    // One event of the consumer, which begins its next take if it is idle; nothing once it is done.
    pub fn step_consumer<S: Store<Event>, O: Oracle>(
        &mut self,
        rt: &impl Abort,
        memory: &mut Memory<S>,
        oracle: &mut O,
    ) {
        if self.taken < self.takes && !self.told {
            self.take();
        }
        let step = next_event(memory, Side::C, self.consumer.next(), oracle);
        if let Step::End(answer) = step.expect(rt, "memory for the event") {
            self.feed_consumer(answer);
        }
    }

    pub fn step<S: Store<Event>, O: Oracle>(
        &mut self,
        rt: &impl Abort,
        memory: &mut Memory<S>,
        oracle: &mut O,
        side: Side,
    ) {
        match side {
            Side::P => self.step_producer(rt, memory, oracle),
            Side::C => self.step_consumer(rt, memory, oracle),
        }
    }

    // This many steps of each side in turn.
    pub fn run<S: Store<Event>, O: Oracle>(
        &mut self,
        rt: &impl Abort,
        memory: &mut Memory<S>,
        oracle: &mut O,
        schedule: &[(Side, u64)],
    ) {
        for (side, count) in schedule {
            for _ in 0..*count {
                self.step(rt, memory, oracle, *side);
            }
        }
    }
}

// The result of a run: how many events, items stored and taken, Full and Empty replies, whether a take
// returned Closed, and how many reads were overlapped.
#[derive(Clone, Copy, PartialEq, Eq, Debug)]
pub(crate) struct Report {
    pub events: usize,
    pub stored: usize,
    pub taken: usize,
    pub full: u64,
    pub empty: u64,
    pub told: bool,
    pub flickers: u64,
}

impl Report {
    // The same, with this many Full or Empty replies, with Closed, and with this many reads overlapped.
    pub fn full(self, full: u64) -> Report {
        Report { full, ..self }
    }

    pub fn empty(self, empty: u64) -> Report {
        Report { empty, ..self }
    }

    pub fn told(self) -> Report {
        Report { told: true, ..self }
    }

    pub fn flickers(self, flickers: u64) -> Report {
        Report { flickers, ..self }
    }
}

pub fn expect_report<S: Store<Event>>(
    rt: &impl Abort,
    ring: &Ring,
    memory: &Memory<S>,
    report: Report,
) {
    let made = Report {
        events: memory.events().len(),
        stored: ring.stored,
        taken: ring.taken,
        full: ring.full,
        empty: ring.empty,
        told: ring.told,
        flickers: memory.flickers(),
    };
    assert_eq!(rt; made, report);
    assert!(rt; ring.in_order);
    assert!(rt; audit_bits(&memory.shape(), memory.events()) == Verdict::Lawful);
}

// This many steps of each side in turn lead to the report.
pub fn expect_run<S: Store<Event>, O: Oracle>(
    rt: &impl Abort,
    ring: &mut Ring,
    memory: &mut Memory<S>,
    oracle: &mut O,
    schedule: &[(Side, u64)],
    report: Report,
) {
    ring.run(rt, memory, oracle, schedule);
    expect_report(rt, ring, memory, report);
}

// The same over a new memory.
pub fn expect_new_run<O: Oracle>(
    rt: &(impl Abort + AllocGlobal),
    ring: &mut Ring,
    oracle: &mut O,
    schedule: &[(Side, u64)],
    report: Report,
) {
    let mut memory = Memory::new(rt.alloc(), ring.shape);
    expect_run(rt, ring, &mut memory, oracle, schedule, report);
}

pub fn expect_put(rt: &impl Abort, ring: &Ring, reply: Option<PutReply>) {
    assert_eq!(rt; ring.producer.reply(), reply);
}

pub fn expect_take(rt: &impl Abort, ring: &Ring, reply: Option<TakeReply>) {
    assert_eq!(rt; ring.consumer.reply(), reply);
}

// The last replies, with no call under way.
pub fn expect_replies(
    rt: &impl Abort,
    ring: &Ring,
    put: Option<PutReply>,
    take: Option<TakeReply>,
) {
    expect_idle(rt, ring);
    expect_put(rt, ring, put);
    expect_take(rt, ring, take);
}

pub fn expect_due(rt: &impl Abort, due: Option<Access>, wanted: Option<Access>) {
    assert_eq!(rt; due, wanted);
}

// Neither side has an access to make.
pub fn expect_idle(rt: &impl Abort, ring: &Ring) {
    expect_due(rt, ring.producer.next(), None);
    expect_due(rt, ring.consumer.next(), None);
}

// The report of a run in which nothing was refused and no read was overlapped.
pub fn plain(events: usize, stored: usize, taken: usize) -> Report {
    Report {
        events,
        stored,
        taken,
        full: 0,
        empty: 0,
        told: false,
        flickers: 0,
    }
}
