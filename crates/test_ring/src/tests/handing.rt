// A machine and a memory of its shape: what `next` ensures about the due access is all that the memory requires, so it
// is passed on without a check.
ghost use Rattle.std.specs.Prelude.{◌≡◌, IfSome};
ghost use Rattle.bits_core.specs.Open.{IsOpenRight};

use bits_core::{Access, Always, Event, Memory, MemoryFault, Shape, Side, Store};
use ring_core::{Consumer, Producer, PutReply, TakeReply};
use std::process::Abort;
use std::test::Fail;

#[derive(Drop)]
struct Ring<S: Store<Event>> {
    memory: Memory<S>,
    producer: Producer,
    consumer: Consumer,
    ghost of_producer: { producer.shape ≡ memory.shape },
    ghost of_consumer: { consumer.shape ≡ memory.shape },
}

// Begins the access that is due, which the side may make, if it has none open.
fn begin<S: Store<Event>>(
    memory: &mut Memory<S>,
    side: Side,
    due: Option<Access>,
) -> Result<(), MemoryFault>
    requires right { IfSome due (IsOpenRight memory.old.shape side) }
    ensures shape { memory.new.shape ≡ memory.old.shape }
{
    if memory.pending(side).is_some() {
        return Ok(());
    }
    match due {
        Some(Access::Read(bit)) => memory.begin_read(side, bit),
        Some(Access::Write(bit, value)) => memory.begin_write(side, bit, value),
        None => Ok(()),
    }
}

impl<S: Store<Event>> Ring<S> {
    // The access that the side has due.
    fn due(&self, side: Side) -> Option<Access>
        ensures right { IfSome result (IsOpenRight self.now.memory.shape side) }
    {
        match side {
            Side::P => self.producer.next(),
            Side::C => self.consumer.next(),
        }
    }

    // Ends the access that the side has open: its answer, and false for a write.
    fn end(&mut self, side: Side) -> Result<bool, MemoryFault> {
        match self.memory.pending(side) {
            Some(Access::Read(_)) => self.memory.end_read(side, &mut Always(false)),
            Some(Access::Write(_, _)) => {
                self.memory.end_write(side)?;
                Ok(false)
            }
            None => Ok(false),
        }
    }

    fn answer_producer(&mut self, answer: bool) {
        if self.producer.next().is_some() && (answer || !self.producer.expects_one()) {
            self.producer.feed(answer);
        }
    }

    fn answer_consumer(&mut self, answer: bool) {
        if self.consumer.next().is_some() && (answer || !self.consumer.expects_one()) {
            self.consumer.feed(answer);
        }
    }

    // A complete call of the side.
    fn run(&mut self, side: Side) -> Result<(), MemoryFault> {
        for _ in 0..40 {
            let due = self.due(side);
            begin(&mut self.memory, side, due)?;
            let answer = self.end(side)?;
            match side {
                Side::P => self.answer_producer(answer),
                Side::C => self.answer_consumer(answer),
            }
        }
        Ok(())
    }
}

fn expect_replies<S: Store<Event>>(
    rt: &impl Abort,
    ring: &Ring<S>,
    events: usize,
    put: Option<PutReply>,
    take: Option<TakeReply>,
) {
    assert!(rt; ring.memory.events().len() == events);
    assert!(rt; ring.producer.reply() == put);
    assert!(rt; ring.consumer.reply() == take);
}

#[test]
fn a_memory_takes_each_access(rt: HostRuntime) -> Result<(), Fail> {
    let shape = Shape::new(1, 3, 1)?;
    let mut ring = Ring {
        memory: Memory::new(rt.alloc(), shape),
        producer: Producer::new(shape),
        consumer: Consumer::new(shape),
    };
    ring.producer.put(1);
    ring.run(Side::P)?;
    expect_replies(&rt, &ring, 8, Some(PutReply::Stored), None);
    if ring.consumer.next().is_none() {
        ring.consumer.take();
    }
    ring.run(Side::C)?;
    let one = Some(TakeReply::Item(1));
    expect_replies(&rt, &ring, 18, Some(PutReply::Stored), one);
    Ok(())
}
