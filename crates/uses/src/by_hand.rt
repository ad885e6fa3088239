//! A `Producer` over a `Memory` by hand: the machine yields the next access, the caller begins and ends it in the memory
//! and feeds the answer, until the call is over.
ghost use Rattle.std.specs.Prelude.{◌≡◌, ◌^◌, ◌<◌, None, false, IfOk, IfSome};
ghost use Rattle.bits_core.specs.Lawful.{IsLawful};
ghost use Rattle.bits_core.specs.Shape.{width_of};
ghost use Rattle.ring_core.specs.ProducerState.{due_put};
ghost use Rattle.uses.specs.ByHand.{IsDriven, HasReplied};

use bits_core::laws::{made_leave_none_open, open_changes, open_from_own, subhistory_changes};
use bits_core::{Event, Memory, MemoryFault, Oracle, Shape, Side, Store};
use ring_core::laws::last_bit_is_one;
use ring_core::{Producer, PutReply};
use ring_steps::{Step, next_event};
use std::alloc::Allocator;

/// A memory of the shape and a producer, with nothing done.
pub fn nothing_done<A: Allocator>(alloc: A, shape: Shape) -> (Memory<Vec<Event, A>>, Producer)
    ensures driven { IsDriven result.0 result.1 }
    ensures idle { due_put result.1 ≡ None }
    ensures shape { result.0.shape ≡ shape }
{
    let memory = Memory::new(alloc, shape);
    let producer = Producer::new(shape);
    (memory, producer)
}

/// One event of the producer: the start of the access that is due, or the end of the one that is open, whose answer is fed
/// to the machine. Between two of them the consumer may make events of its own.
pub fn step_producer<S: Store<Event>, O: Oracle>(
    memory: &mut Memory<S>,
    producer: &mut Producer,
    oracle: &mut O,
) -> Result<(), MemoryFault>
    requires driven { IsDriven memory.old producer.old }
    ensures driven { IsDriven memory.new producer.new }
    ensures shape { memory.new.shape ≡ memory.old.shape }
    ensures kind { producer.new.batched ≡ producer.old.batched }
{
    // the laws that the proof needs
    subhistory_changes();
    open_changes();
    open_from_own();
    made_leave_none_open();
    last_bit_is_one();
    let due = producer.next();
    // only for the proof: gives the contract of `expects_one` for the due access
    let _expects = producer.expects_one();
    let step = next_event(memory, Side::P, due, oracle)?;
    // only for the proof: the history is lawful
    let _lawful = memory.events();
    match step {
        Step::Nothing => Ok(()),
        Step::Begin => Ok(()),
        Step::End(answer) => {
            producer.feed(answer);
            Ok(())
        }
    }
}

/// A put by hand, with at most this many events: its reply, if it is over by then.
pub fn put_by_hand<S: Store<Event>, O: Oracle>(
    memory: &mut Memory<S>,
    producer: &mut Producer,
    item: u64,
    oracle: &mut O,
    events: u64,
) -> Result<Option<PutReply>, MemoryFault>
    requires driven { IsDriven memory.old producer.old }
    requires idle { due_put producer.old ≡ None }
    requires fits { item < 2 ^ width_of memory.old.shape }
    ensures shape { memory.new.shape ≡ memory.old.shape }
    ensures driven { IsDriven memory.new producer.new }
    ensures lawful { IfOk result (λ _. IsLawful memory.new.shape memory.new.events) }
    ensures replied { IfOk result (λ r. IfSome r (HasReplied memory.new)) }
{
    producer.put(item);
    'events: for _ in 0..events {
        step_producer(memory, producer, oracle)?;
    }
    // only for the proof: the history is lawful
    let _lawful = memory.events();
    match producer.next() {
        Some(_) => Ok(None),
        None => Ok(producer.reply()),
    }
}
