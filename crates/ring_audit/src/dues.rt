//! Which events of a side continue the programs after a history.
ghost use Rattle.std.specs.Prelude.{◌≡◌, ◌↔◌, ◌++◌, ◌∷◌, [], List, Some, IsTrue, IfSome, MatchOption, true, false};
ghost use Rattle.bits_core.specs.declared.events.Side.TheVariants.{P, C};
ghost use Rattle.ring_audit.specs.Reading.{BothFollow};
ghost use Rattle.ring_audit.specs.Dues.{AreInOrder, BothStand, GoesOnBehind, IsDueOf, IsNoneOf};

use crate::choices::{Dues, none};
use crate::puts::{PutReader, PutStep};
use crate::takes::{TakeReader, TakeStep};
use bits_core::{Event, Shape, Side};

// The readers of both sides.
#[derive(Drop)]
struct Followers {
    puts: PutReader,
    takes: TakeReader,
}

impl Followers {
    fn new(shape: &Shape) -> Followers
        ensures shapes { (result.puts.shape ≡ shape.now) × (result.takes.consumer.shape ≡ shape.now) }
        ensures stands { BothStand shape.now result.puts result.takes [] }
    {
        Followers {
            puts: PutReader::new(shape),
            takes: TakeReader::new(shape),
        }
    }

    // Reads the next event: whether it is the next one of its side's program.
    fn read(&mut self, event: Event) -> bool
        requires { self.old.takes.consumer.shape ≡ self.old.puts.shape }
        ensures put_shape { self.new.puts.shape ≡ self.old.puts.shape }
        ensures take_shape { self.new.takes.consumer.shape ≡ self.old.takes.consumer.shape }
        ensures goes_on { result ≡ true → (h : List Event) →
            BothStand self.old.puts.shape self.old.puts self.old.takes h →
            BothStand self.old.puts.shape self.new.puts self.new.takes (h ++ event ∷ []) }
        ensures stops { result ≡ false → (h : List Event) →
            BothStand self.old.puts.shape self.old.puts self.old.takes h →
            ¬ BothFollow self.old.puts.shape (h ++ event ∷ []) }
    {
        match event.side {
            Side::P => match self.puts.read(event) {
                PutStep::Stops => false,
                PutStep::GoesOn => true,
                PutStep::Stores(_) => true,
                PutStep::Counts => true,
            },
            Side::C => match self.takes.read(event) {
                TakeStep::Stops => false,
                TakeStep::GoesOn => true,
                TakeStep::Takes => true,
            },
        }
    }

    // The events read so far are of the programs.
    fn follow(&self)
        requires { self.now.takes.consumer.shape ≡ self.now.puts.shape }
        ensures { (h : List Event) → BothStand self.now.puts.shape self.now.puts self.now.takes h →
            BothFollow self.now.puts.shape h }
    {
        self.puts.follow();
        // only for the proof: gives what the readers have read
        let _told = self.takes.told();
    }

    // A copy of these readers.
    fn again(&self) -> Followers
        ensures { result ≡ self.now }
    {
        Followers {
            puts: self.puts.again(),
            takes: self.takes.again(),
        }
    }

    // Whether the event continues the programs after what was read so far.
    fn goes_on(&self, event: Event) -> bool
        requires { self.now.takes.consumer.shape ≡ self.now.puts.shape }
        ensures { (h : List Event) → BothStand self.now.puts.shape self.now.puts self.now.takes h →
            IsTrue result ↔ GoesOnBehind self.now.puts.shape h event }
    {
        let mut readers = self.again();
        let on = readers.read(event);
        readers.follow();
        on
    }

    // The event, if it is of the side and continues the programs after what was read so far.
    fn kept(&self, side: Side, event: Option<Event>) -> Option<Event>
        requires { self.now.takes.consumer.shape ≡ self.now.puts.shape }
        ensures kept { (e : Event) → result ≡ Some e → event ≡ Some e }
        ensures due { (h : List Event) → BothStand self.now.puts.shape self.now.puts self.now.takes h → (e : Event) →
            (result ≡ Some e) ↔ ((event ≡ Some e) × (e.side ≡ side) × GoesOnBehind self.now.puts.shape h e) }
    {
        match event {
            None => None,
            Some(next) => {
                if next.side == side && self.goes_on(next) {
                    Some(next)
                } else {
                    None
                }
            }
        }
    }

    // Events, each of which is of the side and continues the programs after what was read so far.
    fn candidates(&self, side: Side) -> Dues
        requires { self.now.takes.consumer.shape ≡ self.now.puts.shape }
        ensures only { (h : List Event) (e : Event) → BothStand self.now.puts.shape self.now.puts self.now.takes h →
            e.side ≡ side → IsNoneOf result e → ¬ GoesOnBehind self.now.puts.shape h e }
        ensures order { AreInOrder result }
    {
        let mut readers = self.again();
        match side {
            Side::P => readers.puts.candidates(),
            Side::C => readers.takes.candidates(),
        }
    }

    // The events of the side that continue the programs after what was read so far.
    fn dues(&self, side: Side) -> Dues
        requires { self.now.takes.consumer.shape ≡ self.now.puts.shape }
        ensures due { (h : List Event) → BothStand self.now.puts.shape self.now.puts self.now.takes h → (e : Event) →
            IsDueOf result e ↔ ((e.side ≡ side) × GoesOnBehind self.now.puts.shape h e) }
        ensures order { AreInOrder result }
    {
        let some = self.candidates(side);
        Dues {
            first: self.kept(side, some.first),
            second: self.kept(side, some.second),
            third: self.kept(side, some.third),
        }
    }
}

// The readers after these events, if they are of the programs.
fn read_all(shape: &Shape, events: &[Event]) -> Option<Followers>
    ensures shapes { IfSome result (λ readers. (readers.puts.shape ≡ shape.now) ×
        (readers.takes.consumer.shape ≡ shape.now)) }
    ensures stands { MatchOption result ((e : Event) → ¬ GoesOnBehind shape.now events.now e)
        (λ readers. BothStand shape.now readers.puts readers.takes events.now) }
{
    let mut readers = Followers::new(shape);
    for i in 0..events.len() {
        if !readers.read(events[i]) {
            return None;
        }
    }
    Some(readers)
}

/// The events of the side that continue the programs after these: each event of the side with which both sides still follow
/// their programs is returned once, and no other. There are at most three; if these events are not of the programs, or the side
/// has made its last call, there is none. They come in a fixed order: a read's answer 0, and 1; the start of a scan, and of the
/// close; the write of a digit 0, of 1, and of the count; the read of a word, and the write of the count.
///
/// This is about the programs alone: whether the bits permit the answer of a read is for the audit to say. If an
/// audit reports `NotProgram` at a place, pass the events before that place. It goes over them once and takes no
/// memory.
///
/// For example, after no event they are `P read r0`, the start of a put, and `P write x 1`, that of the close. In
/// use: `lamport_ring audit --why`.
pub fn due_behind(shape: &Shape, events: &[Event], side: Side) -> Dues
    ensures due { (e : Event) → IsDueOf result e ↔ ((e.side ≡ side) × GoesOnBehind shape.now events.now e) }
    ensures order { AreInOrder result }
{
    match read_all(shape, events) {
        None => none(),
        Some(readers) => readers.dues(side),
    }
}

/// The events of each side that continue the programs after these, the producer's first, as [`due_behind`] returns
/// them. It goes over the events once for both, and takes no memory.
///
/// In use: the page, where the producer may close and the consumer take after any history.
pub fn dues_of_both(shape: &Shape, events: &[Event]) -> (Dues, Dues)
    ensures puts { (e : Event) → IsDueOf result.0 e ↔ ((e.side ≡ P) × GoesOnBehind shape.now events.now e) }
    ensures takes { (e : Event) → IsDueOf result.1 e ↔ ((e.side ≡ C) × GoesOnBehind shape.now events.now e) }
    ensures order { AreInOrder result.0 × AreInOrder result.1 }
{
    match read_all(shape, events) {
        None => (none(), none()),
        Some(readers) => (readers.dues(Side::P), readers.dues(Side::C)),
    }
}
