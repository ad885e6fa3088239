//! The audit of a history: of its bits and of the programs of its two sides.
ghost use Rattle.std.specs.Prelude.{◌≡◌, ◌↔◌, ◌⊎◌, ◌++◌, ◌∷◌, [], ℕ, ◌+◌, List, Bool, true, false, IfOk, OnErr, OnOk, IsTrue, ◌<◌, ◌≤◌, length, take};
ghost use Rattle.bits_core.specs.Lawful.{IsLawful};
ghost use Rattle.ring_audit.specs.Audit.{FitsIn, HasTooFewSlots, IsFinding, IsFound, IsOfPrograms, SaysLinearizable, SaysSentence, statement, statement_in, tells_lawful};
ghost use Rattle.ring_audit.specs.Reading.{NeedsRoom, ReadingStands, BothFollow, reading};

use crate::faults::AuditFault;
use crate::puts::{PutReader, PutStep};
use crate::takes::{TakeReader, TakeStep};
use bits_core::{BitAuditor, Event, Filled, Kind, Shape, Side, Store};
use std::alloc::Allocator;

/// What an audit finds: a finding.
///
/// In use: `uses::findings::left_inside`.
#[derive(Drop)]
pub enum Finding<A: Allocator> {
    /// The history is lawful and both sides follow their programs, according to which these items
    /// were put and taken, and a take returned Closed or not.
    Lawful {
        put: Vec<u64, A>,
        taken: Vec<u64, A>,
        told: bool,
    },
    /// The event at `place`, counted from 0, is the first at which that fails.
    Fault {
        place: usize,
        kind: Kind,
    },
}

/// What an audit finds, with the items in the first slots of two caller-supplied slices.
///
/// In use: the page, which has no allocator.
#[derive(Clone, Copy, PartialEq, Eq, Debug)]
pub enum Found {
    /// The history is lawful and both sides follow their programs, according to which these numbers of
    /// items were put and taken, and a take returned Closed or not.
    Lawful {
        put: usize,
        taken: usize,
        told: bool,
    },
    /// The event at `place`, counted from 0, is the first at which that fails.
    Fault {
        place: usize,
        kind: Kind,
    },
}

// One more item, if the store has room for it.
fn push<S: Store<u64>>(store: &mut S, item: u64) -> Result<(), AuditFault>
    ensures pushed { OnOk result (S.items store.new ≡ S.items store.old ++ item ∷ []) }
    ensures full { OnErr result (S.room store.old ≤ length (S.items store.old)) }
    ensures kept { S.room store.new ≡ S.room store.old }
    ensures slots { (first : S) → S.same_slots first store.old → S.same_slots first store.new }
{
    store.reserve()?;
    store.add(item);
    Ok(())
}

// These items more, if the store has room for them.
fn push_all<S: Store<u64>>(store: &mut S, items: &[u64]) -> Result<(), AuditFault>
    ensures pushed { OnOk result (S.items store.new ≡ S.items store.old ++ items.now) }
    ensures full { OnErr result (S.room store.old < length (S.items store.old) + length items.now) }
    ensures kept { S.room store.new ≡ S.room store.old }
    ensures slots { (first : S) → S.same_slots first store.old → S.same_slots first store.new }
{
    for i in 0..items.len() {
        push(store, items[i])?;
    }
    Ok(())
}

// The readers of both sides, and how many of the items stored are counted.
#[derive(Drop)]
struct Readers {
    puts: PutReader,
    takes: TakeReader,
    counted: usize,
}

impl Readers {
    fn new(shape: &Shape) -> Readers
        ensures put_shape { result.puts.shape ≡ shape.now }
        ensures take_shape { result.takes.consumer.shape ≡ shape.now }
        ensures stands { ReadingStands shape.now (reading result.puts result.takes result.counted [] []) [] }
    {
        Readers {
            puts: PutReader::new(shape),
            takes: TakeReader::new(shape),
            counted: 0,
        }
    }

    // Reads the next event: whether it is the next one of its side's program. The items stored are added to one
    // store, and those taken to the other.
    fn read<S: Store<u64>>(
        &mut self,
        event: Event,
        put: &mut S,
        taken: &mut S,
    ) -> Result<bool, AuditFault>
        requires { self.old.takes.consumer.shape ≡ self.old.puts.shape }
        ensures put_shape { self.new.puts.shape ≡ self.old.puts.shape }
        ensures take_shape { self.new.takes.consumer.shape ≡ self.old.takes.consumer.shape }
        ensures goes_on { IfOk result (λ on. on ≡ true → (h : List Event) →
            ReadingStands self.old.puts.shape (reading self.old.puts self.old.takes self.old.counted (S.items put.old)
            (S.items taken.old)) h
            → ReadingStands self.old.puts.shape (reading self.new.puts self.new.takes self.new.counted (S.items put.new)
            (S.items taken.new)) (h ++ event ∷ [])) }
        ensures stops { IfOk result (λ on. on ≡ false → (h : List Event) →
            ReadingStands self.old.puts.shape (reading self.old.puts self.old.takes self.old.counted (S.items put.old)
            (S.items taken.old)) h
            → ¬ BothFollow self.old.puts.shape (h ++ event ∷ [])) }
        ensures refused { OnErr result ((h : List Event) →
            ReadingStands self.old.puts.shape (reading self.old.puts self.old.takes self.old.counted (S.items put.old)
            (S.items taken.old)) h
            → NeedsRoom self.old.puts.shape self.new.puts self.new.takes self.new.counted (S.room put.old)
            (S.room taken.old) (h ++ event ∷ [])) }
        ensures full { OnErr result ((S.room put.old ≤ length (S.items put.old)) ⊎
            ((h : List Event) → ReadingStands self.old.puts.shape
            (reading self.old.puts self.old.takes self.old.counted (S.items put.old) (S.items taken.old)) h
            → S.room taken.old < length (h ++ event ∷ []))) }
        ensures few { IfOk result (λ on. length (S.items put.new) ≤ length (S.items put.old) + 1) }
        ensures rooms { (S.room put.new ≡ S.room put.old) × (S.room taken.new ≡ S.room taken.old) }
        ensures put_slots { (first : S) → S.same_slots first put.old → S.same_slots first put.new }
        ensures taken_slots { (first : S) → S.same_slots first taken.old → S.same_slots first taken.new }
    {
        match event.side {
            Side::P => match self.puts.read(event) {
                PutStep::Stops => Ok(false),
                PutStep::GoesOn => Ok(true),
                PutStep::Stores(item) => {
                    push(put, item)?;
                    Ok(true)
                }
                PutStep::Counts => {
                    self.counted = put.as_slice().len();
                    Ok(true)
                }
            },
            Side::C => match self.takes.read(event) {
                TakeStep::Stops => Ok(false),
                TakeStep::GoesOn => Ok(true),
                TakeStep::Takes => {
                    push_all(taken, self.takes.items())?;
                    Ok(true)
                }
            },
        }
    }

    // Whether a take returned Closed. The events read so far are of the programs.
    fn told(&self) -> bool
        requires { self.now.takes.consumer.shape ≡ self.now.puts.shape }
        ensures follow { (h : List Event) (put taken : List ℕ) →
            ReadingStands self.now.puts.shape (reading self.now.puts self.now.takes self.now.counted put taken) h →
            BothFollow self.now.puts.shape h }
        ensures found { (h : List Event) (put taken : List ℕ) → IsLawful self.now.puts.shape h →
            ReadingStands self.now.puts.shape (reading self.now.puts self.now.takes self.now.counted put taken) h
            → IsFound self.now.puts.shape h (take self.now.counted put) taken result }
    {
        self.puts.follow();
        self.takes.told()
    }
}

/// Whether the events are a lawful history of safe bits of the shape whose two sides follow their programs, with
/// the items put and taken and whether a take returned Closed; and if they are not, the least place up to and
/// including which they are not, with the kind of the fault: `NotProgram` if the events up to and including it
/// are lawful, otherwise the kind that [`audit_bits`](bits_core::audit_bits) reports.
///
/// A history has one finding ([`one_finding`](crate::laws::one_finding)). Reported lists satisfy the main theorem: the items
/// taken are a prefix of the items put, and once a take has returned Closed they are all of them; and its calls are
/// linearizable.
///
/// It goes over the events once, takes memory for the two lists only, and returns `OutOfMemory` if a growth was refused.
///
/// In use: `uses::audits::is_of_ring`.
pub fn audit<A: Allocator + Copy>(
    alloc: A,
    shape: &Shape,
    events: &[Event],
) -> Result<Finding<A>, AuditFault>
    ensures found { IfOk result (λ found. IsFinding shape.now events.now (statement found)) }
    ensures exact { IfOk result (λ found. IsTrue (tells_lawful (statement found)) ↔ IsOfPrograms shape.now events.now) }
    ensures sentence { IfOk result (λ found. SaysSentence shape.now events.now (statement found)) }
    ensures linearizable { IfOk result (λ found. SaysLinearizable shape.now events.now (statement found)) }
{
    let found = find(alloc, shape, events)?;
    Ok(found)
}

// The finding on the events, with the items in lists.
fn find<A: Allocator + Copy>(
    alloc: A,
    shape: &Shape,
    events: &[Event],
) -> Result<Finding<A>, AuditFault>
    ensures { IfOk result (λ found. IsFinding shape.now events.now (statement found)) }
{
    let mut put = Vec::new(alloc);
    let mut taken = Vec::new(alloc);
    match find_in(shape, events, &mut put, &mut taken)? {
        Found::Lawful {
            put: counted,
            taken: ended,
            told,
        } => {
            put.truncate(counted);
            taken.truncate(ended);
            Ok(Finding::Lawful { put, taken, told })
        }
        Found::Fault { place, kind } => Ok(Finding::Fault { place, kind }),
    }
}

// The finding on the events, with the items in slots.
fn find_filled<'a>(
    shape: &Shape,
    events: &[Event],
    put: &mut Filled<'a, u64>,
    taken: &mut Filled<'a, u64>,
) -> Result<Found, AuditFault>
    requires no_put { put.old.used ≡ 0 }
    requires none_taken { taken.old.used ≡ 0 }
    ensures found { IfOk result (λ found. IsFinding shape.now events.now
        (statement_in put.new.slots.now taken.new.slots.now found)) }
    ensures exact { IfOk result (λ found. IsTrue (tells_lawful
        (statement_in put.new.slots.now taken.new.slots.now found)) ↔ IsOfPrograms shape.now events.now) }
    ensures sentence { IfOk result (λ found. SaysSentence shape.now events.now
        (statement_in put.new.slots.now taken.new.slots.now found)) }
    ensures within { IfOk result (λ found. FitsIn (length put.new.slots.now) (length taken.new.slots.now) found) }
    ensures refused { OnErr result (HasTooFewSlots shape.now events.now (length put.new.slots.now)
        (length taken.new.slots.now)) }
    ensures few { OnErr result ((length put.new.slots.now < length events.now) ⊎
        (length taken.new.slots.now < length events.now)) }
    ensures put_slots { put.new.slots.ghost_name ≡ put.old.slots.ghost_name }
    ensures taken_slots { taken.new.slots.ghost_name ≡ taken.old.slots.ghost_name }
{
    let found = find_in(shape, events, put, taken)?;
    Ok(found)
}

/// The audit of [`audit`], with the items in the first slots of two caller-supplied slices: it returns how many
/// there are in each. It takes no memory.
///
/// `OutOfMemory` means that a slice is too short: some prefix of the events is lawful and of the programs, and by it
/// more items were taken than there are slots for them, or the items put plus a batch are more than there are slots
/// for them, since the items of a batch are kept from the end of their word on, and count as put once their count is
/// written. As many slots in each as there are events are always enough.
///
/// The first slots may hold items whatever is returned: after a fault those of the events before it.
///
/// In use: the page, which has no allocator.
#[tactic(auto, using(crate::proofs::Sentences::says_linearizable, ring_core::proofs::LawLemmas::ring_is_linearizable))]
pub fn audit_into(
    shape: &Shape,
    events: &[Event],
    put: &mut [u64],
    taken: &mut [u64],
) -> Result<Found, AuditFault>
    ensures found { IfOk result (λ found. IsFinding shape.now events.now (statement_in put.new taken.new found)) }
    ensures exact { IfOk result (λ found. IsTrue (tells_lawful (statement_in put.new taken.new found)) ↔
        IsOfPrograms shape.now events.now) }
    ensures sentence { IfOk result (λ found. SaysSentence shape.now events.now (statement_in put.new taken.new found)) }
    ensures linearizable { IfOk result (λ found. SaysLinearizable shape.now events.now
        (statement_in put.new taken.new found)) }
    // There are no more items than slots.
    ensures within { IfOk result (λ found. FitsIn (length put.new) (length taken.new) found) }
    // It is refused only if there are too few slots.
    ensures refused { OnErr result (HasTooFewSlots shape.now events.now (length put.new) (length taken.new)) }
    ensures few { OnErr result ((length put.new < length events.now) ⊎ (length taken.new < length events.now)) }
{
    let mut put_list = Filled::new(put);
    let mut taken_list = Filled::new(taken);
    let found = find_filled(shape, events, &mut put_list, &mut taken_list)?;
    Ok(found)
}

// The finding on the events. The items stored and those taken are added to these stores, which are empty.
fn find_in<S: Store<u64>>(
    shape: &Shape,
    events: &[Event],
    put: &mut S,
    taken: &mut S,
) -> Result<Found, AuditFault>
    requires no_put { S.items put.old ≡ [] }
    requires none_taken { S.items taken.old ≡ [] }
    ensures found { IfOk result (λ found. IsFinding shape.now events.now
        (statement_in (S.items put.new) (S.items taken.new) found)) }
    ensures within { IfOk result (λ found. FitsIn (length (S.items put.new)) (length (S.items taken.new)) found) }
    ensures refused { OnErr result (HasTooFewSlots shape.now events.now (S.room put.new) (S.room taken.new)) }
    ensures few { OnErr result ((S.room put.new < length events.now) ⊎ (S.room taken.new < length events.now)) }
    ensures rooms { (S.room put.new ≡ S.room put.old) × (S.room taken.new ≡ S.room taken.old) }
    ensures put_slots { (first : S) → S.same_slots first put.old → S.same_slots first put.new }
    ensures taken_slots { (first : S) → S.same_slots first taken.old → S.same_slots first taken.new }
{
    let mut bits = BitAuditor::new(shape);
    let mut readers = Readers::new(shape);
    readers.told();
    for i in 0..events.len() {
        if let Some(kind) = bits.feed(events[i]) {
            return Ok(Found::Fault { place: i, kind });
        }
        let on = readers.read(events[i], put, taken);
        readers.told();
        if !on? {
            return Ok(Found::Fault {
                place: i,
                kind: Kind::NotProgram,
            });
        }
    }
    let told = readers.told();
    Ok(Found::Lawful {
        put: readers.counted,
        taken: taken.as_slice().len(),
        told,
    })
}
