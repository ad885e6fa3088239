//! The producer's end.
ghost use Rattle.std.specs.Prelude.{◌≡◌, ◌⊎◌, ◌+◌, ◌*◌, ◌^◌, ◌<◌, ◌≤◌, true, false, Some, None, List, [], ◌∷◌, length, IfSome, IfNone};
ghost use Rattle.bits_core.specs.declared.events.Event.{Event};
ghost use Rattle.bits_core.specs.Made.{Made};
ghost use Rattle.bits_core.specs.Shape.{width_of};
ghost use Rattle.ring_core.specs.declared.replies.PutReply.TheVariants.{Closed};
ghost use Rattle.ring_core.specs.declared.replies.BatchReply.TheVariants as batch_reply;
ghost use Rattle.ring_core.specs.Lengths.{longest_put};
ghost use Rattle.ring_core.specs.Puts.{Puts, IsBatch};
ghost use Rattle.ring_core.specs.ProducerState.{Put, Close, call_of};
ghost use Rattle.ring_core.specs.ProducerCalls.{ProducerStands, longest_of};
ghost use Rattle.ring_seats.specs.Steppers.{AreAnswered, Grows, IsAskedOnce, IsSameEnd, StandsAs};
ghost use Rattle.bits_core.specs.declared.events.Side.TheVariants.{P};
ghost use Rattle.ring_ends.specs.Ends.{HasPut, HasPutAll, HasPutPart, HasClosed, whole_put, puts_whole};
ghost use Rattle.ring_ends.specs.Machines.{CallBegins, producing};

use crate::calls::{finish, step};
use crate::ends::PutEnd;
use crate::machines::SideMachine;
use crate::rings::Pad;
use bits_core::{Access, Oracle, Shape};
use ring_core::{BatchReply, Producer, PutReply, PutScan, PutWord};
use ring_seats::{Flickering, Stepper};
use std::marker::Model;

/// The producer's end of a ring. Its calls `put`, `put_all` and `close` are those of [`PutEnd`](crate::PutEnd); the step
/// calls here make one atomic step of such a call each.
///
/// To a contract it is its list of events, what it knows, and the call under way with the list when that began. Its
/// calls take no memory and never wait.
///
/// In use: `uses::steps::step_putter`.
#[derive(Drop)]
#[repr(C)]
pub struct Putter<'a, O: Oracle + Drop> {
    pub(crate) before: Pad,
    pub(crate) stepper: Stepper<'a, Flickering>,
    pub(crate) machine: Producer,
    // how many events of the call under way the list has, or 0 if none is under way
    pub(crate) steps: u64,
    pub(crate) oracle: O,
    pub(crate) after: Pad,
}

impl<'a, O: Oracle + Drop> Model for Putter<'a, O> {
    ghost use Rattle.ring_core.specs.ProducerState.{call_of};
    ghost use Rattle.ring_ends.specs.Ends.{PutterState, whole_put};
    ghost use Rattle.ring_ends.specs.Machines.{IsMarked, IsMachine, producing, without_last, longest_at};

    ghost Value = { PutterState O };

    ghost view = { λ p. record {
      end = p.stepper;
      call = call_of p.machine;
      batched = p.machine.batched;
      start = without_last p.steps p.stepper.list;
      oracle = p.oracle;
    } };

    ghost invariant = { λ p. IsMachine producing p.stepper p.machine
        (whole_put (call_of p.machine) p.stepper.list (without_last p.steps p.stepper.list)) ×
        IsMarked p.steps p.stepper.list (longest_at p.machine.shape (call_of p.machine)) };
}

impl SideMachine for Producer {
    ghost use Rattle.std.specs.Prelude.{◌≡◌, ◌-◌, length};
    ghost use Rattle.bits_core.specs.Shape.{modulus_of};
    ghost use Rattle.register_core.specs.UnaryState.{due_writes};
    ghost use Rattle.ring_core.specs.declared.producers.Stage.TheVariants.{Scanning, Storing, Counting};
    ghost use Rattle.ring_core.specs.ProducerState.{IsProducerButScan, IsProducerButWord};
    ghost use Rattle.ring_ends.specs.Machines.{producing};

    type Scan = PutScan;

    type Word = PutWord;

    ghost kind = { producing };

    ghost state = { λ m. m };

    ghost scanned = { λ s. s };

    ghost worded = { λ w. w };

    ghost IsScanOf = { λ m s. (m.stage ≡ Scanning) × IsProducerButScan m s };

    ghost IsWordOf = { λ m w. (m.stage ≡ Storing) × IsProducerButWord m w };

    ghost IsCounting = { λ m. m.stage ≡ Counting };

    ghost reads_left = { λ s. modulus_of s.shape - s.scan.zeros };

    ghost digits_left = { λ w. w.word.width - w.word.written };

    ghost writes_left = { λ m. length (due_writes m.row) };

    #[inline(always)]
    fn laws() {}

    #[inline(always)]
    fn next(&self) -> Option<Access> {
        // only for the proof: gives the contract of `expects_one` for the due access
        let _expects = self.expects_one();
        self.next()
    }

    #[inline(always)]
    fn feed(&mut self, answer: bool) {
        self.feed(answer);
    }

    #[inline(always)]
    fn scan(&self) -> Option<PutScan> {
        self.scan()
    }

    #[inline(always)]
    fn scan_next(scan: &PutScan) -> Access {
        // only for the proof: gives the contract of `expects_one` for the due read
        let _expects = scan.expects_one();
        scan.next()
    }

    #[inline(always)]
    fn scan_zero(scan: &mut PutScan) {
        scan.zero();
    }

    #[inline(always)]
    fn end_scan(&mut self, scan: PutScan) {
        self.go_on_with_scan(scan);
        self.feed_scan(true);
    }

    #[inline(always)]
    fn word(&self) -> Option<PutWord> {
        self.word()
    }

    #[inline(always)]
    fn word_next(word: &PutWord) -> Access {
        word.next()
    }

    #[inline(always)]
    fn is_last(word: &PutWord) -> bool {
        word.is_last()
    }

    #[inline(always)]
    fn word_feed(word: &mut PutWord, answer: bool) {
        word.feed(answer);
    }

    #[inline(always)]
    fn end_word(&mut self, word: PutWord, answer: bool) {
        self.go_on_with_word(word);
        self.feed_word(answer);
    }

    #[inline(always)]
    fn is_counting(&self) -> bool {
        self.is_counting()
    }

    #[inline(always)]
    fn feed_count(&mut self, answer: bool) {
        self.feed_count(answer);
    }
}

// Starts a put if no call is under way.
fn begin_put(machine: &mut Producer, item: u64)
    requires stands { (calls : Puts) × (made : List Made) × ProducerStands machine.old calls made }
    requires fits { item < 2 ^ width_of machine.old.shape }
    requires call { (call_of machine.old ≡ None) ⊎
        ((call_of machine.old ≡ Some (Put (item ∷ []))) × (machine.old.batched ≡ false)) }
    ensures kind { machine.new.batched ≡ false }
    ensures begins { (calls : Puts) (made : List Made) → ProducerStands machine.old calls made →
        CallBegins producing machine.old machine.new calls made (Put (item ∷ [])) }
{
    if machine.next().is_none() {
        machine.put(item);
    }
}

// Starts a put of items if no call is under way.
#[inline(always)]
fn begin_put_all(machine: &mut Producer, items: &[u64])
    requires stands { (calls : Puts) × (made : List Made) × ProducerStands machine.old calls made }
    requires batch { IsBatch machine.old.shape items.now }
    requires call { (call_of machine.old ≡ None) ⊎
        ((call_of machine.old ≡ Some (Put items.now)) × (machine.old.batched ≡ true)) }
    ensures kind { machine.new.batched ≡ true }
    ensures begins { (calls : Puts) (made : List Made) → ProducerStands machine.old calls made →
        CallBegins producing machine.old machine.new calls made (Put items.now) }
{
    if machine.next().is_none() {
        machine.put_all(items);
    }
}

// Starts a close if no call is under way.
fn begin_close(machine: &mut Producer)
    requires stands { (calls : Puts) × (made : List Made) × ProducerStands machine.old calls made }
    requires call { (call_of machine.old ≡ None) ⊎ (call_of machine.old ≡ Some Close) }
    ensures begins { (calls : Puts) (made : List Made) → ProducerStands machine.old calls made →
        CallBegins producing machine.old machine.new calls made Close }
{
    if machine.next().is_none() {
        machine.close();
    }
}

impl<'a, O: Oracle + Drop> Putter<'a, O> {
    /// One step of a put of the item: one event of its accesses. The put starts if no call is under way, and the reply
    /// comes with its last step. After a close it returns `Closed` at once, with no step. The item has to fit the
    /// width, and to be the same until the reply.
    pub fn step_put(&mut self, item: u64) -> Option<PutReply>
        requires fits { item < 2 ^ width_of self.old.end.ring.shape }
        requires call { (self.old.call ≡ None) ⊎
            ((self.old.call ≡ Some (Put (item ∷ []))) × (self.old.batched ≡ false)) }
        ensures same { IsSameEnd self.old.end self.new.end }
        ensures lawful { StandsAs P self.new.end }
        ensures one { ((result ≡ Some Closed) × (self.new.end ≡ self.old.end)) ⊎
            ((e : Event) × Grows self.old.end self.new.end e) }
        ensures none { IfNone result ((self.new.call ≡ Some (Put (item ∷ []))) × (self.new.batched ≡ false) ×
            (puts_whole self.new ≡ puts_whole self.old) ×
            HasPutPart self.new.end.ring.shape (Put (item ∷ [])) (puts_whole self.new) self.new.end.list) }
        ensures some { IfSome result (λ r. (self.new.call ≡ None) ×
            HasPut self.new.end.ring.shape item (puts_whole self.old) self.new.end.list r) }
        ensures few { length self.new.end.list ≤ length (puts_whole self.old) + 2 * longest_put
            self.new.end.ring.shape }
        ensures oracle { IsAskedOnce O.answers self.old.oracle self.new.oracle }
        ensures answered { AreAnswered self.old.end self.new.end (O.answers self.old.oracle)
            (O.answers self.new.oracle) }
    {
        begin_put(&mut self.machine, item);
        step(
            &mut self.stepper,
            &mut self.machine,
            &mut self.steps,
            &mut self.oracle,
        );
        self.machine.reply()
    }

    /// One step of a put of the items under one count write, in the same way. There are 1 to as many items as the
    /// shape's batch, each has to fit the width, and they are the same until the reply.
    pub fn step_put_all(&mut self, items: &[u64]) -> Option<BatchReply>
        requires batch { IsBatch self.old.end.ring.shape items.now }
        requires call { (self.old.call ≡ None) ⊎ ((self.old.call ≡ Some (Put items.now)) × (self.old.batched ≡ true)) }
        ensures same { IsSameEnd self.old.end self.new.end }
        ensures lawful { StandsAs P self.new.end }
        ensures one { ((result ≡ Some batch_reply.Closed) × (self.new.end ≡ self.old.end)) ⊎
            ((e : Event) × Grows self.old.end self.new.end e) }
        ensures none { IfNone result ((self.new.call ≡ Some (Put items.now)) × (self.new.batched ≡ true) ×
            (puts_whole self.new ≡ puts_whole self.old) ×
            HasPutPart self.new.end.ring.shape (Put items.now) (puts_whole self.new) self.new.end.list) }
        ensures some { IfSome result (λ r. (self.new.call ≡ None) ×
            HasPutAll self.new.end.ring.shape items.now (puts_whole self.old) self.new.end.list r) }
        ensures few { length self.new.end.list ≤ length (puts_whole self.old) + 2 * longest_of self.new.end.ring.shape
            items.now }
        ensures oracle { IsAskedOnce O.answers self.old.oracle self.new.oracle }
        ensures answered { AreAnswered self.old.end self.new.end (O.answers self.old.oracle)
            (O.answers self.new.oracle) }
    {
        begin_put_all(&mut self.machine, items);
        step(
            &mut self.stepper,
            &mut self.machine,
            &mut self.steps,
            &mut self.oracle,
        );
        self.machine.batch_reply()
    }

    /// One step of a close, which starts if no call is under way; true with the last step. A second close is over at
    /// once, with no step.
    pub fn step_close(&mut self) -> bool
        requires call { (self.old.call ≡ None) ⊎ (self.old.call ≡ Some Close) }
        ensures same { IsSameEnd self.old.end self.new.end }
        ensures lawful { StandsAs P self.new.end }
        ensures one { ((result ≡ true) × (self.new.end ≡ self.old.end)) ⊎
            ((e : Event) × Grows self.old.end self.new.end e) }
        ensures goes_on { result ≡ false → (self.new.call ≡ Some Close) × (puts_whole self.new ≡ puts_whole self.old) ×
            HasPutPart self.new.end.ring.shape Close (puts_whole self.new) self.new.end.list }
        ensures over { result ≡ true → (self.new.call ≡ None) ×
            HasClosed self.new.end.ring.shape (puts_whole self.old) self.new.end.list }
        ensures few { length self.new.end.list ≤ length (puts_whole self.old) + 2 }
        ensures oracle { IsAskedOnce O.answers self.old.oracle self.new.oracle }
        ensures answered { AreAnswered self.old.end self.new.end (O.answers self.old.oracle)
            (O.answers self.new.oracle) }
    {
        begin_close(&mut self.machine);
        step(
            &mut self.stepper,
            &mut self.machine,
            &mut self.steps,
            &mut self.oracle,
        );
        self.machine.next().is_none()
    }
}

impl<'a, O: Oracle + Drop> PutEnd for Putter<'a, O> {
    ghost use Rattle.std.specs.Prelude.{◌≡◌, None};
    ghost use Rattle.ring_seats.specs.Steppers.{AreAnswered};

    ghost end = { λ p. p.end };

    ghost idle = { λ p. p.call ≡ None };

    ghost answered = { λ p q. AreAnswered p.end q.end (O.answers p.oracle) (O.answers q.oracle) };

    fn shape(&self) -> Shape {
        self.stepper.shape()
    }

    fn put(&mut self, item: u64) -> PutReply {
        begin_put(&mut self.machine, item);
        finish(&mut self.stepper, &mut self.machine, &mut self.oracle);
        self.machine.reply().unwrap()
    }

    fn put_all(&mut self, items: &[u64]) -> BatchReply {
        begin_put_all(&mut self.machine, items);
        finish(&mut self.stepper, &mut self.machine, &mut self.oracle);
        self.machine.batch_reply().unwrap()
    }

    fn close(&mut self) {
        begin_close(&mut self.machine);
        finish(&mut self.stepper, &mut self.machine, &mut self.oracle);
    }
}
