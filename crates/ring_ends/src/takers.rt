//! The consumer's end.
ghost use Rattle.std.specs.Prelude.{◌≡◌, ◌⊎◌, ◌+◌, ◌*◌, ◌<◌, ◌≤◌, true, false, Some, List, length, take, drop, IfSome, IfNone};
ghost use Rattle.bits_core.specs.declared.events.Event.{Event};
ghost use Rattle.bits_core.specs.Made.{Made};
ghost use Rattle.ring_core.specs.declared.replies.TakeReply.TheVariants.{Closed};
ghost use Rattle.ring_core.specs.declared.replies.TakeBatchReply.TheVariants as batch_reply;
ghost use Rattle.bits_core.specs.Shape.{take_batch_of};
ghost use Rattle.ring_core.specs.Lengths.{longest_taking};
ghost use Rattle.ring_core.specs.Takes.{Takes};
ghost use Rattle.ring_core.specs.ConsumerState.{is_taking};
ghost use Rattle.ring_core.specs.ConsumerCalls.{ConsumerStands, take_batch_reply};
ghost use Rattle.ring_seats.specs.Steppers.{AreAnswered, Grows, IsAskedOnce, IsSameEnd, StandsAs};
ghost use Rattle.bits_core.specs.declared.events.Side.TheVariants.{C};
ghost use Rattle.ring_ends.specs.Ends.{HasTakenAll, HasTakenOf, HasTakePart, number_brought, wants_next, whole_take, takes_whole};
ghost use Rattle.ring_ends.specs.Machines.{CallBegins, consuming};

use crate::calls::{finish, step};
use crate::ends::TakeEnd;
use crate::machines::SideMachine;
use crate::rings::Pad;
use bits_core::{Access, Oracle, Shape};
use ring_core::{Consumer, TakeBatchReply, TakeReply, TakeScan, TakeWord};
use ring_seats::{Flickering, Stepper};
use std::marker::Model;

/// The consumer's end of a ring. Its calls `take` and `take_all` are those of [`TakeEnd`](crate::TakeEnd); the step calls
/// here make one atomic step of such a call each.
///
/// To a contract it is its list of events, what it knows, and whether a take is under way with the list when that
/// began and how many items it asks for. It takes no memory and never waits.
///
/// In use: `uses::steps::step_taker`.
#[derive(Drop)]
#[repr(C)]
pub struct Taker<'a, O: Oracle + Drop> {
    pub(crate) before: Pad,
    pub(crate) stepper: Stepper<'a, Flickering>,
    pub(crate) machine: Consumer,
    // how many events of the take under way the list has, or 0 if none is under way
    pub(crate) steps: u64,
    pub(crate) oracle: O,
    pub(crate) after: Pad,
}

impl<'a, O: Oracle + Drop> Model for Taker<'a, O> {
    ghost use Rattle.ring_core.specs.ConsumerState.{is_taking};
    ghost use Rattle.ring_ends.specs.Ends.{TakerState, whole_take};
    ghost use Rattle.ring_ends.specs.Machines.{IsMarked, IsMachine, consuming, without_last, longest_while};

    ghost Value = { TakerState O };

    ghost view = { λ p. record {
      end = p.stepper;
      taking = is_taking p.machine;
      wanted = p.machine.wanted;
      start = without_last p.steps p.stepper.list;
      oracle = p.oracle;
    } };

    ghost invariant = { λ p. IsMachine consuming p.stepper p.machine
        (whole_take (is_taking p.machine) p.stepper.list (without_last p.steps p.stepper.list)) ×
        IsMarked p.steps p.stepper.list (longest_while p.machine.shape (is_taking p.machine) p.machine.wanted) };
}

impl SideMachine for Consumer {
    ghost use Rattle.std.specs.Prelude.{◌≡◌, ◌-◌, true, length};
    ghost use Rattle.bits_core.specs.Shape.{modulus_of};
    ghost use Rattle.register_core.specs.UnaryState.{due_writes};
    ghost use Rattle.ring_core.specs.declared.consumers.Stage.TheVariants.{Loading, Counting};
    ghost use Rattle.ring_core.specs.ConsumerState.{IsConsumerButScan, IsConsumerButWord, is_taking};
    ghost use Rattle.ring_ends.specs.Machines.{consuming};

    type Scan = TakeScan;

    type Word = TakeWord;

    ghost kind = { consuming };

    ghost state = { λ m. m };

    ghost scanned = { λ s. s };

    ghost worded = { λ w. w };

    ghost IsScanOf = { λ m s. (is_taking m ≡ true) × IsConsumerButScan m s };

    ghost IsWordOf = { λ m w. (m.stage ≡ Loading) × IsConsumerButWord m w };

    ghost IsCounting = { λ m. m.stage ≡ Counting };

    ghost reads_left = { λ s. modulus_of s.shape - s.scan.zeros };

    ghost digits_left = { λ w. w.word.width - w.word.read };

    ghost writes_left = { λ m. length (due_writes m.row) };

    #[inline(always)]
    fn laws() {}

    #[inline(always)]
    fn next(&self) -> Option<Access> {
        // only for the proof: gives the contract of `expects_one` for the due access
        let _expects = self.expects_one();
        self.next()
    }

    #[inline(always)]
    fn feed(&mut self, answer: bool) {
        self.feed(answer);
    }

    #[inline(always)]
    fn scan(&self) -> Option<TakeScan> {
        self.scan()
    }

    #[inline(always)]
    fn scan_next(scan: &TakeScan) -> Access {
        // only for the proof: gives the contract of `expects_one` for the due read
        let _expects = scan.expects_one();
        scan.next()
    }

    #[inline(always)]
    fn scan_zero(scan: &mut TakeScan) {
        scan.zero();
    }

    #[inline(always)]
    fn end_scan(&mut self, scan: TakeScan) {
        self.go_on_with_scan(scan);
        self.feed(true);
    }

    #[inline(always)]
    fn word(&self) -> Option<TakeWord> {
        self.word()
    }

    #[inline(always)]
    fn word_next(word: &TakeWord) -> Access {
        word.next()
    }

    #[inline(always)]
    fn is_last(word: &TakeWord) -> bool {
        word.is_last()
    }

    #[inline(always)]
    fn word_feed(word: &mut TakeWord, answer: bool) {
        word.feed(answer);
    }

    #[inline(always)]
    fn end_word(&mut self, word: TakeWord, answer: bool) {
        self.go_on_with_word(word);
        self.feed_word(answer);
    }

    #[inline(always)]
    fn is_counting(&self) -> bool {
        self.is_counting()
    }

    #[inline(always)]
    fn feed_count(&mut self, answer: bool) {
        self.feed_count(answer);
    }
}

// Starts a take of at most `most` items if none is under way.
#[inline(always)]
fn begin_take(machine: &mut Consumer, most: u64)
    requires stands { (calls : Takes) × (made : List Made) × ConsumerStands machine.old calls made }
    requires some { 1 ≤ most }
    requires few { most ≤ take_batch_of machine.old.shape }
    ensures few { is_taking machine.old ≡ true → machine.old.wanted ≤ take_batch_of machine.old.shape }
    ensures begins { (calls : Takes) (made : List Made) → ConsumerStands machine.old calls made →
        CallBegins consuming machine.old machine.new calls made
        (wants_next (is_taking machine.old) machine.old.wanted most) }
{
    if machine.next().is_none() {
        machine.take_all(most);
    }
}

// Puts the items into the first places.
fn put_first(items: &[u64], into: &mut [u64])
    requires room { length items.now ≤ length into.old }
    ensures long { length into.new ≡ length into.old }
    ensures first { take (length items.now) into.new ≡ items.now }
    ensures others { drop (length items.now) into.new ≡ drop (length items.now) into.old }
{
    into[..items.len()].copy_from_slice(items);
}

// The reply of the last take, with its items in the first places. `None` during a take, with the places unchanged.
fn bring(machine: &Consumer, into: &mut [u64]) -> Option<TakeBatchReply>
    requires { IfSome (take_batch_reply machine.now.reply machine.now.items)
        (λ _. length machine.now.items ≤ length into.old) }
    ensures told { result ≡ take_batch_reply machine.now.reply machine.now.items }
    ensures long { length into.new ≡ length into.old }
    ensures none { IfNone result (into.new ≡ into.old) }
    ensures first { IfSome result (λ _. take (length machine.now.items) into.new ≡ machine.now.items) }
    ensures others { IfSome result (λ _. drop (length machine.now.items) into.new ≡ drop (length machine.now.items)
        into.old) }
{
    let reply = machine.batch_reply()?;
    put_first(machine.items(), into);
    Some(reply)
}

impl<'a, O: Oracle + Drop> Taker<'a, O> {
    /// One step of a take: one event of its accesses. A take of one starts if none is under way, and the reply comes with
    /// its last step. Once a take has returned `Closed`, each later one does so at once, with no step.
    pub fn step_take(&mut self) -> Option<TakeReply>
        ensures same { IsSameEnd self.old.end self.new.end }
        ensures lawful { StandsAs C self.new.end }
        ensures one { ((result ≡ Some Closed) × (self.new.end ≡ self.old.end)) ⊎
            ((e : Event) × Grows self.old.end self.new.end e) }
        ensures none { IfNone result ((self.new.taking ≡ true) × (takes_whole self.new ≡ takes_whole self.old) ×
            HasTakePart self.new.end.ring.shape (wants_next self.old.taking self.old.wanted 1) (takes_whole self.new)
            self.new.end.list) }
        ensures some { IfSome result (λ r. (self.new.taking ≡ false) ×
            HasTakenOf self.new.end.ring.shape (wants_next self.old.taking self.old.wanted 1) (takes_whole self.old)
            self.new.end.list r) }
        ensures wanted { self.new.taking ≡ true → self.new.wanted ≡ wants_next self.old.taking self.old.wanted 1 }
        ensures few { length self.new.end.list ≤ length (takes_whole self.old) + 2 * longest_taking
            self.new.end.ring.shape (wants_next self.old.taking self.old.wanted 1) }
        ensures oracle { IsAskedOnce O.answers self.old.oracle self.new.oracle }
        ensures answered { AreAnswered self.old.end self.new.end (O.answers self.old.oracle)
            (O.answers self.new.oracle) }
    {
        begin_take(&mut self.machine, 1);
        step(
            &mut self.stepper,
            &mut self.machine,
            &mut self.steps,
            &mut self.oracle,
        );
        self.machine.reply()
    }

    /// One step of a take of at most as many items as there are places, in the same way: they are written only with the
    /// reply. There are 1 to as many places as the shape's take batch, and as many until the reply.
    pub fn step_take_all(&mut self, into: &mut [u64]) -> Option<TakeBatchReply>
        requires some { 1 ≤ length into.old }
        requires few { length into.old ≤ take_batch_of self.old.end.ring.shape }
        requires wanted { self.old.taking ≡ true → self.old.wanted ≡ length into.old }
        ensures same { IsSameEnd self.old.end self.new.end }
        ensures lawful { StandsAs C self.new.end }
        ensures one { ((result ≡ Some batch_reply.Closed) × (self.new.end ≡ self.old.end)) ⊎
            ((e : Event) × Grows self.old.end self.new.end e) }
        ensures none { IfNone result ((self.new.taking ≡ true) × (self.new.wanted ≡ length into.old) ×
            (into.new ≡ into.old) × (takes_whole self.new ≡ takes_whole self.old) ×
            HasTakePart self.new.end.ring.shape (length into.old) (takes_whole self.new) self.new.end.list) }
        ensures some { IfSome result (λ r. (self.new.taking ≡ false) ×
            HasTakenAll self.new.end.ring.shape (length into.old) (takes_whole self.old) self.new.end.list r into.new) }
        ensures within { IfSome result (λ r. number_brought r ≤ length into.old) }
        ensures long { length into.new ≡ length into.old }
        ensures others { IfSome result (λ r. drop (number_brought r) into.new ≡ drop (number_brought r) into.old) }
        ensures few { length self.new.end.list ≤ length (takes_whole self.old) + 2 * longest_taking
            self.new.end.ring.shape (length into.old) }
        ensures oracle { IsAskedOnce O.answers self.old.oracle self.new.oracle }
        ensures answered { AreAnswered self.old.end self.new.end (O.answers self.old.oracle)
            (O.answers self.new.oracle) }
    {
        begin_take(&mut self.machine, into.len() as u64);
        step(
            &mut self.stepper,
            &mut self.machine,
            &mut self.steps,
            &mut self.oracle,
        );
        bring(&self.machine, into)
    }
}

impl<'a, O: Oracle + Drop> TakeEnd for Taker<'a, O> {
    ghost use Rattle.std.specs.Prelude.{◌≡◌, false};
    ghost use Rattle.ring_seats.specs.Steppers.{AreAnswered};

    ghost end = { λ p. p.end };

    ghost idle = { λ p. p.taking ≡ false };

    ghost answered = { λ p q. AreAnswered p.end q.end (O.answers p.oracle) (O.answers q.oracle) };

    fn shape(&self) -> Shape {
        self.stepper.shape()
    }

    fn take(&mut self) -> TakeReply {
        begin_take(&mut self.machine, 1);
        finish(&mut self.stepper, &mut self.machine, &mut self.oracle);
        self.machine.reply().unwrap()
    }

    fn take_all(&mut self, into: &mut [u64]) -> TakeBatchReply {
        begin_take(&mut self.machine, into.len() as u64);
        finish(&mut self.stepper, &mut self.machine, &mut self.oracle);
        bring(&self.machine, into).unwrap()
    }
}
