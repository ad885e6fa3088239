//! The parts of a take under way that may proceed separately from the consumer: a scan and a word read; and how its replies are built.
ghost use Rattle.std.specs.Prelude.{◌≡◌, ◌≢◌, ℕ, ◌+◌, ◌<◌, true, false, Some, List, [], ◌∷◌, ◌++◌, ◌↔◌, IsTrue, length, suc, take};
ghost use Rattle.bits_core.specs.declared.events.Bit.TheVariants.{Cell};
ghost use Rattle.bits_core.specs.declared.events.Side.TheVariants.{C};
ghost use Rattle.bits_core.specs.Made.{Made, answered};
ghost use Rattle.bits_core.specs.Open.{IsOpenRight};
ghost use Rattle.ring_core.specs.ConsumerCalls.{items_reply, take_batch_reply};

use crate::consumers::Consumer;
use crate::replies::{TakeBatchReply, TakeReply};
use bits_core::{Access, Bit};
use register_core::{UnaryScan, WordReader};
use std::marker::Model;
use std::snapshot::Snapshot;

/// A scan of a take under way, separate from its consumer. To a contract it is that consumer with this scan.
///
/// Its reads come one after the other, so a caller makes them in a loop of its own, without checking how far the
/// take has come.
///
/// In use: a take of `ring_run`, whose scans are loops of loads.
#[derive(Drop)]
pub struct TakeScan {
    pub(crate) scan: UnaryScan,
    pub(crate) of: Snapshot<Consumer>,
}

impl Model for TakeScan {
    ghost use Rattle.std.specs.Prelude.{◌≡◌, ◌⊎◌};
    ghost use Rattle.ring_core.specs.declared.consumers.Stage.TheVariants.{Scanning, Rescanning};
    ghost use Rattle.ring_core.specs.ConsumerState.{ConsumerState, IsConsumer};

    ghost Value = { ConsumerState };

    ghost view = { λ s. record s.of.value { scan = s.scan } };

    ghost invariant = { λ s. ((s.of.value.stage ≡ Scanning) ⊎ (s.of.value.stage ≡ Rescanning)) ×
        IsConsumer (record s.of.value { scan = s.scan }) };
}

impl TakeScan {
    ghost use Rattle.ring_core.specs.Calls.{LastBitIsDue, EndsInZeros};
    ghost use Rattle.ring_core.specs.Takes.{Takes, take_program};
    ghost use Rattle.ring_core.specs.Lengths.{longest_taking};
    ghost use Rattle.ring_core.specs.ConsumerState.{due_take, is_taking};
    ghost use Rattle.register_core.specs.ScanState.{scan_read};
    ghost use Rattle.bits_core.specs.Shape.{modulus_of};
    ghost use Rattle.ring_core.specs.ConsumerCalls.{ConsumerStands, TakeGoesOn, ConsumerMoves};

    /// The read that is due, as [`Consumer::next`] returns it.
    #[inline(always)]
    pub fn next(&self) -> Access
        ensures due { due_take self.now ≡ Some result }
        ensures below { self.now.scan.zeros < modulus_of self.now.shape }
        ensures right { IsOpenRight self.now.shape C result }
        ensures goes_on { (calls : Takes) (made : List Made) → ConsumerStands self.now calls made →
            (is_taking self.now ≡ true) × TakeGoesOn self.now.shape self.now.wanted calls made result }
        ensures bounded { (calls : Takes) (made : List Made) → ConsumerStands self.now calls made →
            is_taking self.now ≡ true →
            length made < length (take_program self.now.shape calls) + longest_taking self.now.shape self.now.wanted }
    {
        match self.scan.next() {
            Some(access) => access,
            None => unreachable!(),
        }
    }

    /// Whether the last bit of the producer's count is due, as [`Consumer::expects_one`] returns it.
    #[inline(always)]
    pub fn expects_one(&self) -> bool
        ensures due { IsTrue result ↔ LastBitIsDue self.now.shape C (due_take self.now) }
        ensures stands { (calls : Takes) (made : List Made) → ConsumerStands self.now calls made → IsTrue result →
            EndsInZeros self.now.shape C made }
    {
        self.scan.expects_one()
    }

    /// Records that the due read returned 0. It must not be of the last bit. A 1 is fed to the consumer, once it has
    /// continued with this scan.
    #[inline(always)]
    pub fn zero(&mut self)
        requires not_last { LastBitIsDue self.old.shape C (due_take self.old) → false ≡ true }
        ensures state { self.new ≡ record self.old { scan = scan_read self.old.scan false } }
        ensures stands { ConsumerMoves self.old false self.new }
    {
        self.scan.feed(false);
    }
}

/// The word read of a take under way, separate from its consumer. To a contract it is that consumer with this word read.
///
/// Its reads come one after the other, so a caller makes them in a loop of its own, without checking how far the
/// take has come.
///
/// In use: a take of `ring_run`.
#[derive(Drop)]
pub struct TakeWord {
    pub(crate) word: WordReader,
    pub(crate) of: Snapshot<Consumer>,
}

impl Model for TakeWord {
    ghost use Rattle.std.specs.Prelude.{◌≡◌};
    ghost use Rattle.ring_core.specs.declared.consumers.Stage.TheVariants.{Loading};
    ghost use Rattle.ring_core.specs.ConsumerState.{ConsumerState, IsConsumer};

    ghost Value = { ConsumerState };

    ghost view = { λ w. record w.of.value { word = w.word } };

    ghost invariant = { λ w. (w.of.value.stage ≡ Loading) × IsConsumer (record w.of.value { word = w.word }) };
}

impl TakeWord {
    ghost use Rattle.ring_core.specs.Calls.{LastBitIsDue};
    ghost use Rattle.ring_core.specs.Takes.{Takes, take_program};
    ghost use Rattle.ring_core.specs.Lengths.{longest_taking};
    ghost use Rattle.ring_core.specs.ConsumerState.{due_take, is_taking};
    ghost use Rattle.register_core.specs.WordState.{read_digit};
    ghost use Rattle.ring_core.specs.ConsumerCalls.{ConsumerStands, TakeGoesOn, ConsumerMoves};

    /// The read that is due, as [`Consumer::next`] returns it.
    #[inline(always)]
    pub fn next(&self) -> Access
        ensures due { due_take self.now ≡ Some result }
        ensures below { self.now.word.read < self.now.word.width }
        ensures right { IsOpenRight self.now.shape C result }
        ensures not_last { LastBitIsDue self.now.shape C (due_take self.now) → false ≡ true }
        ensures goes_on { (calls : Takes) (made : List Made) → ConsumerStands self.now calls made →
            (is_taking self.now ≡ true) × TakeGoesOn self.now.shape self.now.wanted calls made result }
        ensures bounded { (calls : Takes) (made : List Made) → ConsumerStands self.now calls made →
            is_taking self.now ≡ true →
            length made < length (take_program self.now.shape calls) + longest_taking self.now.shape self.now.wanted }
    {
        match self.word.next() {
            Some(access) => access,
            None => unreachable!(),
        }
    }

    /// Whether the read that is due is the word's last.
    #[inline(always)]
    pub fn is_last(&self) -> bool
        ensures { IsTrue result ↔ (suc self.now.word.read ≡ self.now.word.width) }
    {
        self.word.is_last()
    }

    /// Records that the due read returned `answer`. It must not be the word's last read, which is fed to the consumer,
    /// once it has continued with this word read.
    #[inline(always)]
    pub fn feed(&mut self, answer: bool)
        requires not_last { suc self.old.word.read ≢ self.old.word.width }
        ensures state { self.new ≡ record self.old { word = read_digit self.old.word answer } }
        ensures stands { ConsumerMoves self.old answer self.new }
    {
        self.word.feed(answer);
    }
}

// Keeps one more item, at this index.
#[inline(always)]
pub(crate) fn keep_one(kept: &mut [u64; 64], at: usize, item: u64)
    requires room { at < 64 }
    ensures kept { take (at + 1) kept.new ≡ take at kept.old ++ item ∷ [] }
{
    kept[at] = item;
}

// Whether the access reads the first digit of a cell.
#[inline(always)]
pub(crate) fn is_first_digit(access: Option<Access>) -> bool
    ensures { IsTrue result ↔ ((j : ℕ) × (access ≡ Some (Access.Read (Cell j 0)))) }
{
    match access {
        Some(Access::Read(Bit::Cell(_, 0))) => true,
        _ => false,
    }
}

// The reply to a take of these items: the first of them. No take takes none.
#[inline(always)]
pub(crate) fn item_reply(items: &[u64]) -> TakeReply
    ensures { result ≡ items_reply items.now }
{
    match items.first() {
        Some(&item) => TakeReply::Item(item),
        None => TakeReply::Item(0),
    }
}

// The reply to a take of these items, by their number.
#[inline(always)]
pub(crate) fn by_number(reply: TakeReply, items: &[u64]) -> TakeBatchReply
    ensures { Some result ≡ take_batch_reply (Some reply) items.now }
{
    match reply {
        TakeReply::Item(_) => TakeBatchReply::Taken(items.len() as u64),
        TakeReply::Empty => TakeBatchReply::Empty,
        TakeReply::Closed => TakeBatchReply::Closed,
    }
}
