//! The producer's machine.
ghost use Rattle.std.specs.Prelude.{◌≡◌, ◌≢◌, ◌⊎◌, ℕ, ◌+◌, ◌^◌, ◌<◌, ◌≤◌, true, false, Option, Some, None, List, [], ◌∷◌, ◌++◌, ◌↔◌, IsTrue, IfSome, IfNone, length, suc, ⊤, take};
ghost use Rattle.bits_core.specs.declared.events.Side.TheVariants.{P};
ghost use Rattle.bits_core.specs.Shape.{capacity_of, modulus_of, width_of};
ghost use Rattle.bits_core.specs.Made.{Made, answered};
ghost use Rattle.bits_core.specs.Open.{IsOpenRight};
ghost use Rattle.ring_core.specs.Counts as counts;

use crate::counts::{distance, has_room, past_in};
use crate::producer_parts::{PutScan, PutWord};
use crate::replies::{BatchReply, PutReply};
use bits_core::{Access, Bit, Shape, Side};
use register_core::{UnaryScan, UnaryWriter, WordWriter};
use std::alloc::AllocError;
use std::marker::Model;
use std::snapshot::Snapshot;

/// How many of `offered` items a producer that has put `n` stores, if the consumer's count `d` leaves room.
#[inline(always)]
fn fitting(shape: &Shape, n: u64, d: u64, offered: usize) -> usize
    requires below { (n < modulus_of shape.now) × (d < modulus_of shape.now) }
    requires room { counts.LeavesRoom shape.now n d }
    requires some { 1 ≤ offered }
    ensures some { 1 ≤ result }
    ensures few { result ≤ offered }
    ensures room { counts.LeavesRoomFor shape.now n d result }
    ensures all { (result ≡ offered) ⊎ (counts.distance (modulus_of shape.now) n d + result ≡ capacity_of shape.now) }
{
    let room = shape.capacity() - distance(n, d, shape.modulus());
    if room < offered as u64 {
        room as usize
    } else {
        offered
    }
}

/// Keeps these items in place.
#[inline(always)]
fn keep(kept: &mut [u64; 64], items: &[u64])
    requires few { length items.now ≤ 64 }
    ensures kept { take (length items.now) kept.new ≡ items.now }
{
    kept[..items.len()].copy_from_slice(items);
}

/// How far the call under way has come.
#[derive(Clone, Copy, Debug)]
enum Stage {
    Idle,
    Scanning,
    Storing,
    Counting,
    Closing,
}

/// The side that puts items (Lamport 1977): it yields the accesses of its calls one by one. It takes no memory.
///
/// In use: `uses::by_hand::step_producer`.
#[derive(Debug, Drop)]
pub struct Producer {
    shape: Shape,
    count: u64,
    cell: u64,
    stage: Stage,
    scan: UnaryScan,
    word: WordWriter,
    row: UnaryWriter,
    closed: bool,
    items: [u64; 64],
    offered: usize,
    most: usize,
    index: usize,
    batched: bool,
    reply: Option<BatchReply>,
}

impl Model for Producer {
    ghost use Rattle.std.specs.Prelude.{◌≤◌};
    ghost use Rattle.ring_core.specs.ProducerState.{ProducerState, IsProducer};

    ghost Value = { ProducerState };

    ghost use Rattle.ring_core.specs.Insides.{producer_view};

    ghost view = { producer_view };

    ghost invariant = { λ p. IsProducer (producer_view p) × (p.offered ≤ 64) × (p.most ≤ 64) × (p.index ≤ 64) };
}

// Written by hand: a derived one clones each field, which makes the proof ten times as expensive.
impl Clone for Producer {
    ghost is_clone = { λ x y. y ≡ x };

    ghost is_infallible = { λ _. ⊤ };

    fn clone(&self) -> Result<Self, AllocError> {
        Ok(Producer {
            row: self.row.clone()?,
            ..*self
        })
    }
}

impl Producer {
    ghost use Rattle.register_core.specs.Row.{RowWrite};
    ghost use Rattle.register_core.specs.UnaryState.{due_writes};
    ghost use Rattle.ring_core.specs.Calls.{LastBitIsDue, EndsInZeros};
    ghost use Rattle.ring_core.specs.declared.producers.Stage.TheVariants.{Scanning, Storing, Counting};
    ghost use Rattle.ring_core.specs.declared.replies.BatchReply.{BatchReply};
    ghost use Rattle.ring_core.specs.declared.replies.BatchReply.TheVariants.{Closed};
    ghost use Rattle.ring_core.specs.Puts.{IsBatch, Puts, put_program};
    ghost use Rattle.ring_core.specs.ProducerCalls.{new_producer, no_puts, ProducerStands, PutGoesOn, ProducerMoves, ProducerStays, IsReplyToCall, longest, closes_with};
    ghost use Rattle.ring_core.specs.ProducerState.{Call, Put, Close, IsProducerButScan, IsProducerButWord, due_put, call_of, item_reply, put_reply, batch_reply};

    /// The producer of a ring of this shape that has made no access.
    pub fn new(shape: Shape) -> Self
        ensures state { result ≡ new_producer shape }
        ensures stands { ProducerStands result no_puts [] }
    {
        Producer {
            shape,
            count: 0,
            cell: 0,
            stage: Stage::Idle,
            scan: UnaryScan::new(&shape, Side::P),
            word: WordWriter::new(&shape, 0, 0),
            row: UnaryWriter::new(&shape, Side::P),
            closed: false,
            items: [0; 64],
            offered: 0,
            most: 0,
            index: 0,
            batched: false,
            reply: None,
        }
    }

    /// Starts a put of an item that fits the shape. No access may be due. The accesses made are unchanged.
    /// After a close it returns `Closed` at once, with no access, and nothing else changes.
    pub fn put(&mut self, item: u64)
        requires idle { due_put self.old ≡ None }
        requires fits { item < 2 ^ width_of self.old.shape }
        ensures shape { self.new.shape ≡ self.old.shape }
        ensures begun { self.old.closed ≡ false → (call_of self.new ≡ Some (Put (item ∷ []))) ×
            (self.new.closed ≡ false) }
        ensures kind { self.new.batched ≡ false }
        ensures refused { self.old.closed ≡ true → self.new ≡ record self.old { batched = false; reply = Some Closed } }
        ensures stands { ProducerStays self.old self.new }
    {
        self.batched = false;
        self.offer(&[item]);
    }

    /// Starts a put of items under one count write: at least one item and at most the shape's batch, all of
    /// which fit the shape. It stores those for which there is room, starting with the first. No access may be
    /// due. The accesses made are unchanged. After a close it returns `Closed` at once, with no access, and
    /// nothing else changes.
    #[inline(always)]
    pub fn put_all(&mut self, items: &[u64])
        requires idle { due_put self.old ≡ None }
        requires batch { IsBatch self.old.shape items.now }
        ensures shape { self.new.shape ≡ self.old.shape }
        ensures begun { self.old.closed ≡ false → (call_of self.new ≡ Some (Put items.now)) ×
            (self.new.closed ≡ false) }
        ensures kind { self.new.batched ≡ true }
        ensures refused { self.old.closed ≡ true → self.new ≡ record self.old { batched = true; reply = Some Closed } }
        ensures stands { ProducerStays self.old self.new }
    {
        self.batched = true;
        self.offer(items);
    }

    #[inline(always)]
    fn offer(&mut self, items: &[u64])
        requires idle { due_put self.old ≡ None }
        requires batch { IsBatch self.old.shape items.now }
        requires few { length items.now ≤ 64 }
        ensures shape { self.new.shape ≡ self.old.shape }
        ensures kind { self.new.batched ≡ self.old.batched }
        ensures begun { self.old.closed ≡ false → (call_of self.new ≡ Some (Put items.now)) ×
            (self.new.closed ≡ false) }
        ensures refused { self.old.closed ≡ true → self.new ≡ record self.old { reply = Some Closed } }
        ensures stands { ProducerStays self.old self.new }
    {
        if self.closed {
            self.reply = Some(BatchReply::Closed);
        } else {
            self.scan = UnaryScan::new(&self.shape, Side::P);
            self.word = WordWriter::new(&self.shape, self.cell, items[0]);
            keep(&mut self.items, items);
            self.offered = items.len();
            self.index = 0;
            self.reply = None;
            self.stage = Stage::Scanning;
        }
    }

    /// Starts a close. No access may be due. The accesses made are unchanged. A second close has no access and
    /// changes nothing but the reply.
    pub fn close(&mut self)
        requires { due_put self.old ≡ None }
        ensures shape { self.new.shape ≡ self.old.shape }
        ensures begun { self.old.closed ≡ false → call_of self.new ≡ Some Close }
        ensures again { self.old.closed ≡ true → self.new ≡ record self.old { reply = None } }
        ensures stands { ProducerStays self.old self.new }
    {
        self.reply = None;
        if !self.closed {
            self.closed = true;
            self.stage = Stage::Closing;
        }
    }

    /// The access that is due, or `None` if no call is under way. It is of a bit of the shape, by the side that may
    /// make it, so a memory of that shape accepts it. Whatever it returns, except for a 0 when
    /// [`expects_one`](Self::expects_one), the call under way continues with it;
    /// [`calls_are_short`](crate::laws::calls_are_short) bounds the accesses of a call.
    #[inline(always)]
    pub fn next(&self) -> Option<Access>
        ensures due { result ≡ due_put self.now }
        ensures right { IfSome result (IsOpenRight self.now.shape P) }
        ensures rest { (calls : Puts) (made : List Made) → ProducerStands self.now calls made → result ≡ None →
            (call_of self.now ≡ None) × (made ≡ put_program self.now.shape calls) }
        ensures goes_on { (calls : Puts) (made : List Made) (access : Access) → ProducerStands self.now calls made →
            result ≡ Some access → (c : Call) × (call_of self.now ≡ Some c) ×
            PutGoesOn self.now.shape calls c made access }
        ensures bounded { (calls : Puts) (made : List Made) (c : Call) → ProducerStands self.now calls made →
            call_of self.now ≡ Some c →
            length made < length (put_program self.now.shape calls) + longest self.now.shape c }
    {
        match self.stage {
            Stage::Idle => None,
            Stage::Scanning => self.scan.next(),
            Stage::Storing => self.word.next(),
            Stage::Counting => self.row.next(),
            Stage::Closing => Some(Access::Write(Bit::X, true)),
        }
    }

    /// Records that the due access was made and returned `answer`; for a write it is ignored. When
    /// [`expects_one`](Self::expects_one), it must be 1.
    #[inline(always)]
    pub fn feed(&mut self, answer: bool)
        requires due { due_put self.old ≢ None }
        requires one { LastBitIsDue self.old.shape P (due_put self.old) → answer ≡ true }
        ensures shape { self.new.shape ≡ self.old.shape }
        ensures kind { self.new.batched ≡ self.old.batched }
        ensures stands { ProducerMoves self.old answer self.new }
    {
        match self.stage {
            Stage::Idle => {}
            Stage::Scanning => self.feed_scan(answer),
            Stage::Storing => self.feed_word(answer),
            Stage::Counting => self.feed_count(answer),
            Stage::Closing => self.stage = Stage::Idle,
        }
    }

    /// The same as [`feed`](Self::feed), while a scan is under way.
    #[inline(always)]
    pub fn feed_scan(&mut self, answer: bool)
        requires stage { self.old.stage ≡ Scanning }
        requires one { LastBitIsDue self.old.shape P (due_put self.old) → answer ≡ true }
        ensures shape { self.new.shape ≡ self.old.shape }
        ensures kind { self.new.batched ≡ self.old.batched }
        ensures stands { ProducerMoves self.old answer self.new }
    {
        self.scan.feed(answer);
        match self.scan.value() {
            None => {}
            Some(seen) => {
                if has_room(&self.shape, self.count, seen) {
                    self.most = fitting(&self.shape, self.count, seen, self.offered);
                    self.stage = Stage::Storing;
                } else {
                    self.reply = Some(BatchReply::Full);
                    self.stage = Stage::Idle;
                }
            }
        }
    }

    /// The same as [`feed`](Self::feed), while a word write is under way.
    #[inline(always)]
    pub fn feed_word(&mut self, answer: bool)
        requires stage { self.old.stage ≡ Storing }
        ensures shape { self.new.shape ≡ self.old.shape }
        ensures kind { self.new.batched ≡ self.old.batched }
        ensures stands { ProducerMoves self.old answer self.new }
    {
        self.word.feed(answer);
        if self.word.next().is_none() {
            if self.index + 1 < self.most {
                self.index += 1;
                let cell = past_in(self.cell, self.index as u64, self.shape.capacity());
                self.word = WordWriter::new(&self.shape, cell, self.items[self.index]);
            } else {
                self.row.write(past_in(self.count, self.most as u64, self.shape.modulus()));
                self.stage = Stage::Counting;
            }
        }
    }

    /// The same as [`feed`](Self::feed), while the write of the count is under way.
    #[inline(always)]
    pub fn feed_count(&mut self, answer: bool)
        requires stage { self.old.stage ≡ Counting }
        ensures shape { self.new.shape ≡ self.old.shape }
        ensures kind { self.new.batched ≡ self.old.batched }
        ensures left { (x : RowWrite) (rest : List RowWrite) → due_writes self.old.row ≡ x ∷ rest →
            due_writes self.new.row ≡ rest }
        ensures stands { ProducerMoves self.old answer self.new }
    {
        self.row.feed(answer);
        if self.row.next().is_none() {
            self.count = past_in(self.count, self.most as u64, self.shape.modulus());
            self.cell = past_in(self.cell, self.most as u64, self.shape.capacity());
            self.reply = Some(BatchReply::Stored(self.most as u64));
            self.stage = Stage::Idle;
        }
    }

    /// The scan of the call under way on its own, if there is one: it proceeds separately from the
    /// producer, which [`go_on_with_scan`](Self::go_on_with_scan) brings to the same point.
    #[inline(always)]
    pub fn scan(&self) -> Option<PutScan>
        ensures some { IfSome result (λ s. (s ≡ self.now) × (self.now.stage ≡ Scanning)) }
        ensures none { IfNone result (self.now.stage ≢ Scanning) }
    {
        match self.stage {
            Stage::Scanning => Some(PutScan {
                scan: UnaryScan::at(&self.shape, Side::P, self.scan.zeros()),
                of: Snapshot::of(self),
            }),
            _ => None,
        }
    }

    /// The word write under way on its own, if there is one: it proceeds separately from the
    /// producer, which [`go_on_with_word`](Self::go_on_with_word) brings to the same point.
    #[inline(always)]
    pub fn word(&self) -> Option<PutWord>
        ensures some { IfSome result (λ w. (w ≡ self.now) × (self.now.stage ≡ Storing)) }
        ensures none { IfNone result (self.now.stage ≢ Storing) }
    {
        match self.stage {
            Stage::Storing => Some(PutWord {
                word: self.word,
                of: Snapshot::of(self),
            }),
            _ => None,
        }
    }

    /// Whether the write of the count is under way.
    #[inline(always)]
    pub fn is_counting(&self) -> bool
        ensures { IsTrue result ↔ (self.now.stage ≡ Counting) }
    {
        match self.stage {
            Stage::Counting => true,
            _ => false,
        }
    }

    /// Brings the producer to the point that its scan has reached.
    #[inline(always)]
    pub fn go_on_with_scan(&mut self, scan: PutScan)
        requires same { IsProducerButScan self.old scan }
        ensures state { self.new ≡ scan }
    {
        let PutScan { scan, of: _ } = scan;
        self.scan = scan;
    }

    /// Brings the producer to the point that its word write has reached.
    #[inline(always)]
    pub fn go_on_with_word(&mut self, word: PutWord)
        requires same { IsProducerButWord self.old word }
        ensures state { self.new ≡ word }
    {
        let PutWord { word, of: _ } = word;
        self.word = word;
    }

    /// The reply of the last call, if it was a put of one item. `None` before the first call, during a call,
    /// after a put of several items, and after a close.
    #[inline(always)]
    pub fn reply(&self) -> Option<PutReply>
        ensures state { result ≡ put_reply self.now }
        ensures stands { (calls : Puts) (made : List Made) → ProducerStands self.now calls made →
            self.now.batched ≡ false → (answer : Option BatchReply) × IsReplyToCall calls (call_of self.now) answer ×
            (result ≡ item_reply answer) }
    {
        if self.batched {
            return None;
        }
        match self.reply {
            None => None,
            Some(BatchReply::Stored(_)) => Some(PutReply::Stored),
            Some(BatchReply::Full) => Some(PutReply::Full),
            Some(BatchReply::Closed) => Some(PutReply::Closed),
        }
    }

    /// The reply of the last call, if it was a put of several items. `None` before the first call, during a
    /// call, after a put of one item, and after a close.
    #[inline(always)]
    pub fn batch_reply(&self) -> Option<BatchReply>
        ensures state { result ≡ batch_reply self.now }
        ensures stands { (calls : Puts) (made : List Made) → ProducerStands self.now calls made →
            self.now.batched ≡ true → IsReplyToCall calls (call_of self.now) result }
    {
        if self.batched { self.reply } else { None }
    }

    /// Whether a close was made or is under way.
    pub fn is_closed(&self) -> bool
        ensures state { result ≡ self.now.closed }
        ensures stands { (calls : Puts) (made : List Made) → ProducerStands self.now calls made →
            result ≡ closes_with calls (call_of self.now) }
    {
        self.closed
    }

    /// Whether the last bit of the consumer's count is due. In a lawful history whose consumer follows its
    /// program it returns 1.
    #[inline(always)]
    pub fn expects_one(&self) -> bool
        ensures due { IsTrue result ↔ LastBitIsDue self.now.shape P (due_put self.now) }
        ensures stands { (calls : Puts) (made : List Made) → ProducerStands self.now calls made → IsTrue result →
            EndsInZeros self.now.shape P made }
    {
        match self.stage {
            Stage::Scanning => self.scan.expects_one(),
            _ => false,
        }
    }
}
