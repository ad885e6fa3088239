//! The consumer's machine.
ghost use Rattle.std.specs.Prelude.{◌≡◌, ◌≢◌, ◌⊎◌, ℕ, ◌+◌, ◌<◌, ◌≤◌, Bool, true, false, Some, None, List, [], ◌∷◌, ◌++◌, ◌↔◌, IsTrue, IfSome, IfNone, length, ⊤, take};
ghost use Rattle.bits_core.specs.declared.events.Bit.TheVariants.{R};
ghost use Rattle.bits_core.specs.declared.events.Side.TheVariants.{C};
ghost use Rattle.bits_core.specs.Made.{Made, answered};
ghost use Rattle.bits_core.specs.Open.{IsOpenRight};
ghost use Rattle.bits_core.specs.Shape.{take_batch_of};
ghost use Rattle.ring_core.specs.ConsumerCalls.{take_batch_reply};

use crate::consumer_parts::{TakeScan, TakeWord, by_number, is_first_digit, item_reply, keep_one};
use crate::counts::{has_item, items_shown, past_in};
use crate::replies::{TakeBatchReply, TakeReply};
use bits_core::{Access, Bit, Shape, Side};
use register_core::{UnaryScan, UnaryWriter, WordReader};
use std::alloc::AllocError;
use std::marker::Model;
use std::snapshot::Snapshot;

/// How far the take under way has come.
#[derive(Clone, Copy, Debug)]
enum Stage {
    Idle,
    Scanning,
    Checking,
    Rescanning,
    Loading,
    Counting,
}

/// The side that takes items (Lamport 1977): it yields the accesses of its takes one by one. It takes no memory.
///
/// In use: as its counterpart, the producer, is in `uses::by_hand`.
#[derive(Debug, Drop)]
pub struct Consumer {
    shape: Shape,
    count: u64,
    cell: u64,
    stage: Stage,
    scan: UnaryScan,
    word: WordReader,
    row: UnaryWriter,
    told: bool,
    items: [u64; 64],
    taken: usize,
    wanted: usize,
    most: usize,
    reply: Option<TakeReply>,
}

impl Model for Consumer {
    ghost use Rattle.std.specs.Prelude.{◌≤◌};
    ghost use Rattle.ring_core.specs.ConsumerState.{ConsumerState, IsConsumer};

    ghost Value = { ConsumerState };

    ghost use Rattle.ring_core.specs.Insides.{consumer_view};

    ghost view = { consumer_view };

    ghost invariant = { λ p. IsConsumer (consumer_view p) × (p.taken ≤ 64) × (p.wanted ≤ 64) × (p.most ≤ 64) };
}

// Written by hand: a derived one clones each field, which makes the proof ten times as expensive.
impl Clone for Consumer {
    ghost is_clone = { λ x y. y ≡ x };

    ghost is_infallible = { λ _. ⊤ };

    fn clone(&self) -> Result<Self, AllocError> {
        Ok(Consumer {
            row: self.row.clone()?,
            ..*self
        })
    }
}

impl Consumer {
    ghost use Rattle.register_core.specs.Row.{RowWrite};
    ghost use Rattle.register_core.specs.UnaryState.{due_writes};
    ghost use Rattle.ring_core.specs.declared.consumers.Stage.TheVariants.{Scanning, Checking, Rescanning, Loading, Counting};
    ghost use Rattle.ring_core.specs.declared.replies.TakeReply.TheVariants.{Closed};
    ghost use Rattle.ring_core.specs.Calls.{LastBitIsDue, EndsInZeros};
    ghost use Rattle.ring_core.specs.Takes.{Takes, take_program};
    ghost use Rattle.ring_core.specs.Lengths.{longest_taking};
    ghost use Rattle.ring_core.specs.ConsumerState.{IsBetweenWords, IsConsumerButScan, IsConsumerButWord, due_take, is_taking};
    ghost use Rattle.ring_core.specs.ConsumerCalls.{new_consumer, no_takes, ConsumerStands, TakeGoesOn, ConsumerMoves, ConsumerStays, IsReplyToTake, IsBatchReplyToTake, AreItemsOfTake};

    /// The consumer of a ring of this shape that has made no access.
    pub fn new(shape: Shape) -> Self
        ensures state { result ≡ new_consumer shape }
        ensures stands { ConsumerStands result no_takes [] }
    {
        Consumer {
            shape,
            count: 0,
            cell: 0,
            stage: Stage::Idle,
            scan: UnaryScan::new(&shape, Side::C),
            word: WordReader::new(&shape, 0),
            row: UnaryWriter::new(&shape, Side::C),
            told: false,
            items: [0; 64],
            taken: 0,
            wanted: 0,
            most: 0,
            reply: None,
        }
    }

    /// Starts a take of one item, as [`take_all`](Self::take_all) of at most one.
    #[inline(always)]
    pub fn take(&mut self)
        requires { due_take self.old ≡ None }
        ensures shape { self.new.shape ≡ self.old.shape }
        ensures begun { self.old.told ≡ false → (is_taking self.new ≡ true) × (self.new.wanted ≡ 1) }
        ensures refused { self.old.told ≡ true → self.new ≡ record self.old { reply = Some Closed } }
        ensures stands { ConsumerStays self.old self.new }
    {
        self.take_all(1);
    }

    /// Starts a take of at most `most` items under one count write; `most` is at most the shape's take batch. It takes
    /// those that the producer's count shows, starting with the first. No access may be due. The accesses made are
    /// unchanged. Once a take has returned `Closed`, each later one returns it at once, with no access, and nothing else
    /// changes.
    #[inline(always)]
    pub fn take_all(&mut self, most: u64)
        requires idle { due_take self.old ≡ None }
        requires some { 1 ≤ most }
        requires few { most ≤ take_batch_of self.old.shape }
        ensures shape { self.new.shape ≡ self.old.shape }
        ensures begun { self.old.told ≡ false → (is_taking self.new ≡ true) × (self.new.wanted ≡ most) }
        ensures refused { self.old.told ≡ true → self.new ≡ record self.old { reply = Some Closed } }
        ensures stands { ConsumerStays self.old self.new }
    {
        if self.told {
            self.reply = Some(TakeReply::Closed);
        } else {
            self.scan = UnaryScan::new(&self.shape, Side::C);
            self.wanted = most as usize;
            self.taken = 0;
            self.reply = None;
            self.stage = Stage::Scanning;
        }
    }

    /// The access that is due, or `None` if no take is under way. It is of a bit of the shape, by the side that may
    /// make it, so a memory of that shape accepts it. Whatever it returns, except for a 0 when
    /// [`expects_one`](Self::expects_one), the take continues with it;
    /// [`calls_are_short`](crate::laws::calls_are_short) bounds the accesses of a take.
    #[inline(always)]
    pub fn next(&self) -> Option<Access>
        ensures due { result ≡ due_take self.now }
        ensures right { IfSome result (IsOpenRight self.now.shape C) }
        ensures rest { (calls : Takes) (made : List Made) → ConsumerStands self.now calls made → result ≡ None →
            (is_taking self.now ≡ false) × (made ≡ take_program self.now.shape calls) }
        ensures goes_on { (calls : Takes) (made : List Made) (access : Access) → ConsumerStands self.now calls made →
            result ≡ Some access → (is_taking self.now ≡ true) ×
            TakeGoesOn self.now.shape self.now.wanted calls made access }
        ensures few { is_taking self.now ≡ true → self.now.wanted ≤ take_batch_of self.now.shape }
        ensures bounded { (calls : Takes) (made : List Made) → ConsumerStands self.now calls made →
            is_taking self.now ≡ true →
            length made < length (take_program self.now.shape calls) + longest_taking self.now.shape self.now.wanted }
    {
        match self.stage {
            Stage::Idle => None,
            Stage::Scanning | Stage::Rescanning => self.scan.next(),
            Stage::Checking => Some(Access::Read(Bit::X)),
            Stage::Loading => self.word.next(),
            Stage::Counting => self.row.next(),
        }
    }

    /// Records that the due access was made and returned `answer`; for a write it is ignored. When
    /// [`expects_one`](Self::expects_one), it must be 1. The number of items requested stays the same, and once the
    /// take counts its items it does so until it is over.
    #[inline(always)]
    pub fn feed(&mut self, answer: bool)
        requires due { due_take self.old ≢ None }
        requires one { LastBitIsDue self.old.shape C (due_take self.old) → answer ≡ true }
        ensures shape { self.new.shape ≡ self.old.shape }
        ensures wanted { self.new.wanted ≡ self.old.wanted }
        ensures counting { self.old.stage ≡ Counting → is_taking self.new ≡ true → self.new.stage ≡ Counting }
        ensures stands { ConsumerMoves self.old answer self.new }
    {
        match self.stage {
            Stage::Idle => {}
            Stage::Scanning | Stage::Rescanning => self.feed_scan(answer),
            Stage::Checking => self.feed_check(answer),
            Stage::Loading => self.feed_word(answer),
            Stage::Counting => self.feed_count(answer),
        }
    }

    #[inline(always)]
    fn feed_scan(&mut self, answer: bool)
        requires stage { (self.old.stage ≡ Scanning) ⊎ (self.old.stage ≡ Rescanning) }
        requires one { LastBitIsDue self.old.shape C (due_take self.old) → answer ≡ true }
        ensures shape { self.new.shape ≡ self.old.shape }
        ensures wanted { self.new.wanted ≡ self.old.wanted }
        ensures stands { ConsumerMoves self.old answer self.new }
    {
        self.scan.feed(answer);
        match self.scan.value() {
            None => {}
            Some(seen) => {
                if has_item(&self.shape, seen, self.count) {
                    self.most = items_shown(&self.shape, seen, self.count, self.wanted);
                    self.word = WordReader::new(&self.shape, self.cell);
                    self.stage = Stage::Loading;
                } else {
                    match self.stage {
                        Stage::Rescanning => {
                            self.told = true;
                            self.reply = Some(TakeReply::Closed);
                            self.stage = Stage::Idle;
                        }
                        _ => self.stage = Stage::Checking,
                    }
                }
            }
        }
    }

    #[inline(always)]
    fn feed_check(&mut self, answer: bool)
        requires stage { self.old.stage ≡ Checking }
        ensures shape { self.new.shape ≡ self.old.shape }
        ensures wanted { self.new.wanted ≡ self.old.wanted }
        ensures stands { ConsumerMoves self.old answer self.new }
    {
        if answer {
            self.scan = UnaryScan::new(&self.shape, Side::C);
            self.stage = Stage::Rescanning;
        } else {
            self.reply = Some(TakeReply::Empty);
            self.stage = Stage::Idle;
        }
    }

    /// The same as [`feed`](Self::feed), while a word read is under way.
    #[inline(always)]
    pub fn feed_word(&mut self, answer: bool)
        requires stage { self.old.stage ≡ Loading }
        ensures shape { self.new.shape ≡ self.old.shape }
        ensures wanted { self.new.wanted ≡ self.old.wanted }
        ensures stands { ConsumerMoves self.old answer self.new }
    {
        self.word.feed(answer);
        match self.word.value() {
            None => {}
            Some(item) => {
                keep_one(&mut self.items, self.taken, item);
                self.taken += 1;
                if self.taken < self.most {
                    let cell = past_in(self.cell, self.taken as u64, self.shape.capacity());
                    self.word = WordReader::new(&self.shape, cell);
                } else {
                    self.row.write(past_in(self.count, self.most as u64, self.shape.modulus()));
                    self.stage = Stage::Counting;
                }
            }
        }
    }

    /// The same as [`feed`](Self::feed), while the write of the count is under way.
    #[inline(always)]
    pub fn feed_count(&mut self, answer: bool)
        requires stage { self.old.stage ≡ Counting }
        ensures shape { self.new.shape ≡ self.old.shape }
        ensures wanted { self.new.wanted ≡ self.old.wanted }
        ensures counting { is_taking self.new ≡ true → self.new.stage ≡ Counting }
        ensures left { (x : RowWrite) (rest : List RowWrite) → due_writes self.old.row ≡ x ∷ rest →
            due_writes self.new.row ≡ rest }
        ensures stands { ConsumerMoves self.old answer self.new }
    {
        self.row.feed(answer);
        if self.row.next().is_none() {
            self.count = past_in(self.count, self.most as u64, self.shape.modulus());
            self.cell = past_in(self.cell, self.most as u64, self.shape.capacity());
            self.reply = Some(item_reply(&self.items[..self.taken]));
            self.stage = Stage::Idle;
        }
    }

    /// The scan of the take under way on its own, the first or the second, if there is one: it proceeds
    /// separately from the consumer, which [`go_on_with_scan`](Self::go_on_with_scan) brings to the same point.
    #[inline(always)]
    pub fn scan(&self) -> Option<TakeScan>
        ensures some { IfSome result (λ s. (s ≡ self.now) × (is_taking self.now ≡ true)) }
        ensures none { IfNone result ((self.now.stage ≢ Scanning) × (self.now.stage ≢ Rescanning)) }
    {
        match self.stage {
            Stage::Scanning | Stage::Rescanning => Some(TakeScan {
                scan: UnaryScan::at(&self.shape, Side::C, self.scan.zeros()),
                of: Snapshot::of(self),
            }),
            _ => None,
        }
    }

    /// The word read under way on its own, if there is one: it proceeds separately from the
    /// consumer, which [`go_on_with_word`](Self::go_on_with_word) brings to the same point.
    #[inline(always)]
    pub fn word(&self) -> Option<TakeWord>
        ensures some { IfSome result (λ w. (w ≡ self.now) × (self.now.stage ≡ Loading)) }
        ensures none { IfNone result (self.now.stage ≢ Loading) }
    {
        match self.stage {
            Stage::Loading => Some(TakeWord {
                word: self.word,
                of: Snapshot::of(self),
            }),
            _ => None,
        }
    }

    /// Whether the write of the count is under way.
    #[inline(always)]
    pub fn is_counting(&self) -> bool
        ensures { IsTrue result ↔ (self.now.stage ≡ Counting) }
    {
        match self.stage {
            Stage::Counting => true,
            _ => false,
        }
    }

    /// Whether the take under way is between words: it has read some items, and the first digit of the next cell is due.
    #[inline(always)]
    pub fn is_between_words(&self) -> bool
        ensures { IsTrue result ↔ IsBetweenWords self.now }
    {
        match self.stage {
            Stage::Loading => is_first_digit(self.word.next()) && self.items().len() > 0,
            _ => false,
        }
    }

    /// Makes the take under way count the items that it has read and take no more, as a take of at most that number
    /// would. It must be between words. Then the first bit write of the count is due; the accesses made are unchanged.
    #[inline(always)]
    pub fn count_now(&mut self)
        requires { IsBetweenWords self.old }
        ensures shape { self.new.shape ≡ self.old.shape }
        ensures items { self.new.items ≡ self.old.items }
        ensures wanted { self.new.wanted ≡ length self.old.items }
        ensures stage { self.new.stage ≡ Counting }
        ensures due { (i : ℕ) × (v : Bool) × (due_take self.new ≡ Some (Access.Write (R i) v)) }
        ensures stands { ConsumerStays self.old self.new }
    {
        self.row.write(past_in(self.count, self.taken as u64, self.shape.modulus()));
        self.wanted = self.taken;
        self.most = self.taken;
        self.stage = Stage::Counting;
    }

    /// Brings the consumer to the point that its scan has reached.
    #[inline(always)]
    pub fn go_on_with_scan(&mut self, scan: TakeScan)
        requires same { IsConsumerButScan self.old scan }
        ensures state { self.new ≡ scan }
    {
        let TakeScan { scan, of: _ } = scan;
        self.scan = scan;
    }

    /// Brings the consumer to the point that its word read has reached.
    #[inline(always)]
    pub fn go_on_with_word(&mut self, word: TakeWord)
        requires same { IsConsumerButWord self.old word }
        ensures state { self.new ≡ word }
    {
        let TakeWord { word, of: _ } = word;
        self.word = word;
    }

    /// The reply of the last take; if it took several items, with the first of them. `None` before the first take
    /// and during one.
    #[inline(always)]
    pub fn reply(&self) -> Option<TakeReply>
        ensures state { result ≡ self.now.reply }
        ensures stands { (calls : Takes) (made : List Made) → ConsumerStands self.now calls made →
            IsReplyToTake calls (is_taking self.now) result }
    {
        self.reply
    }

    /// The reply of the last take, with the number of items it took. `None` before the first take and during one.
    #[inline(always)]
    pub fn batch_reply(&self) -> Option<TakeBatchReply>
        ensures state { result ≡ take_batch_reply self.now.reply self.now.items }
        ensures stands { (calls : Takes) (made : List Made) → ConsumerStands self.now calls made →
            IsBatchReplyToTake calls (is_taking self.now) result }
    {
        match self.reply {
            None => None,
            Some(reply) => Some(by_number(reply, self.items())),
        }
    }

    /// The items that the last take took, in order, or during a take those read so far.
    #[inline(always)]
    pub fn items(&self) -> &[u64]
        ensures state { result.now ≡ self.now.items }
        ensures stands { (calls : Takes) (made : List Made) → ConsumerStands self.now calls made →
            AreItemsOfTake calls (is_taking self.now) result.now }
    {
        &self.items[..self.taken]
    }

    /// Whether the last bit of the producer's count is due. In a lawful history whose producer follows its
    /// program it returns 1.
    #[inline(always)]
    pub fn expects_one(&self) -> bool
        ensures due { IsTrue result ↔ LastBitIsDue self.now.shape C (due_take self.now) }
        ensures stands { (calls : Takes) (made : List Made) → ConsumerStands self.now calls made → IsTrue result →
            EndsInZeros self.now.shape C made }
    {
        match self.stage {
            Stage::Scanning | Stage::Rescanning => self.scan.expects_one(),
            _ => false,
        }
    }
}
