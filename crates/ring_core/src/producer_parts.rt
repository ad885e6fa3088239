//! The parts of a put under way that may proceed separately from the producer: a scan, and a word write.
ghost use Rattle.std.specs.Prelude.{◌≡◌, ◌≢◌, ◌+◌, ◌<◌, true, false, Some, List, [], ◌∷◌, ◌++◌, ◌↔◌, IsTrue, length, suc};
ghost use Rattle.bits_core.specs.declared.events.Side.TheVariants.{P};
ghost use Rattle.bits_core.specs.Made.{Made, answered};
ghost use Rattle.bits_core.specs.Open.{IsOpenRight};
ghost use Rattle.bits_core.specs.Shape.{modulus_of};

use crate::producers::Producer;
use bits_core::Access;
use register_core::{UnaryScan, WordWriter};
use std::marker::Model;
use std::snapshot::Snapshot;

/// The scan of a put under way, separate from its producer. To a contract it is that producer with this scan.
///
/// Its reads come one after the other, so a caller makes them in a loop of its own, without checking how far the
/// call has come.
///
/// In use: a put of `ring_run`, whose scans are loops of loads.
#[derive(Drop)]
pub struct PutScan {
    pub(crate) scan: UnaryScan,
    pub(crate) of: Snapshot<Producer>,
}

impl Model for PutScan {
    ghost use Rattle.std.specs.Prelude.{◌≡◌};
    ghost use Rattle.ring_core.specs.declared.producers.Stage.TheVariants.{Scanning};
    ghost use Rattle.ring_core.specs.ProducerState.{ProducerState, IsProducer};

    ghost Value = { ProducerState };

    ghost view = { λ s. record s.of.value { scan = s.scan } };

    ghost invariant = { λ s. (s.of.value.stage ≡ Scanning) × IsProducer (record s.of.value { scan = s.scan }) };
}

impl PutScan {
    ghost use Rattle.ring_core.specs.Calls.{LastBitIsDue, EndsInZeros};
    ghost use Rattle.ring_core.specs.Puts.{Puts, put_program};
    ghost use Rattle.ring_core.specs.ProducerCalls.{ProducerStands, PutGoesOn, ProducerMoves, longest};
    ghost use Rattle.ring_core.specs.ProducerState.{Call, due_put, call_of};
    ghost use Rattle.register_core.specs.ScanState.{scan_read};

    /// The read that is due, as [`Producer::next`] returns it.
    #[inline(always)]
    pub fn next(&self) -> Access
        ensures due { due_put self.now ≡ Some result }
        ensures below { self.now.scan.zeros < modulus_of self.now.shape }
        ensures right { IsOpenRight self.now.shape P result }
        ensures goes_on { (calls : Puts) (made : List Made) → ProducerStands self.now calls made → (c : Call) ×
            (call_of self.now ≡ Some c) × PutGoesOn self.now.shape calls c made result }
        ensures bounded { (calls : Puts) (made : List Made) (c : Call) → ProducerStands self.now calls made →
            call_of self.now ≡ Some c →
            length made < length (put_program self.now.shape calls) + longest self.now.shape c }
    {
        match self.scan.next() {
            Some(access) => access,
            None => unreachable!(),
        }
    }

    /// Whether the last bit of the consumer's count is due, as [`Producer::expects_one`] returns it.
    #[inline(always)]
    pub fn expects_one(&self) -> bool
        ensures due { IsTrue result ↔ LastBitIsDue self.now.shape P (due_put self.now) }
        ensures stands { (calls : Puts) (made : List Made) → ProducerStands self.now calls made → IsTrue result →
            EndsInZeros self.now.shape P made }
    {
        self.scan.expects_one()
    }

    /// Records that the due read returned 0. It must not be the read of the last bit. A 1 is fed to the producer, once it has
    /// continued with this scan.
    #[inline(always)]
    pub fn zero(&mut self)
        requires not_last { LastBitIsDue self.old.shape P (due_put self.old) → false ≡ true }
        ensures state { self.new ≡ record self.old { scan = scan_read self.old.scan false } }
        ensures stands { ProducerMoves self.old false self.new }
    {
        self.scan.feed(false);
    }
}

/// The word write of a put under way, separate from its producer. To a contract it is that producer with this word write.
///
/// Its writes come one after the other, so a caller makes them in a loop of its own, without checking how far the
/// call has come.
///
/// In use: a put of `ring_run`.
#[derive(Drop)]
pub struct PutWord {
    pub(crate) word: WordWriter,
    pub(crate) of: Snapshot<Producer>,
}

impl Model for PutWord {
    ghost use Rattle.std.specs.Prelude.{◌≡◌};
    ghost use Rattle.ring_core.specs.declared.producers.Stage.TheVariants.{Storing};
    ghost use Rattle.ring_core.specs.ProducerState.{ProducerState, IsProducer};

    ghost Value = { ProducerState };

    ghost view = { λ w. record w.of.value { word = w.word } };

    ghost invariant = { λ w. (w.of.value.stage ≡ Storing) × IsProducer (record w.of.value { word = w.word }) };
}

impl PutWord {
    ghost use Rattle.ring_core.specs.Calls.{LastBitIsDue};
    ghost use Rattle.ring_core.specs.Puts.{Puts, put_program};
    ghost use Rattle.ring_core.specs.ProducerCalls.{ProducerStands, PutGoesOn, ProducerMoves, longest};
    ghost use Rattle.ring_core.specs.ProducerState.{Call, due_put, call_of};

    /// The write that is due, as [`Producer::next`] returns it.
    #[inline(always)]
    pub fn next(&self) -> Access
        ensures due { due_put self.now ≡ Some result }
        ensures below { self.now.word.written < self.now.word.width }
        ensures right { IsOpenRight self.now.shape P result }
        ensures not_last { LastBitIsDue self.now.shape P (due_put self.now) → false ≡ true }
        ensures goes_on { (calls : Puts) (made : List Made) → ProducerStands self.now calls made → (c : Call) ×
            (call_of self.now ≡ Some c) × PutGoesOn self.now.shape calls c made result }
        ensures bounded { (calls : Puts) (made : List Made) (c : Call) → ProducerStands self.now calls made →
            call_of self.now ≡ Some c →
            length made < length (put_program self.now.shape calls) + longest self.now.shape c }
    {
        match self.word.next() {
            Some(access) => access,
            None => unreachable!(),
        }
    }

    /// Whether the write that is due is the word's last.
    #[inline(always)]
    pub fn is_last(&self) -> bool
        ensures { IsTrue result ↔ (suc self.now.word.written ≡ self.now.word.width) }
    {
        self.word.is_last()
    }

    /// Records that the due write was made. It must not be the word's last, which is fed to the producer, once it has
    /// continued with this word write. The answer is ignored.
    #[inline(always)]
    pub fn feed(&mut self, answer: bool)
        requires not_last { suc self.old.word.written ≢ self.old.word.width }
        ensures state { self.new ≡ record self.old {
          word = record
              self.old.word { written = suc self.old.word.written };
        } }
        ensures stands { ProducerMoves self.old answer self.new }
    {
        self.word.feed(answer);
    }
}
