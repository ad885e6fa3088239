//! The consumer of a near miss.
ghost use Rattle.std.specs.Prelude.{◌≡◌, ◌⊎◌, ◌≤◌, ◌<◌, ◌+◌, ◌-◌, ◌++◌, ◌∷◌, [], ℕ, List, true, IsSome, None, Some, false, nat_lt, if◌then◌else◌, length, min, take};
ghost use Rattle.bits_core.specs.Shape.{take_batch_of};
ghost use Rattle.bits_core.specs.declared.events.Side.TheVariants.{C};
ghost use Rattle.near_misses.specs.Misses.{order_of};
ghost use Rattle.near_misses.specs.NearPlays.{with_digit};
ghost use Rattle.near_misses.specs.TakeStages.{IsTakeWithin};

use crate::misses::NearMiss;
use crate::plays::NearCall;
use crate::rows::{NearRow, Order, read_bit};
use crate::sides::NearSide;
use bits_core::{Access, Bit, Shape, Side};
use queue_calls::Reply;
use ring_core::distance;

// How far the call under way has come.
#[derive(Clone, Copy)]
enum Stage {
    Between,
    // this many bits of the producer's count returned 0
    Scanning(u8),
    // the close bit is read
    Looking,
    // the same, in the second scan
    ScanningAgain(u8),
    // this many digits of the next item are read
    Reading(u8),
    Counting,
    // after a take that returned Closed
    Over,
    // a scan returned no count
    Stuck,
}

// Keeps an item after this many.
fn keep_one(kept: &mut [u64; 64], at: usize, item: u64)
    requires room { at < 64 }
    ensures kept { take (at + 1) kept.new ≡ take at kept.old ++ item ∷ [] }
{
    kept[at] = item;
}

// An item with one more digit, if that was read as 1.
fn with_digit(answer: bool, digit: u8, item: u64) -> u64
    ensures { result ≡ with_digit answer digit item }
{
    if answer && digit < 64 {
        item | 1 << u32::from(digit)
    } else {
        item
    }
}

/// The consumer of a script: it takes as many items as the script has takes, counting one for each that found the ring empty, and no more
/// once a take has returned Closed.
#[derive(Drop)]
pub(crate) struct NearTaker {
    miss: NearMiss,
    shape: Shape,
    takes: u64,
    // how many of the takes are used up
    used: u64,
    taken: u64,
    count: u8,
    // the items of the last take, of which this many are complete
    items: [u64; 64],
    whole: usize,
    // how many the take under way reads
    most: u64,
    item: u64,
    stage: Stage,
    stopped: bool,
    row: NearRow,
    ghost room: { whole ≤ 64 },
    ghost within: { IsTakeWithin stage whole most (min (take_batch_of shape) (takes - used)) },
    // the count's bits are written in the order of the near miss
    ghost order: { (row.side ≡ C) × (row.order ≡ order_of miss) },
}

impl NearTaker {
    ghost use Rattle.bits_core.specs.Shape.{modulus_of, width_of};
    ghost use Rattle.near_misses.specs.declared.taking.Stage.TheVariants.{Counting, Looking, Reading, ScanningAgain, Stuck};
    ghost use Rattle.bits_core.specs.declared.events.Access.{Access};
    ghost use Rattle.near_misses.specs.Misses.{IsRowAccess};
    ghost use Rattle.near_misses.specs.NearEnds.{items_seen, look_told, scan_stage, scan_told, stage_after_scan};
    ghost use Rattle.near_misses.specs.NearPlays.{NearAsked, near_start, with_digit_read};
    ghost use Rattle.queue_calls.specs.declared.events.CallEvent.TheVariants.{TakeEnds};
    ghost use Rattle.queue_calls.specs.declared.events.Reply.TheVariants.{Passed};
    ghost use Rattle.near_misses.specs.NearSides.{IsAskedToTake, TakerEnds, take_stand, taker_wants};

    pub fn new(miss: NearMiss, shape: Shape, takes: u64) -> Self
        ensures starts { take_stand result ≡ near_start }
        ensures asked { (asked : NearAsked) → asked.miss ≡ miss → asked.takes ≡ takes → asked.shape ≡ shape →
            IsAskedToTake result asked }
        ensures shape { result.shape ≡ shape }
    {
        NearTaker {
            miss,
            shape,
            takes,
            used: 0,
            taken: 0,
            count: 0,
            items: [0; 64],
            whole: 0,
            most: 0,
            item: 0,
            stage: Stage::Between,
            stopped: false,
            row: NearRow::new(Side::C, Order::of(miss)),
        }
    }

    /// The items that the last take took, or during a take those that it has read so far.
    pub fn items(&self) -> &[u64]
        ensures { result.now ≡ (take_stand self.now).read }
    {
        &self.items[..self.whole]
    }

    // How many items the next take asks for, or that under way: as many as one count write may count, or as many as takes are left.
    fn wanted(&self) -> u64
        ensures value { result ≡ taker_wants self.now }
        ensures few { result ≤ 64 }
    {
        // only for the proof: gives the bounds of the capacity, which bound the take batch
        let _capacity = self.shape.capacity();
        self.shape
            .take_batch()
            .min(self.takes.saturating_sub(self.used))
    }

    // A bit of the producer's count was read. (A scan that reads 0 to the last bit returns no count, and the side stops.)
    fn scan_ends(&mut self, zeros: u8, answer: bool, again: bool) -> Option<NearCall>
        requires scan { self.old.stage ≡ scan_stage again zeros }
        requires none { (self.old.whole ≡ 0) × (1 ≤ taker_wants self.old) }
        ensures ends { TakerEnds self.old result self.new }
        ensures told { result ≡ (if answer then scan_told (min (items_seen self.old.miss self.old.shape
            self.old.count zeros) (taker_wants self.old)) again else None) }
        // After a 0 the next bit is read, by the same scan, or the side is stuck.
        ensures goes_on { answer ≡ false → self.new.stage ≡ (if nat_lt (zeros + 1) (modulus_of self.old.shape)
            then scan_stage again (zeros + 1) else Stuck) }
    {
        if answer {
            return self.scanned(u64::from(zeros), again);
        }
        self.stage = if u64::from(zeros) + 1 >= self.shape.modulus() {
            Stage::Stuck
        } else if again {
            Stage::ScanningAgain(zeros + 1)
        } else {
            Stage::Scanning(zeros + 1)
        };
        None
    }

    // How many items a take reads if it sees this count: as many as it shows, and at most as many as the take asks for.
    fn shown(&self, seen: u64) -> u64
        ensures { result ≡ min (items_seen self.now.miss self.now.shape self.now.count seen) (taker_wants self.now) }
    {
        let modulus = self.miss.modulus(&self.shape);
        let count = u64::from(self.count);
        if !(seen < modulus && count < modulus) {
            return 0;
        }
        let ahead = distance(seen, count, modulus);
        if ahead <= self.shape.capacity() {
            ahead.min(self.wanted())
        } else {
            0
        }
    }

    // A scan returned this count.
    fn scanned(&mut self, seen: u64, again: bool) -> Option<NearCall>
        requires in_take { (take_stand self.old).in_call ≡ true }
        requires none { (self.old.whole ≡ 0) × (1 ≤ taker_wants self.old) }
        ensures ends { TakerEnds self.old result self.new }
        ensures told { result ≡ scan_told (min (items_seen self.old.miss self.old.shape self.old.count seen)
            (taker_wants self.old)) again }
        ensures goes_on { self.new.stage ≡ stage_after_scan (min (items_seen self.old.miss self.old.shape
            self.old.count seen) (taker_wants self.old)) again }
    {
        let most = self.shown(seen);
        if most > 0 {
            let modulus = self.miss.modulus(&self.shape);
            self.most = most;
            self.row.write(((u64::from(self.count).saturating_add(most)) % modulus) as u8);
            self.stage = Stage::Reading(0);
            None
        } else if again {
            self.stage = Stage::Over;
            Some(NearCall::TakeEnds(Reply::Shut))
        } else {
            self.stage = Stage::Looking;
            None
        }
    }

    // The close bit was read.
    fn looked(&mut self, closed: bool) -> Option<NearCall>
        requires look { self.old.stage ≡ Looking }
        requires none { (self.old.whole ≡ 0) × (1 ≤ taker_wants self.old) }
        ensures ends { TakerEnds self.old result self.new }
        ensures told { result ≡ look_told self.old.miss closed }
        ensures goes_on { result ≡ None → self.new.stage ≡ ScanningAgain 0 }
    {
        if !closed {
            self.used += 1;
            self.stage = Stage::Between;
            Some(NearCall::TakeEnds(Reply::Lacked))
        } else if self.miss == NearMiss::NoSecondScan {
            self.stage = Stage::Over;
            Some(NearCall::TakeEnds(Reply::Shut))
        } else {
            self.stage = Stage::ScanningAgain(0);
            None
        }
    }

    // A digit of an item was read.
    fn read_digit(&mut self, digit: u8, answer: bool)
        requires { self.old.stage ≡ Reading digit }
        ensures shape { self.new.shape ≡ self.old.shape }
        ensures asked { (asked : NearAsked) → IsAskedToTake self.old asked → IsAskedToTake self.new asked }
        ensures in_take { (take_stand self.new).in_call ≡ true }
        ensures read { take_stand self.new ≡ with_digit_read (width_of self.old.shape) answer digit
            (take_stand self.old) }
    {
        // only for the proof: gives the bound of the items requested
        let _wanted = self.wanted();
        self.item = with_digit(answer, digit, self.item);
        if u64::from(digit) + 1 < self.shape.width() {
            self.stage = Stage::Reading(digit + 1);
            return;
        }
        keep_one(&mut self.items, self.whole, self.item);
        self.whole += 1;
        self.item = 0;
        self.stage = if (self.whole as u64) < self.most {
            Stage::Reading(0)
        } else {
            Stage::Counting
        };
    }

    // A bit of the count was written.
    fn counted(&mut self) -> Option<NearCall>
        requires { self.old.stage ≡ Counting }
        ensures ends { TakerEnds self.old result self.new }
        ensures told { (result ≡ None) ⊎ (result ≡ Some (TakeEnds (Passed self.old.whole))) }
        // All bits of the count are written.
        ensures shown { IsSome result → IsRowAccess C self.new.row.order self.new.row.bits self.new.row.value None }
        ensures goes_on { result ≡ None → (access : Access) × IsRowAccess C self.new.row.order self.new.row.bits
            self.new.row.value (Some access) }
    {
        self.row.feed();
        if self.row.next().is_some() {
            return None;
        }
        // only for the proof: gives the bound of the items requested
        let _wanted = self.wanted();
        let taken = self.whole;
        self.count = self.row.value();
        self.taken = self.taken.saturating_add(taken as u64);
        self.used += taken as u64;
        self.stage = Stage::Between;
        Some(NearCall::TakeEnds(Reply::Passed(taken)))
    }
}

impl NearSide for NearTaker {
    ghost use Rattle.std.specs.Prelude.{◌≡◌};
    ghost use Rattle.near_misses.specs.declared.taking.Stage.TheVariants.{Between};
    ghost use Rattle.near_misses.specs.NearSides.{IsAskedToTake, IsDueToTake, take_stand};

    ghost side = { λ _. C };

    ghost shape = { λ t. t.shape };

    ghost stand = { take_stand };

    ghost asked = { IsAskedToTake };

    ghost due = { IsDueToTake };

    ghost between = { λ t. t.stage ≡ Between };

    fn begin(&mut self) -> Option<(Access, Option<NearCall>)> {
        let wanted = self.wanted();
        if wanted > 0 {
            self.whole = 0;
            self.item = 0;
            self.stage = Stage::Scanning(0);
            // only for the proof: gives the bounds of the modulus
            let _modulus = self.shape.modulus();
            let access = Access::Read(Bit::S(0));
            Some((access, Some(NearCall::TakeBegins(wanted as usize))))
        } else {
            None
        }
    }

    fn next(&mut self) -> Option<(Access, Option<NearCall>)> {
        if self.stopped {
            return None;
        }
        let access = match self.stage {
            Stage::Between => return self.begin(),
            Stage::Over | Stage::Stuck => return None,
            Stage::Scanning(zeros) | Stage::ScanningAgain(zeros) => {
                Access::Read(read_bit(Side::C, zeros))
            }
            Stage::Looking => Access::Read(Bit::X),
            Stage::Reading(digit) => {
                let cell = self.taken.saturating_add(self.whole as u64) % self.shape.capacity();
                Access::Read(Bit::Cell(cell as u8, digit))
            }
            Stage::Counting => self.row.next()?,
        };
        Some((access, None))
    }

    fn stop(&mut self) {
        self.stopped = self.stopped || !matches!(self.stage, Stage::Between | Stage::Over);
    }

    fn end(&mut self, _access: Access, answer: bool) -> Option<NearCall> {
        match self.stage {
            Stage::Between | Stage::Over | Stage::Stuck => None,
            Stage::Scanning(zeros) => self.scan_ends(zeros, answer, false),
            Stage::ScanningAgain(zeros) => self.scan_ends(zeros, answer, true),
            Stage::Looking => self.looked(answer),
            Stage::Reading(digit) => {
                self.read_digit(digit, answer);
                None
            }
            Stage::Counting => self.counted(),
        }
    }
}
