//! The producer of a near miss.
ghost use Rattle.std.specs.Prelude.{◌≡◌, ◌⊎◌, ◌||◌, ℕ, ◌+◌, ◌-◌, ◌≤◌, Bool, true, IsSome, None, Some, if◌then◌else◌, length, min, nat_lt};
ghost use Rattle.bits_core.specs.declared.events.Side.TheVariants.{P};
ghost use Rattle.near_misses.specs.Misses.{order_of};

use crate::misses::NearMiss;
use crate::plays::NearCall;
use crate::rows::{NearRow, Order, read_bit};
use crate::sides::NearSide;
use bits_core::{Access, Bit, Shape, Side};
use queue_calls::Reply;
use ring_core::distance;

// How far the call under way has come.
#[derive(Clone, Copy)]
enum Stage {
    Between,
    // this many bits of the consumer's count returned 0
    Scanning(u8),
    // this many items of the put are stored, and this many digits of the next one
    Storing(usize, u8),
    Counting,
    Closing,
    // after the close
    Over,
    // a scan returned no count
    Stuck,
}

/// The producer of a script: it puts the items, as many at a time as a batch may have, and then perhaps closes.
#[derive(Drop)]
pub(crate) struct NearPutter<'a> {
    miss: NearMiss,
    shape: Shape,
    items: &'a [u64],
    closes: bool,
    stored: usize,
    // how many items the put under way stores
    storing: usize,
    count: u8,
    stage: Stage,
    stopped: bool,
    row: NearRow,
    ghost within: { stored + storing ≤ length items.now },
    // the count's bits are written in the order of the near miss
    ghost order: { (row.side ≡ P) × (row.order ≡ order_of miss) },
}

impl<'a> NearPutter<'a> {
    ghost use Rattle.bits_core.specs.Shape.{width_of};
    ghost use Rattle.bits_core.specs.declared.events.Access.{Access};
    ghost use Rattle.near_misses.specs.Misses.{IsRowAccess};
    ghost use Rattle.near_misses.specs.NearEnds.{count_written_told, first_stage, items_written_told, room_seen, room_told};
    ghost use Rattle.near_misses.specs.NearPlays.{NearAsked, near_start};
    ghost use Rattle.near_misses.specs.NearSides.{IsAskedToPut, IsDueToPut, IsToldAt, PutterEnds, put_stand};
    ghost use Rattle.near_misses.specs.declared.misses.NearMiss.TheVariants.{CountBeforeCell};
    ghost use Rattle.near_misses.specs.declared.putting.Stage.TheVariants.{Counting, Storing};
    ghost use Rattle.queue_calls.specs.declared.events.CallEvent.TheVariants.{PutEnds};
    ghost use Rattle.queue_calls.specs.declared.events.Reply.TheVariants.{Passed};

    pub fn new(miss: NearMiss, shape: Shape, items: &'a [u64], closes: bool) -> Self
        ensures starts { put_stand result ≡ near_start }
        ensures asked { (asked : NearAsked) → asked.miss ≡ miss → asked.items ≡ length items.entry.now →
            asked.closes ≡ closes →
            IsAskedToPut result asked }
        ensures shape { result.shape ≡ shape }
    {
        NearPutter {
            miss,
            shape,
            items,
            closes,
            stored: 0,
            storing: 0,
            count: 0,
            stage: Stage::Between,
            stopped: false,
            row: NearRow::new(Side::P, Order::of(miss)),
        }
    }

    // The write of a digit of an item to its cell, after this many of the put.
    fn digit_write(&self, done: usize, digit: u8) -> Access
        ensures { (cell : ℕ) × (value : Bool) × (result ≡ Access.Write (Bit.Cell cell digit) value) }
    {
        let number = self.stored.saturating_add(done);
        let cell = number as u64 % self.shape.capacity();
        let item = self.items.get(number).copied().unwrap_or(0);
        let value = (item >> u32::from(digit.min(63))) & 1 == 1;
        Access::Write(Bit::Cell(cell as u8, digit), value)
    }

    // The due access has ended with this answer. Returns the end of a call, if it is one.
    fn ended(&mut self, _access: Access, answer: bool) -> Option<NearCall>
        requires in_call { (put_stand self.old).in_call ≡ true }
        requires due { IsDueToPut self.old _access }
        ensures ends { PutterEnds self.old result self.new }
        ensures told { IsToldAt self.old.miss _access answer result }
    {
        match self.stage {
            Stage::Between | Stage::Over | Stage::Stuck => None,
            Stage::Scanning(zeros) => {
                if answer {
                    self.scanned(u64::from(zeros))
                } else {
                    self.scan_on(zeros)
                }
            }
            Stage::Storing(done, digit) => self.stored_digit(done, digit),
            Stage::Counting => self.counted(),
            Stage::Closing => {
                self.stage = Stage::Over;
                Some(NearCall::CloseEnds)
            }
        }
    }

    // A bit of the consumer's count returned 0: the next one is read. (A scan that reads 0 to the last bit returns no count, and the side
    // stops.)
    fn scan_on(&mut self, zeros: u8) -> Option<NearCall>
        requires { (put_stand self.old).in_call ≡ true }
        ensures ends { PutterEnds self.old result self.new }
        ensures told { result ≡ None }
    {
        self.stage = if u64::from(zeros) + 1 < self.shape.modulus() {
            Stage::Scanning(zeros + 1)
        } else {
            Stage::Stuck
        };
        None
    }

    // How many items a put stores if it sees this count: as many as there is room for, of those left, and at most a batch.
    fn room_behind(&self, seen: u64) -> u64
        ensures { result ≡ min (room_seen self.now.miss self.now.shape self.now.count seen)
            (length self.now.items.now - self.now.stored) }
    {
        let modulus = self.miss.modulus(&self.shape);
        let count = u64::from(self.count);
        let capacity = self.shape.capacity();
        if !(seen < modulus && count < modulus) {
            return 0;
        }
        let left = self.items.len().saturating_sub(self.stored) as u64;
        capacity
            .saturating_sub(distance(count, seen, modulus))
            .min(self.shape.batch())
            .min(left)
    }

    // The scan returned this count: a put that finds room continues, with its items or with its count.
    fn scanned(&mut self, seen: u64) -> Option<NearCall>
        requires { (put_stand self.old).in_call ≡ true }
        ensures ends { PutterEnds self.old result self.new }
        ensures told { result ≡ room_told (min (room_seen self.old.miss self.old.shape self.old.count seen)
            (length self.old.items.now - self.old.stored)) }
        ensures goes_on { result ≡ None → self.new.stage ≡ first_stage self.old.miss }
    {
        let most = self.room_behind(seen);
        if most == 0 {
            self.stage = Stage::Between;
            return Some(NearCall::PutEnds(Reply::Lacked));
        }
        let modulus = self.miss.modulus(&self.shape);
        self.storing = most as usize;
        self.row.write(((u64::from(self.count).saturating_add(most)) % modulus) as u8);
        self.stage = if self.miss == NearMiss::CountBeforeCell {
            Stage::Counting
        } else {
            Stage::Storing(0, 0)
        };
        None
    }

    // A digit was written.
    fn stored_digit(&mut self, done: usize, digit: u8) -> Option<NearCall>
        requires { (put_stand self.old).in_call ≡ true }
        ensures ends { PutterEnds self.old result self.new }
        ensures told { result ≡ (if nat_lt (digit + 1) (width_of self.old.shape) || nat_lt (done + 1) self.old.storing
            then None else items_written_told self.old.miss self.old.storing) }
        // With the last digit of the last item the count is next, if it is not written yet.
        ensures goes_on { result ≡ None → width_of self.old.shape ≤ digit + 1 → self.old.storing ≤ done + 1 →
            self.new.stage ≡ Counting }
    {
        if u64::from(digit) + 1 < self.shape.width() {
            self.stage = Stage::Storing(done, digit + 1);
            None
        } else if done.saturating_add(1) < self.storing {
            self.stage = Stage::Storing(done + 1, 0);
            None
        } else if self.miss == NearMiss::CountBeforeCell {
            self.put_is_over()
        } else {
            self.stage = Stage::Counting;
            None
        }
    }

    // A bit of the count was written.
    fn counted(&mut self) -> Option<NearCall>
        requires { (put_stand self.old).in_call ≡ true }
        ensures ends { PutterEnds self.old result self.new }
        // All bits of the count are written.
        ensures told { IsSome result → (result ≡ count_written_told self.old.miss self.old.storing) ×
            IsRowAccess P self.new.row.order self.new.row.bits self.new.row.value None }
        ensures goes_on { result ≡ None → (self.new.stage ≡ Storing 0 0 × self.old.miss ≡ CountBeforeCell) ⊎
            ((access : Access) × IsRowAccess P self.new.row.order self.new.row.bits self.new.row.value (Some access)) }
    {
        self.row.feed();
        if self.row.next().is_some() {
            None
        } else if self.miss == NearMiss::CountBeforeCell {
            self.stage = Stage::Storing(0, 0);
            None
        } else {
            self.put_is_over()
        }
    }

    fn put_is_over(&mut self) -> Option<NearCall>
        requires { (put_stand self.old).in_call ≡ true }
        ensures ends { PutterEnds self.old result self.new }
        ensures told { result ≡ Some (PutEnds (Passed self.old.storing)) }
        ensures row { self.new.row ≡ self.old.row }
    {
        let stored = self.storing;
        self.count = self.row.value();
        self.stored += stored;
        self.storing = 0;
        self.stage = Stage::Between;
        Some(NearCall::PutEnds(Reply::Passed(stored)))
    }
}

impl NearSide for NearPutter<'_> {
    ghost use Rattle.std.specs.Prelude.{◌≡◌};
    ghost use Rattle.near_misses.specs.declared.putting.Stage.TheVariants.{Between};
    ghost use Rattle.near_misses.specs.NearSides.{IsAskedToPut, IsDueToPut, put_stand};

    ghost side = { λ _. P };

    ghost shape = { λ p. p.shape };

    ghost stand = { put_stand };

    ghost asked = { IsAskedToPut };

    ghost due = { IsDueToPut };

    ghost between = { λ p. p.stage ≡ Between };

    fn begin(&mut self) -> Option<(Access, Option<NearCall>)> {
        if self.stored < self.items.len() {
            self.stage = Stage::Scanning(0);
            // only for the proof: gives the bounds of the modulus
            let _modulus = self.shape.modulus();
            let access = Access::Read(Bit::R(0));
            Some((access, Some(NearCall::PutBegins(self.stored))))
        } else if self.closes {
            self.stage = Stage::Closing;
            let access = Access::Write(Bit::X, true);
            Some((access, Some(NearCall::CloseBegins)))
        } else {
            None
        }
    }

    fn next(&mut self) -> Option<(Access, Option<NearCall>)> {
        if self.stopped {
            return None;
        }
        let access = match self.stage {
            Stage::Between => return self.begin(),
            Stage::Over | Stage::Stuck => return None,
            Stage::Scanning(zeros) => Access::Read(read_bit(Side::P, zeros)),
            Stage::Storing(done, digit) => self.digit_write(done, digit),
            Stage::Counting => self.row.next()?,
            Stage::Closing => Access::Write(Bit::X, true),
        };
        Some((access, None))
    }

    fn stop(&mut self) {
        self.stopped = self.stopped || !matches!(self.stage, Stage::Between | Stage::Over);
    }

    fn end(&mut self, access: Access, answer: bool) -> Option<NearCall> {
        self.ended(access, answer)
    }
}
