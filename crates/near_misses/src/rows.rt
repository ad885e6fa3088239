//! The count that a side writes, and that it scans.
ghost use Rattle.std.specs.Prelude.{◌≡◌, ◌∷◌, true, false, if◌then◌else◌, replicate, IfNone, IfSome, None, Some};
ghost use Rattle.bits_core.specs.Bits.{other};
ghost use Rattle.near_misses.specs.Misses.{AreClear, IsRowWritten, IsClearedNext, IsHighestSet, IsLowestSet, IsRowAccess, IsWriteDue, order_of};
ghost use Rattle.register_core.specs.Row.{row_bit};

use crate::misses::NearMiss;
use bits_core::{Access, Bit, Side};

// Bit i of the count that a side writes.
pub fn row_bit(side: Side, i: u8) -> Bit
    ensures { result ≡ row_bit side i }
{
    match side {
        Side::P => Bit::S(i),
        Side::C => Bit::R(i),
    }
}

// Bit i of the count that it reads: the other side's.
pub fn read_bit(side: Side, i: u8) -> Bit
    ensures { result ≡ row_bit (other side) i }
{
    match side {
        Side::P => Bit::R(i),
        Side::C => Bit::S(i),
    }
}

// The lowest set bit below the place.
fn lowest_set(bits: &[bool; 256], below: u8) -> Option<u8>
    ensures found { IfSome result (IsLowestSet bits.now below) }
    ensures none { IfNone result (AreClear bits.now 0 below) }
{
    for i in 0..below {
        if bits[i as usize] {
            return Some(i);
        }
    }
    None
}

// The highest one.
fn highest_set(bits: &[bool; 256], below: u8) -> Option<u8>
    ensures found { IfSome result (IsHighestSet bits.now below) }
    ensures none { IfNone result (AreClear bits.now 0 below) }
{
    let mut at = below;
    while at > 0 {
        at -= 1;
        if bits[at as usize] {
            return Some(at);
        }
    }
    None
}

/// In which order a count write makes its writes.
#[derive(Clone, Copy)]
pub(crate) enum Order {
    /// It sets its bit, and clears those below from the highest down, as a ring does.
    Downwards,
    /// It sets its bit, and clears those below from the lowest up.
    Upwards,
    /// It clears those below from the highest down, and then sets its bit.
    ClearsFirst,
}

impl Order {
    /// The order of a near miss.
    pub fn of(miss: NearMiss) -> Order
        ensures { result ≡ order_of miss }
    {
        match miss {
            NearMiss::ClearsUpwards => Order::Upwards,
            NearMiss::ClearsFirst => Order::ClearsFirst,
            _ => Order::Downwards,
        }
    }
}

/// The bits of a count, as the side that writes them remembers them, and the value that they should show.
#[derive(Drop)]
pub(crate) struct NearRow {
    side: Side,
    order: Order,
    bits: [bool; 256],
    value: u8,
}

impl NearRow {
    /// A row that shows 0: its bit 0 is set.
    pub fn new(side: Side, order: Order) -> NearRow
        ensures kept { (result.side ≡ side) × (result.order ≡ order) }
        ensures shows { (result.bits ≡ true ∷ replicate 255 false) × (result.value ≡ 0) }
    {
        let mut bits = [false; 256];
        bits[0] = true;
        NearRow {
            side,
            order,
            bits,
            value: 0,
        }
    }

    /// Begins a count write.
    pub fn write(&mut self, value: u8)
        ensures { self.new ≡ record self.old { value = value } }
    {
        self.value = value;
    }

    /// The value that was last written, or that is being written.
    pub fn value(&self) -> u8
        ensures { result ≡ self.now.value }
    {
        self.value
    }

    // The bit to be cleared next, of those below the value.
    fn clear_due(&self) -> Option<u8>
        ensures found { IfSome result (IsClearedNext self.now.order self.now.bits self.now.value) }
        ensures none { IfNone result (AreClear self.now.bits 0 self.now.value) }
    {
        match self.order {
            Order::Upwards => lowest_set(&self.bits, self.value),
            Order::Downwards | Order::ClearsFirst => highest_set(&self.bits, self.value),
        }
    }

    // The bit to be written next, with its new value.
    fn due(&self) -> Option<(u8, bool)>
        ensures { IsWriteDue self.now.order self.now.bits self.now.value result }
    {
        let clear = self.clear_due();
        let is_set = self.bits[self.value as usize];
        match self.order {
            Order::ClearsFirst => match clear {
                Some(bit) => Some((bit, false)),
                None => self.set_due(is_set),
            },
            Order::Downwards | Order::Upwards => match clear {
                Some(bit) if is_set => Some((bit, false)),
                _ => self.set_due(is_set),
            },
        }
    }

    // The write that sets the value's own bit, if that is clear.
    fn set_due(&self, is_set: bool) -> Option<(u8, bool)>
        ensures { result ≡ (if is_set then None else Some (self.now.value, true)) }
    {
        if is_set {
            None
        } else {
            Some((self.value, true))
        }
    }

    /// The access that is due, or `None` once the row shows the value.
    pub fn next(&self) -> Option<Access>
        ensures { IsRowAccess self.now.side self.now.order self.now.bits self.now.value result }
    {
        let (bit, value) = self.due()?;
        Some(Access::Write(row_bit(self.side, bit), value))
    }

    /// Records that the due access has ended.
    pub fn feed(&mut self)
        ensures same { (self.new.side ≡ self.old.side) × (self.new.order ≡ self.old.order) ×
            (self.new.value ≡ self.old.value) }
        ensures written { IsRowWritten self.old.order self.old.bits self.old.value self.new.bits }
    {
        match self.due() {
            Some((bit, value)) => self.bits[bit as usize] = value,
            None => {}
        }
    }
}
