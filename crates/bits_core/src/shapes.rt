//! The shape of a ring: how many cells, the modulus of its counts, and the width of an item.
ghost use Rattle.std.specs.Prelude.{◌≡◌, ℕ, ◌+◌, ◌^◌, ◌<◌, ◌≤◌, ◌↔◌, All, IsTrue, MatchResult};

use crate::events::Bit;
use crate::faults::ShapeFault;

/// How many cells a ring has, the modulus of its two counts, how many binary digits an item has, and how many
/// items one count write of the producer and one of the consumer may count at most: its batch and its take
/// batch.
///
/// The counts run modulo a number greater than the capacity and the larger batch together, so that a count
/// read while it is being written can still be distinguished from all others that may be read then.
///
/// In use: `uses::two_threads::pass_through`.
#[derive(Clone, Copy, PartialEq, Eq, Debug)]
pub struct Shape {
    capacity: u64,
    modulus: u64,
    width: u64,
    batch: u64,
    take_batch: u64,
    pub ghost has_cells: { 0 < capacity },
    pub ghost few_cells: { capacity ≤ 64 },
    pub ghost room_to_count: { capacity + batch < modulus },
    pub ghost room_to_take: { capacity + take_batch < modulus },
    pub ghost small_modulus: { modulus ≤ 256 },
    pub ghost has_digits: { 0 < width },
    pub ghost few_digits: { width ≤ 64 },
    pub ghost has_batch: { 0 < batch },
    pub ghost small_batch: { batch ≤ capacity },
    pub ghost has_take_batch: { 0 < take_batch },
    pub ghost small_take_batch: { take_batch ≤ capacity },
}

impl Shape {
    ghost use Rattle.bits_core.specs.Shape.{AllFit, HasNumbers, HasBatch, HasBatches, IsRefused, IsRefusedBatch, IsRefusedBatches, batch_of, belongs, capacity_of, modulus_of, take_batch_of, width_of};

    /// The shape with these numbers, whose count writes count one item each: a capacity from 1 to 64, a modulus from
    /// the capacity + 2 to 256, and a width from 1 to 64. Otherwise the first of the three that is out of range,
    /// in this order.
    pub fn new(capacity: u64, modulus: u64, width: u64) -> Result<Shape, ShapeFault>
        ensures { MatchResult result (HasNumbers capacity modulus width) (IsRefused capacity modulus width) }
    {
        Shape::with_batch(capacity, modulus, width, 1)
    }

    /// The shape with these numbers, whose consumer counts one item each: a capacity from 1 to 64, a batch from 1 to
    /// the capacity, a modulus from the capacity + the batch + 1 to 256, and a width from 1 to 64. Otherwise the
    /// first of the four that is out of range, in this order.
    pub fn with_batch(
        capacity: u64,
        modulus: u64,
        width: u64,
        batch: u64,
    ) -> Result<Shape, ShapeFault>
        ensures { MatchResult result (HasBatch capacity modulus width batch)
            (IsRefusedBatch capacity modulus width batch) }
    {
        Shape::with_batches(capacity, modulus, width, batch, 1)
    }

    /// The shape with these numbers: a capacity from 1 to 64, a batch and a take batch from 1 to the capacity, a
    /// modulus from the capacity + the larger batch + 1 to 256, and a width from 1 to 64. Otherwise the first of the
    /// five that is out of range, in this order; for the modulus that is `ModulusOfBatches` if the take batch is
    /// over 1.
    pub fn with_batches(
        capacity: u64,
        modulus: u64,
        width: u64,
        batch: u64,
        take_batch: u64,
    ) -> Result<Shape, ShapeFault>
        ensures { MatchResult result (HasBatches capacity modulus width batch take_batch)
            (IsRefusedBatches capacity modulus width batch take_batch) }
    {
        if capacity == 0 || capacity > 64 {
            return Err(ShapeFault::Capacity);
        }
        if batch == 0 || batch > capacity {
            return Err(ShapeFault::Batch);
        }
        if take_batch == 0 || take_batch > capacity {
            return Err(ShapeFault::TakeBatch);
        }
        if modulus <= capacity + batch || modulus <= capacity + take_batch || modulus > 256 {
            return Err(if take_batch == 1 {
                ShapeFault::Modulus
            } else {
                ShapeFault::ModulusOfBatches
            });
        }
        if width == 0 || width > 64 {
            return Err(ShapeFault::Width);
        }
        Ok(Shape {
            capacity,
            modulus,
            width,
            batch,
            take_batch,
        })
    }

    /// How many cells the ring has, from 1 to 64.
    pub fn capacity(&self) -> u64
        ensures value { result ≡ capacity_of self.now }
        ensures some { 0 < result }
        ensures few { result ≤ 64 }
    {
        self.capacity
    }

    /// The modulus of the two counts, from the capacity + the larger batch + 1 to 256.
    pub fn modulus(&self) -> u64
        ensures value { result ≡ modulus_of self.now }
        ensures room { capacity_of self.now + 2 ≤ result }
        ensures few { result ≤ 256 }
    {
        self.modulus
    }

    /// How many binary digits an item has, from 1 to 64.
    pub fn width(&self) -> u64
        ensures value { result ≡ width_of self.now }
        ensures some { 0 < result }
        ensures few { result ≤ 64 }
    {
        self.width
    }

    /// How many items one count write of the producer may count at most, from 1 to the capacity.
    pub fn batch(&self) -> u64
        ensures value { result ≡ batch_of self.now }
        ensures some { 0 < result }
        ensures few { result ≤ capacity_of self.now }
    {
        self.batch
    }

    /// How many items one count write of the consumer may count at most, from 1 to the capacity.
    pub fn take_batch(&self) -> u64
        ensures value { result ≡ take_batch_of self.now }
        ensures some { 0 < result }
        ensures few { result ≤ capacity_of self.now }
    {
        self.take_batch
    }

    /// Whether a cell can hold the item: it is below 2 to the power of the width.
    pub fn fits(&self, item: u64) -> bool
        ensures { IsTrue result ↔ (item < 2 ^ width_of self.now) }
    {
        self.width == 64 || item >> self.width == 0
    }

    /// Whether a cell can hold each of the items. There may be none.
    pub fn fits_all(&self, items: &[u64]) -> bool
        ensures { IsTrue result ↔ AllFit self.now items.now }
    {
        self.each_fits(items)
    }

    fn each_fits(&self, items: &[u64]) -> bool
        ensures { IsTrue result ↔ All (λ item. item < 2 ^ width_of self.now) items.now }
    {
        items.iter().all(|&item| self.fits(item))
    }

    /// Whether the bit is one of the shape's: `S(i)` and `R(i)` for `i` below the modulus, `X`, and
    /// `Cell(j, i)` for `j` below the capacity and `i` below the width.
    pub fn has(&self, bit: Bit) -> bool
        ensures { result ≡ belongs self.now bit }
    {
        match bit {
            Bit::S(i) | Bit::R(i) => u64::from(i) < self.modulus,
            Bit::X => true,
            Bit::Cell(j, i) => u64::from(j) < self.capacity && u64::from(i) < self.width,
        }
    }
}
