//! The rule that is broken.
ghost use Rattle.std.specs.Prelude.{◌≡◌, codes};
ghost use Rattle.bits_core.specs.Shape.{capacity_of, modulus_of};
ghost use Rattle.near_misses.specs.Misses.{miss_name, miss_named, near_modulus};

use bits_core::Shape;

/// A ring that is nearly right. Both sides break the same rule, if it is a rule of both.
///
/// For example, `NearMiss::named("no-second-scan")`. In use: `lamport_ring play --wrong`.
#[derive(Clone, Copy, PartialEq, Eq, Debug)]
pub enum NearMiss {
    /// A put writes its count, and then the item's cell. So a consumer that reads the new count may read the cell too soon.
    CountBeforeCell,
    /// A take that finds no item and reads the close bit as 1 returns Closed at once, without a second scan. So an item that was
    /// stored between its scan and that read is lost.
    NoSecondScan,
    /// The counts wrap at capacity + the larger of batch and take batch, one too few. So a count that was read before the other side
    /// wrote it again may look like one a full round ahead.
    SmallModulus,
    /// A count write clears the bits below its own first, and sets its own last. So a scan in between may return an old count, or
    /// none.
    ClearsFirst,
    /// A count write sets its bit and then clears the bits below from the lowest up. So a scan in between may return a count that
    /// was never there: one between the old and the new, if one write counts several items.
    ClearsUpwards,
}

impl NearMiss {
    /// Its name: `count-before-cell`, `no-second-scan`, `small-modulus`, `clears-first`, `clears-upwards`.
    pub fn name(self) -> &'static str
        ensures { result.now ≡ miss_name self }
    {
        match self {
            NearMiss::CountBeforeCell => "count-before-cell",
            NearMiss::NoSecondScan => "no-second-scan",
            NearMiss::SmallModulus => "small-modulus",
            NearMiss::ClearsFirst => "clears-first",
            NearMiss::ClearsUpwards => "clears-upwards",
        }
    }

    /// The near miss of this name.
    pub fn named(name: &str) -> Option<NearMiss>
        ensures { result ≡ miss_named name.now }
    {
        if name == NearMiss::CountBeforeCell.name() {
            Some(NearMiss::CountBeforeCell)
        } else if name == NearMiss::NoSecondScan.name() {
            Some(NearMiss::NoSecondScan)
        } else if name == NearMiss::SmallModulus.name() {
            Some(NearMiss::SmallModulus)
        } else if name == NearMiss::ClearsFirst.name() {
            Some(NearMiss::ClearsFirst)
        } else if name == NearMiss::ClearsUpwards.name() {
            Some(NearMiss::ClearsUpwards)
        } else {
            None
        }
    }

    /// The number at which its counts wrap.
    pub fn modulus(self, shape: &Shape) -> u64
        ensures { result ≡ near_modulus self shape.now }
    {
        match self {
            NearMiss::SmallModulus => shape.capacity() + shape.batch().max(shape.take_batch()),
            _ => shape.modulus(),
        }
    }
}
