//! The bytes of a line that has not ended.
ghost use Rattle.std.specs.Prelude.{◌≡◌, ◌<◌, ◌≤◌, ◌+◌, ◌==◌, ◌↔◌, ℕ, List, [], ◌++◌, length, take, true, false, IsTrue};

use std::marker::Model;

/// The most bytes of a line of a trace, with its line feed: those of a shape with five numbers of four digits.
pub const LINE_LIMIT: usize = 31;

/// The first bytes of a line, as far as they have come. Their model is a list, which has room for a whole line.
#[derive(Drop)]
pub(crate) struct LineFront {
    room: [u8; LINE_LIMIT],
    used: usize,
}

impl Model for LineFront {
    ghost Value = { List ℕ };

    ghost view = { λ c. take c.used c.room };

    ghost invariant = { λ c. c.used ≤ 31 };
}

impl LineFront {
    /// No bytes.
    pub fn new() -> LineFront
        ensures { result ≡ [] }
    {
        LineFront {
            room: [0; LINE_LIMIT],
            used: 0,
        }
    }

    /// Whether there are none.
    pub fn is_empty(&self) -> bool
        ensures { IsTrue result ↔ (self.now ≡ []) }
    {
        self.used == 0
    }

    /// The bytes.
    pub fn bytes(&self) -> &[u8]
        ensures { result.now ≡ self.now }
    {
        &self.room[..self.used]
    }

    /// Adds bytes, unless they make more than a line may have: then nothing changes.
    pub fn push(&mut self, more: &[u8]) -> bool
        ensures pushed { result ≡ true → self.new ≡ self.old ++ more.now }
        ensures refused { result ≡ false → LINE_LIMIT < length self.old + length more.now }
    {
        if more.len() > LINE_LIMIT - self.used {
            return false;
        }
        let end = self.used + more.len();
        self.room[self.used..end].copy_from_slice(more);
        self.used = end;
        true
    }

    /// Removes the bytes.
    pub fn clear(&mut self)
        ensures { self.new ≡ [] }
    {
        self.used = 0;
    }
}
