//! The rule of a counter ring, and its words.
ghost use Rattle.std.specs.Prelude.{◌<◌};
ghost use Rattle.ring_seats.specs.Counters.{KeptWords, words_of};
ghost use Rattle.ring_seats.specs.Rule.{IsWordFound};

use crate::views::{Keeping, RuleOf, WordKind};
use crate::words::Words;

/// The kind of a counter ring: no access is open between two steps; the word of a counter is the value of its side's last
/// count write, 0 before any; that of a cell is the item last written to it, 0 before any; that of the close bit is what it
/// holds.
///
/// For example, a `CounterRing` of `ring_run` is the ring of this kind.
pub struct Counting;

/// The rule of a counter ring's table.
///
/// For example, the tests of `test_run` load words between two calls, and check that they satisfy it.
pub type CounterRule = RuleOf<Counting>;

impl WordKind for Counting {
    ghost use Rattle.ring_seats.specs.Counters.{words_of, ShowsWords};

    ghost count = { words_of };

    ghost shows = { ShowsWords };
}

impl Keeping for Counting {
    type Kept = ();

    ghost keeps = { λ _ _ _. Unit {0} };

    fn nothing() {}
}

impl<'a> Words<'a, Counting> {
    /// Loads a word, for neither end; the place is below the capacity + 3. It is that of a state that satisfies the ring's rule.
    pub fn find_word(&self, place: usize) -> u64
        requires { place < words_of self.now.shape }
        ensures { IsWordFound (KeptWords self.now.shape) place result }
    {
        self.find(place)
    }
}
