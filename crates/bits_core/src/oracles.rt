//! Sources of answers for reads that a write overlaps.
ghost use Rattle.std.specs.Prelude.{◌≡◌, ℕ, ◌+◌, ◌%◌, ◌==◌, ◌≤◌, Bool, true, false, if◌then◌else◌, length};

/// A source of answers for reads that a write overlaps.
///
/// Its meaning is the sequence of its answers from now on, number 0 first.
///
/// In use: `uses::oracles::Minstd`.
pub trait Oracle {
    /// Answer number i from now.
    ghost answers: { Self → ℕ → Bool };

    /// Returns answer number 0. Each later answer moves down by one.
    fn answer(&mut self) -> bool
        ensures now { result ≡ answers self.old 0 }
        ensures later { (i : ℕ) → answers self.new i ≡ answers self.old (i + 1) };
}

/// Always returns the same answer.
///
/// For example, `Always(true)` has each overlapped read answer 1.
#[derive(Clone, Copy, PartialEq, Eq, Debug)]
pub struct Always(pub bool);

impl Oracle for Always {
    ghost answers = { λ always _. always.0 };

    fn answer(&mut self) -> bool {
        self.0
    }
}

/// Returns 0, 1, 0, 1 and so on.
///
/// In use: `uses::steps` and the tests of `test_uses`.
#[derive(Clone, Copy, PartialEq, Eq, Debug)]
pub struct Flip {
    next: bool,
}

impl Flip {
    ghost use Rattle.bits_core.specs.Oracle.{flip_answer};

    /// Starts with 0.
    pub fn new() -> Flip
        ensures { (i : ℕ) → flip_answer result i ≡ (if i % 2 == 0 then false else true) }
    {
        Flip { next: false }
    }
}

impl Default for Flip {
    /// Starts with 0, as [`Flip::new`].
    fn default() -> Flip {
        Flip::new()
    }
}

impl Oracle for Flip {
    ghost use Rattle.bits_core.specs.Oracle.{flip_answer};

    ghost answers = { flip_answer };

    fn answer(&mut self) -> bool {
        let answer = self.next;
        self.next = !answer;
        answer
    }
}

/// Returns the answers of a list in turn, and starts again after the last. If the list is empty it
/// always returns 0.
///
/// For example, a tape of the answers 0 and 1 returns 0, 1, 0, 1, as `Flip` does.
#[derive(Clone, Copy, Debug)]
pub struct Tape<'a> {
    answers: &'a [bool],
    place: usize,
    pub ghost within: { place ≤ length answers.now },
}

impl<'a> Tape<'a> {
    ghost use Rattle.bits_core.specs.Oracle.{tape_answer, turn};

    /// A tape of these answers, at the first of them.
    pub fn new(answers: &'a [bool]) -> Tape<'a>
        ensures { (i : ℕ) → tape_answer result i ≡ turn answers.entry.now i }
    {
        Tape { answers, place: 0 }
    }

    // The place of the next answer: the first again after the last.
    fn next_place(&self) -> usize
        ensures place { result ≡ (if self.now.place == length self.now.answers.now then 0 else self.now.place) }
        ensures within { result ≤ length self.now.answers.now }
    {
        if self.place == self.answers.len() {
            0
        } else {
            self.place
        }
    }
}

impl Oracle for Tape<'_> {
    ghost use Rattle.bits_core.specs.Oracle.{tape_answer};

    ghost answers = { tape_answer };

    fn answer(&mut self) -> bool {
        let place = self.next_place();
        match self.answers.get(place) {
            Some(answer) => {
                self.place = place + 1;
                *answer
            }
            None => false,
        }
    }
}
