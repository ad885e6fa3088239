//! A side's machine, as its end drives it.

use bits_core::Access;

/// The machine of a side, whichever it is: the accesses of its calls one by one, and a scan and a word on their own,
/// as [`Producer`](ring_core::Producer) and [`Consumer`](ring_core::Consumer) yield them.
pub(crate) trait SideMachine {
    ghost use Rattle.std.specs.Prelude.{◌≡◌, ◌↔◌, ◌<◌, ℕ, true, false, IfSome, IsTrue};
    ghost use Rattle.ring_ends.specs.Machines.{Machine};
    ghost use Rattle.ring_ends.specs.Moves.{Due, Fed, MachineLaws, MayFeed, TellsNext};

    type Scan: Drop;

    type Word: Drop;

    ghost kind: { Machine };

    ghost state: { Self → kind.State };

    // The machine that has reached the point of its scan, or its word.
    ghost scanned: { Self.Scan → kind.State };

    ghost worded: { Self.Word → kind.State };

    // The scan is of this machine, or the word.
    ghost IsScanOf: { Self → Self.Scan → Type 0 };

    ghost IsWordOf: { Self → Self.Word → Type 0 };

    ghost IsCounting: { Self → Type 0 };

    // How many accesses are left at most.
    ghost reads_left: { Self.Scan → ℕ };

    ghost digits_left: { Self.Word → ℕ };

    ghost writes_left: { Self → ℕ };

    // What holds for the machine.
    fn laws()
        ensures { MachineLaws kind };

    // The access that is due, or `None` if no call is under way.
    fn next(&self) -> Option<Access>
        ensures { TellsNext kind (state self.now) result };

    // Records that the due access was made and returned `answer`.
    fn feed(&mut self, answer: bool)
        requires { MayFeed kind (state self.old) answer }
        ensures { Fed kind (state self.old) answer (state self.new) };

    // The scan of the call under way on its own, if there is one.
    fn scan(&self) -> Option<Self::Scan>
        ensures { IfSome result (λ s. (scanned s ≡ state self.now) × IsScanOf self.now s) };

    fn scan_next(scan: &Self::Scan) -> Access
        ensures due { Due kind (scanned scan.now) result }
        ensures left { 0 < reads_left scan.now };

    // Records that a 0 was read.
    fn scan_zero(scan: &mut Self::Scan)
        requires feeds { MayFeed kind (scanned scan.old) false }
        requires left { 0 < reads_left scan.old }
        ensures fed { Fed kind (scanned scan.old) false (scanned scan.new) }
        ensures of { (m : Self) → IsScanOf m scan.old → IsScanOf m scan.new }
        ensures left { reads_left scan.new < reads_left scan.old };

    // Records that a 1 was read: the scan is over, and the machine continues after it.
    fn end_scan(&mut self, scan: Self::Scan)
        requires feeds { MayFeed kind (scanned scan) true }
        requires of { IsScanOf self.old scan }
        ensures { Fed kind (scanned scan) true (state self.new) };

    // The word of the call under way on its own, if one is being written or read.
    fn word(&self) -> Option<Self::Word>
        ensures { IfSome result (λ w. (worded w ≡ state self.now) × IsWordOf self.now w) };

    fn word_next(word: &Self::Word) -> Access
        ensures due { Due kind (worded word.now) result }
        ensures left { 0 < digits_left word.now };

    fn is_last(word: &Self::Word) -> bool
        ensures { IsTrue result ↔ (digits_left word.now ≡ 1) };

    fn word_feed(word: &mut Self::Word, answer: bool)
        requires { 1 < digits_left word.old }
        ensures fed { Fed kind (worded word.old) answer (worded word.new) }
        ensures of { (m : Self) → IsWordOf m word.old → IsWordOf m word.new }
        ensures left { digits_left word.new < digits_left word.old };

    // Records that the word's last access was made and returned `answer`, and the machine continues after it.
    fn end_word(&mut self, word: Self::Word, answer: bool)
        requires { IsWordOf self.old word }
        ensures { Fed kind (worded word) answer (state self.new) };

    // Whether the count is being written.
    fn is_counting(&self) -> bool
        ensures { IsTrue result ↔ IsCounting self.now };

    fn feed_count(&mut self, answer: bool)
        requires { MayFeed kind (state self.old) answer × IsCounting self.old }
        ensures fed { Fed kind (state self.old) answer (state self.new) }
        ensures left { writes_left self.new < writes_left self.old };
}
