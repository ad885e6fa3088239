//! The law of the ring, and what the programs of its two sides say about their accesses. Each law is the contract of a function
//! that does nothing: a body calls it to have the statement in its proof.
//!
//! - `ring_law`, `ring_is_linearizable`, `recorded_is_linearizable`: about every run. With `puts_are_read`,
//!   `takes_are_read` and `whole_calls_count` code that drives the two ends can derive what came through: `uses::two_threads`.
//! - The laws of programs, such as `last_bit_is_one`: for code that drives a machine, as `uses::by_hand` does.
ghost use Rattle.ring_core.specs.CountWrites.{CountsAreWritten, CountsShowNumbers};
ghost use Rattle.ring_core.specs.Following.{PutsAreFollowed, TakesAreFollowed};
ghost use Rattle.ring_core.specs.GoingOn.{LastPutsReadOne, LastTakesReadOne, PutsGoOnByOne, TakesGoOn, TakesGoOnAlike, TakesGoOnByOne};
ghost use Rattle.ring_core.specs.Items.{ItemsAreRead, TakenAreRead};
ghost use Rattle.ring_core.specs.Lengths.{ItemPutsAreShort, FullPutsAreShort, PutsAreShort, TakesAreShort, EndsAreShort};
ghost use Rattle.ring_core.specs.Linear.{IsLinearizableRun};
ghost use Rattle.ring_core.specs.OneCallMore.{ClosesByOneMore, EndsByOneMore, PutsByOneMore, TakesByOneMore, TakesOfOne};
ghost use Rattle.ring_core.specs.Over.{PutsOverAreRead, TakesOverAreRead};
ghost use Rattle.ring_core.specs.PutParts.{CountsOn, ScansOn, ScansOrCloses, StoresOn, StoresOrCounts};
ghost use Rattle.ring_core.specs.Readings.{PutsAreFirst, PutsAreRead, TakesAreFirst, TakesAreRead};
ghost use Rattle.ring_core.specs.Recorded.{RecordedIsLinearizable};
ghost use Rattle.ring_core.specs.RecordedByOne.{PutsTellByOne, TakesTellByOne};
ghost use Rattle.ring_core.specs.RingLaw.{CellsAreQuiet, ClosedIsTrue, EmptyIsFresh, FillIsFresh, DrainIsFresh, FullIsFresh, InEveryRun, IsWithin, TakenArePrefix, TakesMatchPuts, WordsAreQuiet};
ghost use Rattle.ring_core.specs.Ranges.{PutsAreInRange, TakesAreInRange};
ghost use Rattle.ring_core.specs.RunLaws.{ClosedStays, HasARun, PutsAreSeen, RunsByPut, RunsByTake, TakesAreSeen};
ghost use Rattle.ring_core.specs.Whole.{WholePutsCount, WholeTakesCount};

/// The events of complete calls of the producer determine these calls.
pub fn puts_are_read()
    ensures { PutsAreRead }
{}

/// The events of complete calls of the consumer determine these calls.
pub fn takes_are_read()
    ensures { TakesAreRead }
{}

/// Complete calls whose events are a prefix of those of other calls are the first of these; with a close, or
/// if the last take returns Closed, they are all of them.
pub fn calls_are_first()
    ensures puts { PutsAreFirst }
    ensures takes { TakesAreFirst }
{}

/// The items that were put in a history are the same whichever calls of the producer its events are read as.
pub fn items_put_are_read()
    ensures { ItemsAreRead }
{}

/// The items that were taken in a history, and whether a take has returned Closed, are the same
/// whichever calls of the consumer its events are read as.
pub fn items_taken_are_read()
    ensures { TakenAreRead }
{}

/// The puts and the takes that are over in a history are the same whichever calls its events are read as.
pub fn calls_over_are_read()
    ensures puts { PutsOverAreRead }
    ensures takes { TakesOverAreRead }
{}

/// What one of a side's own events says about its calls, by the calls that are over before it and with it: it starts a call if
/// those over before it have all events before it, ends one if one more is over with it, and says nothing otherwise.
pub fn events_tell_by_one()
    ensures puts { PutsTellByOne }
    ensures takes { TakesTellByOne }
{}

/// If the events of a side are those of complete calls, all items of these were put or taken, and as many are counted
/// by the count writes that have begun.
pub fn whole_calls_count()
    ensures puts { WholePutsCount }
    ensures takes { WholeTakesCount }
{}

/// The bits of a count show how many items it has counted, modulo the modulus; and each count write of a call has an
/// access.
pub fn counts_are_written()
    ensures numbers { CountsShowNumbers }
    ensures written { CountsAreWritten }
{}

/// No put of one item, and none that found the ring full, has more than modulus + width + 2 accesses, and no put of `m`
/// items more than 2 modulus + `m` width. A take that took one item, found the ring empty or returned Closed has no
/// more than 2 modulus + width + 3, and a take of `m` items, for `m` of at least 2, no more than 3 modulus + `m` width
/// + 1.
pub fn calls_are_short()
    ensures item_puts { ItemPutsAreShort }
    ensures full_puts { FullPutsAreShort }
    ensures puts { PutsAreShort }
    ensures takes { TakesAreShort }
    ensures ends { EndsAreShort }
{}

/// After the complete calls of a program that is not over, another put, a close or another take may follow; its accesses
/// follow theirs, and the count and the reply are then those after it. A take of one item brings the item of its reply.
pub fn programs_by_one_call()
    ensures puts { PutsByOneMore }
    ensures closes { ClosesByOneMore }
    ensures takes { TakesByOneMore }
    ensures ends { EndsByOneMore }
    ensures one { TakesOfOne }
{}

/// The access that a call under way continues with, whatever it returns, is the only one: after the same calls and
/// accesses there is no other. So a machine's `next` returns all that its program allows.
pub fn calls_go_on_by_one()
    ensures puts { PutsGoOnByOne }
    ensures takes { TakesGoOnByOne }
{}

/// What a consumer does next is determined by the accesses that it has made and their answers: programs that start with
/// these continue with the same access. The exception is after a complete word, when one may read the next and another
/// count those read: a take reads on only if it asks for more than one item, and others next to it only if it asks for fewer
/// than may be taken.
pub fn takes_go_on()
    ensures { TakesGoOn }
{}

/// If a take may take only one item, what a consumer does next is determined by the accesses that it has made and
/// their answers, with no exception: programs that start with these continue with the same access.
pub fn takes_go_on_alike()
    ensures { TakesGoOnAlike }
{}

/// What a producer may do next, by how far its put under way has come: it scans or closes; it scans on; it writes a
/// word, if there is room for one more, or the count; it writes the next digit; it writes the next bit of the count.
pub fn puts_go_on()
    ensures between { ScansOrCloses }
    ensures scans { ScansOn }
    ensures words { StoresOrCounts }
    ensures digits { StoresOn }
    ensures counts { CountsOn }
{}

/// In a program the last bit of the other side's count is read as 1.
pub fn last_reads_are_one()
    ensures puts { LastPutsReadOne }
    ensures takes { LastTakesReadOne }
{}

/// A side whose own events are a prefix of the events of accesses, which are a prefix of those of calls,
/// follows these calls. So the accesses that a machine has made, with the one that is due, follow its
/// program.
pub fn calls_are_followed()
    ensures puts { PutsAreFollowed }
    ensures takes { TakesAreFollowed }
{}

/// If the other side follows its program, a side's reads of that side's count, from bit 0 upwards one after
/// the other, never all return 0.
pub fn last_bit_is_one()
    ensures puts { PutsAreSeen }
    ensures takes { TakesAreSeen }
{}

/// A history whose two sides follow their programs, with one more event, is such a history again if the
/// event may follow and is of its side's program.
pub fn runs_by_one_more()
    ensures put { RunsByPut }
    ensures take { RunsByTake }
{}

/// There is a lawful history whose two sides follow their programs, in which a write overlaps a read, a take finds
/// the ring empty, a put finds it full, an item is put and taken, and a take returns Closed.
pub fn has_a_run()
    ensures { HasARun }
{}

/// The law of the ring, in terms of the calls. In every lawful history of safe bits whose two sides follow their
/// programs, with `N` items put and `K` items taken by calls whose count write has begun:
/// - `within`: `K <= N <= K + capacity`, at every moment;
/// - `put_range`, `take_range`: each ended scan has a place where it began and one where it ended, and returns, modulo the
///   modulus, the number of items counted by an initial part of the other side's calls, within a range in which the modulus
///   distinguishes all numbers;
/// - `words`: of two items that have the same cell, the word write of the first and the word read of the second do
///   not overlap;
/// - `cells`: no write of a digit of a cell overlaps a read of a digit of that cell;
/// - `prefix`: the items taken are a prefix of the items put, at every moment;
/// - `items`: a word read of a take that has ended returns the item of its number among those put;
/// - `empty`: when a take that found the ring empty began, the takes that had ended had taken at least as many items as
///   the puts that had ended had stored, and no write of the close bit had ended;
/// - `full`: when a put that found the ring full began, the items stored before it, less those of takes that had
///   ended, were at least the capacity;
/// - `fill`: when a put that fills all the room that its scan left began, the items stored up to and including it, less
///   those of takes that had ended, are at least the capacity;
/// - `drain`: when a take that takes all that its first scan showed began, the items stored by puts that had ended are
///   no more than those taken up to and including it;
/// - `closed`: once a take has returned Closed, the close has begun, after all puts, and every item of these
///   puts was put and taken.
///
/// Lamport 1977, over the unary registers of 1986.
pub fn ring_law()
    ensures within { InEveryRun IsWithin }
    ensures put_range { InEveryRun PutsAreInRange }
    ensures take_range { InEveryRun TakesAreInRange }
    ensures words { InEveryRun WordsAreQuiet }
    ensures cells { InEveryRun CellsAreQuiet }
    ensures prefix { InEveryRun TakenArePrefix }
    ensures items { InEveryRun TakesMatchPuts }
    ensures empty { InEveryRun EmptyIsFresh }
    ensures full { InEveryRun FullIsFresh }
    ensures fill { InEveryRun FillIsFresh }
    ensures drain { InEveryRun DrainIsFresh }
    ensures closed { InEveryRun ClosedIsTrue }
{}

/// Every run of the ring is linearizable: in every lawful history of safe bits whose two sides follow their programs, the
/// operations of both sides that took effect have one order that keeps each side's own order, that a bounded FIFO queue
/// with close allows, and in which an operation whose call had ended before another's began comes before it. A put of `m`
/// items is `m` operations within its call. Among the calls that are cut, a put of items, a take of items and a close
/// count if their count write, or the write of the close bit, has begun.
///
/// Herlihy and Wing 1990.
pub fn ring_is_linearizable()
    ensures { InEveryRun IsLinearizableRun }
{}

/// The calls of every run of the ring, as a recorder would record them, are a linearizable history of a queue of the
/// ring's capacity: an auditor of recorded calls accepts each event. A put may have been offered more items than it
/// stored; it then found no room for one more before it stored the first. A take may have asked for more items than it took;
/// the ring then held no more. A call that is cut has begun and has not ended.
pub fn recorded_is_linearizable()
    ensures { RecordedIsLinearizable }
{}

/// Once a take has returned Closed, the items put and the items taken are the same in every longer lawful
/// history whose two sides follow their programs.
pub fn closed_stays()
    ensures { ClosedStays }
{}
