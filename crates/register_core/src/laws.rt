//! What reads of registers can return in a lawful history, whatever overlapped safe bits return. Each law is the contract of a
//! function that does nothing: a body calls it to have the statement in its proof. For code that builds something other than a
//! ring from a word, a bit or a unary count.
ghost use Rattle.register_core.specs.BitLaw.{BitIsRegular};
ghost use Rattle.register_core.specs.MadeWrites.{CellWritesAreMade, CountWritesAreMade, BitWritesAreMade, WordsWrite, CountsWrite, PartsWrite, BitsWrite};
ghost use Rattle.register_core.specs.MadeReads.{ScansAreMade, ZerosAreMade, WordReadsAreMade};
ghost use Rattle.register_core.specs.UnaryLaw.{NumberedStayWithin, UnaryIsRegular, UnaryHasOne};
ghost use Rattle.register_core.specs.Word.{DigitsTellItems};
ghost use Rattle.register_core.specs.WordLaw.{DigitsAreSafe, WordIsSafe};

/// A bit whose writer makes logical writes is regular.
pub fn bit_is_regular()
    ensures { BitIsRegular }
{}

/// If the writes to a cell are word writes one after the other, a word read that none of them overlaps
/// returns the item of the last that ended before it, or 0 if there is none.
pub fn word_is_safe()
    ensures { WordIsSafe }
{}

/// The same for the digits that a word read has read so far, if no word write overlaps its interval, which runs past
/// the end of the history while it has not ended.
pub fn digits_are_safe()
    ensures { DigitsAreSafe }
{}

/// If the writes to a count are unary writes of any values one after the other, a scan of it returns the
/// value of a write whose number is at least the number of writes ended when it began and at most the
/// number begun when it ended.
pub fn unary_is_regular()
    ensures { UnaryIsRegular }
{}

/// If, moreover, no value whose write had begun when the scan ended is above the last bit's number, a scan
/// that read 0 in all bits below the last does not read 0 in it.
pub fn unary_has_one()
    ensures { UnaryHasOne }
{}

/// If no value of a list is above a bound, no value of a numbered write of the list is.
pub fn numbered_stay_within()
    ensures { NumberedStayWithin }
{}

/// If a side's own events are a prefix of the events of accesses, its writes to the digits of a cell,
/// to its count and to a bit are a prefix of those among the accesses.
pub fn writes_are_made()
    ensures cells { CellWritesAreMade }
    ensures counts { CountWritesAreMade }
    ensures bits { BitWritesAreMade }
{}

/// The accesses of word writes, unary writes and logical writes are these writes and no others; two lists
/// of accesses, one after the other, have the writes of the first and then those of the second.
pub fn phrases_write()
    ensures words { WordsWrite }
    ensures counts { CountsWrite }
    ensures bits { BitsWrite }
    ensures parts { PartsWrite }
{}

/// If a side's own events are a prefix of the events of accesses, the scans and the word reads among these
/// that have ended are scans and word reads of the history.
pub fn reads_are_made()
    ensures scans { ScansAreMade }
    ensures zeros { ZerosAreMade }
    ensures words { WordReadsAreMade }
{}

/// Items of a width are distinguished by their digits.
pub fn digits_tell_items()
    ensures { DigitsTellItems }
{}
