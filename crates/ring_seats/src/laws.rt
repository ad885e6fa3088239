//! What the ends of a ring, and their callers, may rely on, each the contract of a function that does nothing.
ghost use Rattle.ring_seats.specs.Laws.{PutsAreShown, TakesAreShown, WordsAreTold};

/// The history determines each word of a counter ring: no two states of the words show the same history.
pub fn words_are_told()
    ensures { WordsAreTold }
{}

/// The words of a counter ring show how far it has come: if all calls of a side are over, the word of its count is the number of
/// items it put, or took, modulo the modulus.
pub fn counts_are_shown()
    ensures puts { PutsAreShown }
    ensures takes { TakesAreShown }
{}
