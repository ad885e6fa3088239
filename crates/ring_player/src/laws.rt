//! What holds for every play of a script. Each law is the contract of a function that does nothing: a body calls it to have the
//! statement in its proof. For code that has the history of a play, but no report on it.
ghost use Rattle.ring_player.specs.Headline.{EveryPlayFills, EveryPlayHolds};
ghost use Rattle.ring_player.specs.Laws.{FlickersAreCounted};

/// The main theorem holds for every play of a script.
pub fn every_play_holds()
    ensures { EveryPlayHolds }
{}

/// In every play of a script, when a put began that stored fewer items than the world offered it, the items stored up
/// to and including it, less those of takes that had ended, are at least the capacity.
pub fn every_play_fills()
    ensures { EveryPlayFills }
{}

/// In a lawful history a memory counts as many flickers as there are ended reads that a write overlaps, by intervals.
pub fn flickers_are_counted()
    ensures { FlickersAreCounted }
{}
