//! What a caller of the ends may rely on, each the contract of a function that does nothing.
ghost use Rattle.ring_run.specs.Laws.{EmptyAfterMeeting, FullAfterMeeting, ItemEmptyAfterMeeting, ItemFullAfterMeeting, ItemTakesAdd, PutsAdd, TakesAdd};

pub use ring_seats::laws::{counts_are_shown, words_are_told};

/// No take returns `Empty` while an item of a put shown by a meeting is not taken, nor once a meeting has shown the
/// close: if a taker knows a history, and has made takes after it, its next take finds the ring empty only if these
/// have taken as many items as that history's puts stored, and the history has no close. By the law of the ring,
/// which says that the ring was empty when such a take began.
pub fn empty_after_meeting()
    ensures several { EmptyAfterMeeting }
    ensures single { ItemEmptyAfterMeeting }
{}

/// No put returns `Full` while there is room according to a meeting: if a putter knows a history whose takes are
/// complete, and has made puts after it, its next put finds the ring full only if the items that its puts stored, less
/// those that these takes took, are at least the capacity. By the law of the ring, which says that the ring was full
/// when such a put began.
pub fn full_after_meeting()
    ensures several { FullAfterMeeting }
    ensures single { ItemFullAfterMeeting }
{}

/// A put only adds to the putter's list. So the list of a putter begins with its side of what a meeting showed,
/// however many puts it has made since.
pub fn puts_add()
    ensures { PutsAdd }
{}

/// A take only adds to the taker's list. So the list of a taker begins with its side of what a meeting showed,
/// however many takes it has made since.
pub fn takes_add()
    ensures several { TakesAdd }
    ensures single { ItemTakesAdd }
{}
