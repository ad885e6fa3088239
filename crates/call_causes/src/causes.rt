//! What contradicts a line of a recording.
ghost use Rattle.std.specs.Prelude.{◌≡◌, ◌++◌, codes, decimal};
ghost use Rattle.call_causes.specs.Causes.{cause_line, cause_words, next_words, said_words};

use crate::entries::{Offered, Taken};
use std::fmt;

/// What contradicts a line of a recording at which the history is not linearizable.
///
/// Lines are counted from 1. An item comes with the line that began its put (`offered_at`), ended it (`stored_at`) or
/// ended its take (`taken_at`).
///
/// For example, it is printed as `empty, but item 1 was inside since line 3`. In use:
/// `uses::findings::line_at_fault`.
#[derive(Clone, Copy, PartialEq, Eq, Debug)]
pub enum Cause {
    /// Items were stored by a put that began after a close had ended, the first one at this line.
    StoredAfterClose(u64),
    /// A put stored only this many of its items, but one of the others was taken.
    OnlySomeStored {
        count: usize,
        taken: Taken,
    },
    /// More items are inside than the queue can hold: at least this many.
    StoredTooMany(usize),
    /// A put stored only this many of its items, although there was room for one more: since this line, which began it, at most
    /// this many were inside before those that it stored.
    OnlySomeWithRoom {
        count: usize,
        inside: usize,
        since: u64,
    },
    /// A put found no room for one item, although there was room: since this line, which began it, at most this many were inside.
    FullWithRoom {
        inside: usize,
        since: u64,
    },
    /// A put that began after a close had ended, the first one at this line, found no room for one item.
    FullAfterClose(u64),
    /// A put stored nothing, but an item of it was taken.
    NotStoredButTaken(Taken),
    /// A put found no room for all its items, this many, although there was room: since this line, which began it, at most this
    /// many were inside.
    ShortWithRoom {
        offered: usize,
        inside: usize,
        since: u64,
    },
    /// A put returned Closed, and no close had ended before it began.
    ClosedWithoutClose,
    /// A take took items after one had returned Closed, at this line.
    ItemAfterTold(u64),
    /// A take took an item that is inside, or is being put, after another.
    NotNext {
        item: u64,
        next: Offered,
    },
    /// A take took an item that was taken before, among the last ones kept ([`TAKEN_LIMIT`](crate::TAKEN_LIMIT) for a
    /// recording of text), or earlier in the same line; and the item that is next instead, if there is one.
    ComesAgain {
        taken: Taken,
        next: Option<Offered>,
    },
    /// A take took an item that is neither inside nor being put; and the item that is next instead, if there is one.
    NotInside {
        item: u64,
        next: Option<Offered>,
    },
    /// A take took fewer items than it asked for, while another was inside.
    NoMoreWhileInside(Offered),
    /// A take took too few: more items are inside than the queue can hold, at least this many, since this line, which ended the last
    /// put that stored some.
    NotTaken {
        inside: usize,
        since: u64,
    },
    /// A take found the queue empty after one had returned Closed, at this line.
    EmptyAfterTold(u64),
    /// A take found the queue empty, while an item was inside.
    EmptyWhileInside(Offered),
    /// A take that began after a close had ended, the first one at this line, found the queue empty and open.
    EmptyAfterClose(u64),
    /// A take found fewer items than it asked for after one had returned Closed, at this line.
    ShortAfterTold(u64),
    /// A take found fewer items than it asked for, while this one was the last of that many.
    ShortWhileInside(Offered),
    /// A close had ended, the first one at this line. A put that began after it found no room for all its items; or a take that
    /// began after it found fewer items than it asked for, in a queue with nothing inside.
    ShortAfterClose(u64),
    /// A take returned Closed, and no close has begun.
    ClosedBeforeClose,
    /// A take returned Closed while an item was inside.
    ClosedWhileInside(Offered),
}

/// The text of a cause: words, and numbers between them.
///
/// In use: `ring_page::page_calls`, which writes them without memory.
#[derive(Clone, Copy)]
pub enum Said {
    /// Words.
    Words(&'static str),
    /// Words with a number between them.
    One(&'static str, u64, &'static str),
    /// Words with two numbers between them.
    Two(&'static str, u64, &'static str, u64, &'static str),
    /// Words with three numbers between them.
    Three(&'static str, u64, &'static str, u64, &'static str, u64, &'static str),
    /// Words with a number, that the item was not inside, and the next item.
    Lost(&'static str, u64, Next),
    /// Words with two numbers, and the next item.
    Again(&'static str, u64, &'static str, u64, Next),
}

/// The next item, if there is one.
///
/// In use: `ring_page::page_calls`.
#[derive(Clone, Copy)]
pub struct Next(pub Option<Offered>);

impl fmt::Display for Next {
    ghost use Rattle.std.specs.Prelude.{Some};

    ghost output = { λ n. Some (next_words n.0) };

    /// The text of the next item.
    fn fmt<W: fmt::Write>(&self, f: &mut fmt::Formatter<W>) -> fmt::Result {
        match self.0 {
            Some(next) => write!(f, "item {} of line {} is next", next.item, next.offered_at),
            None => f.write_str("none is next"),
        }
    }
}

// The text of a call that says so while an item was inside.
fn since(says: &'static str, inside: Offered) -> Said
    ensures { said_words result ≡ says.now ++ (decimal inside.item ++ (codes " was inside since line " ++ decimal
        inside.stored_at)) }
{
    Said::Two(
        says,
        inside.item,
        " was inside since line ",
        inside.stored_at,
        "",
    )
}

impl Cause {
    /// The line that contradicts the one at fault, if another one does.
    pub fn line(&self) -> Option<u64>
        ensures { result ≡ cause_line self.now }
    {
        match *self {
            Cause::StoredAfterClose(line)
            | Cause::FullAfterClose(line)
            | Cause::ItemAfterTold(line)
            | Cause::EmptyAfterTold(line)
            | Cause::EmptyAfterClose(line)
            | Cause::ShortAfterTold(line)
            | Cause::ShortAfterClose(line) => Some(line),
            Cause::OnlySomeWithRoom { since, .. }
            | Cause::FullWithRoom { since, .. }
            | Cause::ShortWithRoom { since, .. }
            | Cause::NotTaken { since, .. } => Some(since),
            Cause::OnlySomeStored { taken, .. }
            | Cause::NotStoredButTaken(taken)
            | Cause::ComesAgain { taken, .. } => Some(taken.taken_at),
            Cause::NotNext { next, .. } => Some(next.offered_at),
            Cause::NotInside { next, .. } => Some(next?.offered_at),
            Cause::NoMoreWhileInside(inside)
            | Cause::EmptyWhileInside(inside)
            | Cause::ShortWhileInside(inside)
            | Cause::ClosedWhileInside(inside) => Some(inside.stored_at),
            Cause::StoredTooMany(_) | Cause::ClosedWithoutClose | Cause::ClosedBeforeClose => None,
        }
    }

    /// Its text, in parts, as it is printed. To a writer that may fail, print the cause itself.
    pub fn said(self) -> Said
        ensures { said_words result ≡ cause_words self }
    {
        match self {
            Cause::StoredAfterClose(n) => Said::One("stored, but closed at line ", n, ""),
            Cause::OnlySomeStored { count, taken } => Said::Three(
                "only ",
                count as u64,
                " stored, but item ",
                taken.item,
                " was taken at line ",
                taken.taken_at,
                "",
            ),
            Cause::StoredTooMany(n) => Said::One("stored, but at least ", n as u64, " inside"),
            Cause::OnlySomeWithRoom {
                count,
                inside,
                since,
            } => Said::Three(
                "only ",
                count as u64,
                " stored, but before them at most ",
                inside as u64,
                " inside since line ",
                since,
                "",
            ),
            Cause::FullWithRoom { inside, since } => Said::Two(
                "full, but at most ",
                inside as u64,
                " inside since line ",
                since,
                "",
            ),
            Cause::FullAfterClose(n) => Said::One("full, but closed at line ", n, ""),
            Cause::NotStoredButTaken(taken) => Said::Two(
                "not stored, but item ",
                taken.item,
                " was taken at line ",
                taken.taken_at,
                "",
            ),
            Cause::ShortWithRoom {
                offered,
                inside,
                since,
            } => Said::Three(
                "short for ",
                offered as u64,
                ", but at most ",
                inside as u64,
                " inside since line ",
                since,
                "",
            ),
            Cause::ClosedWithoutClose => Said::Words("closed, but there was no close"),
            Cause::ItemAfterTold(n) => Said::One("item, but closed was told at line ", n, ""),
            Cause::NotNext { item, next } => Said::Three(
                "item ",
                item,
                ", but item ",
                next.item,
                " of line ",
                next.offered_at,
                " is next",
            ),
            Cause::ComesAgain { taken, next } => Said::Again(
                "item ",
                taken.item,
                " comes again, it was taken at line ",
                taken.taken_at,
                Next(next),
            ),
            Cause::NotInside { item, next } => Said::Lost("item ", item, Next(next)),
            Cause::NoMoreWhileInside(inside) => since("no more, but item ", inside),
            Cause::NotTaken { inside, since } => Said::Two(
                "not taken, but at least ",
                inside as u64,
                " inside since line ",
                since,
                "",
            ),
            Cause::EmptyAfterTold(n) => Said::One("empty, but closed was told at line ", n, ""),
            Cause::EmptyWhileInside(inside) => since("empty, but item ", inside),
            Cause::EmptyAfterClose(n) => Said::One("empty, but closed at line ", n, ""),
            Cause::ShortAfterTold(n) => Said::One("short, but closed was told at line ", n, ""),
            Cause::ShortWhileInside(inside) => since("short, but item ", inside),
            Cause::ShortAfterClose(n) => Said::One("short, but closed at line ", n, ""),
            Cause::ClosedBeforeClose => Said::Words("closed, but no close has begun"),
            Cause::ClosedWhileInside(inside) => since("closed, but item ", inside),
        }
    }
}

impl fmt::Display for Cause {
    ghost use Rattle.std.specs.Prelude.{Some};

    ghost output = { λ c. Some (cause_words c) };

    /// The text of the cause.
    fn fmt<W: fmt::Write>(&self, f: &mut fmt::Formatter<W>) -> fmt::Result {
        match self.said() {
            Said::Words(words) => f.write_str(words),
            Said::One(a, n, b) => write!(f, "{a}{n}{b}"),
            Said::Two(a, n, b, m, c) => write!(f, "{a}{n}{b}{m}{c}"),
            Said::Three(a, n, b, m, c, k, d) => write!(f, "{a}{n}{b}{m}{c}{k}{d}"),
            Said::Lost(a, n, next) => write!(f, "{a}{n} was not inside; {next}"),
            Said::Again(a, n, b, m, next) => write!(f, "{a}{n}{b}{m}; {next}"),
        }
    }
}
