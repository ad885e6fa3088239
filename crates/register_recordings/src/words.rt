//! The finding on a class that a history lacks, as text.
ghost use Rattle.std.specs.Prelude.{Some};

use crate::findings::RegisterMiss;
use register_calls::{Chain, EarlierRead, MissReason};
use std::fmt;

// The line of the event at a place, after a space.
#[derive(Clone, Copy)]
struct AtLine(usize);

impl fmt::Display for AtLine {
    ghost use Rattle.register_recordings.specs.Misses.{place_words};

    ghost output = { λ l. Some (place_words l.0) };

    fn fmt<W: fmt::Write>(&self, f: &mut fmt::Formatter<W>) -> fmt::Result {
        let line = self.0 as u128 + 2;
        write!(f, " line {line}")
    }
}

// A reader, by its number in the text.
#[derive(Clone, Copy)]
struct Reader(usize);

impl fmt::Display for Reader {
    ghost use Rattle.register_recordings.specs.Misses.{reader_words};

    ghost output = { λ r. Some (reader_words r.0) };

    fn fmt<W: fmt::Write>(&self, f: &mut fmt::Formatter<W>) -> fmt::Result {
        let number = self.0 as u128 + 1;
        write!(f, "R{number}")
    }
}

// The first of the reads that a reason reports.
#[derive(Clone, Copy)]
struct First(Option<EarlierRead>);

impl fmt::Display for First {
    ghost use Rattle.register_recordings.specs.Misses.{first_read_words};

    ghost output = { λ x. Some (first_read_words x.0) };

    fn fmt<W: fmt::Write>(&self, f: &mut fmt::Formatter<W>) -> fmt::Result {
        match self.0 {
            None => f.write_str(", but an earlier read gave a later value"),
            Some(read) => write!(
                f,
                ", but a read of {} that ended at{} gave the later value {}, of{}",
                Reader(read.reader),
                AtLine(read.ended),
                read.value,
                AtLine(read.written)
            ),
        }
    }
}

// One of the others, if there is one.
#[derive(Clone, Copy)]
struct Further(Option<EarlierRead>);

impl fmt::Display for Further {
    ghost use Rattle.register_recordings.specs.Misses.{further_read_words};

    ghost output = { λ x. Some (further_read_words x.0) };

    fn fmt<W: fmt::Write>(&self, f: &mut fmt::Formatter<W>) -> fmt::Result {
        match self.0 {
            None => Ok(()),
            Some(read) => write!(
                f,
                "; for the read of {} that ended at{} can be of no write before that of{}",
                Reader(read.reader),
                AtLine(read.ended),
                AtLine(read.written)
            ),
        }
    }
}

// Whether there are more.
#[derive(Clone, Copy)]
struct Cut(bool);

impl fmt::Display for Cut {
    ghost use Rattle.register_recordings.specs.Misses.{cut_words};

    ghost output = { λ x. Some (cut_words x.0) };

    fn fmt<W: fmt::Write>(&self, f: &mut fmt::Formatter<W>) -> fmt::Result {
        f.write_str(if self.0 { "; .." } else { "" })
    }
}

// The reads that a reason reports.
#[derive(Clone, Copy)]
struct Reads(Chain);

impl fmt::Display for Reads {
    ghost use Rattle.register_recordings.specs.Misses.{chain_words};

    ghost output = { λ x. Some (chain_words x.0) };

    fn fmt<W: fmt::Write>(&self, f: &mut fmt::Formatter<W>) -> fmt::Result {
        write!(
            f,
            "{}{}{}{}{}{}{}{}{}",
            First(self.0.read(0)),
            Further(self.0.read(1)),
            Further(self.0.read(2)),
            Further(self.0.read(3)),
            Further(self.0.read(4)),
            Further(self.0.read(5)),
            Further(self.0.read(6)),
            Further(self.0.read(7)),
            Cut(self.0.is_cut())
        )
    }
}

// Since when the register held a value.
#[derive(Clone, Copy)]
struct Since(Option<usize>);

impl fmt::Display for Since {
    ghost use Rattle.register_recordings.specs.Misses.{held_since_words};

    ghost output = { λ x. Some (held_since_words x.0) };

    fn fmt<W: fmt::Write>(&self, f: &mut fmt::Formatter<W>) -> fmt::Result {
        match self.0 {
            None => f.write_str(" the start"),
            Some(place) => write!(f, "{}", AtLine(place)),
        }
    }
}

// What contradicts a read that returned this value.
#[derive(Clone, Copy)]
struct Against(u64, MissReason<Chain>);

impl fmt::Display for Against {
    ghost use Rattle.register_recordings.specs.Misses.{reason_words};

    ghost output = { λ x. Some (reason_words x.0 x.1) };

    fn fmt<W: fmt::Write>(&self, f: &mut fmt::Formatter<W>) -> fmt::Result {
        match self.1 {
            MissReason::NoValue => f.write_str(", which is no value of the register"),
            MissReason::Held { value, since } => write!(
                f,
                ", but no write overlapped the read, and the register held {value} since{}",
                Since(since)
            ),
            MissReason::NotWritten => write!(
                f,
                ", but neither the last write before the read nor one that overlapped it wrote {}",
                self.0
            ),
            MissReason::Inverted(chain) => write!(f, "{}", Reads(chain)),
        }
    }
}

impl fmt::Display for RegisterMiss {
    ghost use Rattle.register_recordings.specs.Misses.{miss_words};

    ghost output = { λ miss. Some (miss_words miss) };

    /// The line, what was read, and what contradicts it.
    fn fmt<W: fmt::Write>(&self, f: &mut fmt::Formatter<W>) -> fmt::Result {
        write!(
            f,
            "line {}: {} got {}{}",
            self.line,
            Reader(self.reader),
            self.value,
            Against(self.value, self.reason)
        )
    }
}
