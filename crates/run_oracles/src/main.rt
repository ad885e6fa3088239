//! For bench/soak: passes items through the flickering ring with a named oracle, and records its calls.
//!
//! The arguments are the oracle, the capacity, the modulus, the width, the batch, the take batch and the number of items: `0` and `1`
//! always give that answer, `flip` alternates, `tape` uses a tape of seven answers, and any other number seeds the generator.
#![tactic(auto)]

use bits_core::{Always, Flip, Oracle, Shape, Tape};
use queue_calls::Word;
use ring_run::{Limits, Outcome, Recorder, RunFault, Slot, relay_flicker};
use std::alloc::{AllocError, Global};
use std::env;
use std::io::{self, BufWriter, Write};
use std::process::ExitCode;
use std::thread::Threads;
use uses::oracles::Minstd;

/// How many lines of either side a recording has room for, like that of `run --record`.
const RECORDED: usize = 1 << 21;

const TAPE: &[bool] = &[true, true, false, true, false, false, true];

// The numbers 0, 1, .. as items of this width.
fn items_of(alloc: Global, width: u64, count: u64) -> Result<Vec<u64>, AllocError> {
    let mut items = Vec::with_capacity(alloc, count as usize)?;
    for number in 0..count {
        let item = if width < 64 {
            number % (1 << width)
        } else {
            number
        };
        items.push(item)?;
    }
    Ok(items)
}

fn slots(alloc: Global) -> Result<Vec<Slot>, AllocError> {
    let mut slots = Vec::with_capacity(alloc, RECORDED)?;
    for _ in 0..RECORDED {
        slots.push(Slot::new())?;
    }
    Ok(slots)
}

// Relays the items with one oracle for both sides; `None` if one of them does not fit the shape.
fn relay<R: Threads, O: Oracle + Copy + Drop + Send>(
    rt: &R,
    alloc: Global,
    shape: Shape,
    oracle: O,
    items: &[u64],
    recorder: &Recorder<'_>,
) -> Result<Outcome<Global>, RunFault> {
    let fitting = if shape.fits_all(items) { items } else { &[] };
    let limits = Limits::both(u64::MAX);
    relay_flicker(rt, alloc, shape, oracle, oracle, fitting, limits, recorder)
}

// The same with the oracle of this name.
fn relay_by<R: Threads>(
    rt: &R,
    alloc: Global,
    shape: Shape,
    name: &str,
    items: &[u64],
    recorder: &Recorder<'_>,
) -> Option<Outcome<Global>> {
    let outcome = match name {
        "0" => relay(rt, alloc, shape, Always(false), items, recorder),
        "1" => relay(rt, alloc, shape, Always(true), items, recorder),
        "flip" => relay(rt, alloc, shape, Flip::new(), items, recorder),
        "tape" => relay(rt, alloc, shape, Tape::new(TAPE), items, recorder),
        _ => {
            let seed = name.parse::<u64>().ok()?;
            relay(rt, alloc, shape, Minstd::new(seed), items, recorder)
        }
    };
    outcome.ok()
}

fn write_calls<W: Write>(
    alloc: Global,
    out: &mut W,
    shape: &Shape,
    recorder: &Recorder<'_>,
) -> io::Result<()> {
    writeln!(out, "{} {}", Word::Queue.text(), shape.capacity())?;
    let mut numbers = Vec::new(alloc);
    let mut lines = recorder.lines();
    'lines: for _ in 0..u64::MAX {
        let Some(word) = lines.next(&mut numbers)? else {
            break;
        };
        write!(out, "{}", word.text())?;
        for number in numbers.iter() {
            write!(out, " {number}")?;
        }
        writeln!(out)?;
    }
    out.flush()
}

// Relays this many items, and writes the recording. Returns whether all of them were taken, in order, and a take returned Closed.
fn record<R: Threads, W: Write>(
    rt: &R,
    alloc: Global,
    name: &str,
    shape: Shape,
    items: &[u64],
    out: &mut W,
) -> io::Result<bool> {
    let puts = slots(alloc)?;
    let takes = slots(alloc)?;
    let recorder = Recorder::new(puts.as_slice(), takes.as_slice());
    let Some(outcome) = relay_by(rt, alloc, shape, name, items, &recorder) else {
        return Ok(false);
    };
    write_calls(alloc, out, &shape, &recorder)?;
    Ok(outcome.closed && outcome.taken.as_slice() == items)
}

fn number(words: &[String], place: usize) -> Option<u64> {
    words.get(place)?.as_str().parse().ok()
}

fn shape_of(words: &[String]) -> Option<Shape> {
    Shape::with_batches(
        number(words, 2)?,
        number(words, 3)?,
        number(words, 4)?,
        number(words, 5)?,
        number(words, 6)?,
    )
    .ok()
}

fn run<R: Threads, W: Write>(
    rt: &R,
    alloc: Global,
    words: &[String],
    out: &mut W,
) -> io::Result<bool> {
    let (Some(name), Some(shape), Some(count)) = (words.get(1), shape_of(words), number(words, 7))
    else {
        writeln!(
            out,
            "run_oracles ORACLE CAPACITY MODULUS WIDTH BATCH TAKE-BATCH COUNT"
        )?;
        out.flush()?;
        return Ok(words.len() < 2);
    };
    let items = items_of(alloc, shape.width(), count)?;
    record(rt, alloc, name.as_str(), shape, items.as_slice(), out)
}

fn main(rt: HostRuntime) -> ExitCode {
    let Ok(words) = env::args(&rt).and_then(|words| Ok(words.collect::<Vec<String>>(rt.alloc())?))
    else {
        return ExitCode::FAILURE;
    };
    let Ok(mut out) = BufWriter::new(rt.alloc(), rt.stdout()) else {
        return ExitCode::FAILURE;
    };
    match run(&rt, rt.alloc(), words.as_slice(), &mut out) {
        Ok(true) => ExitCode::SUCCESS,
        _ => ExitCode::FAILURE,
    }
}
