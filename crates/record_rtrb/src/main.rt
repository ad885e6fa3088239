//! record_rtrb: the kit's rtrb. No argument: lists its ways; NAME CALLS: writes a recording.
//!
//! Each start takes the next ticket of one counter before the call, each end after it, so an interval is only ever widened. All atomic
//! operations are sequentially consistent: if the ticket of an end is below that of a start, the first call happens before the second. The
//! logs are as large as they can become before the threads begin.
#![tactic(auto)]

use rtrb::{Consumer, Producer, RingBuffer};
use std::alloc::Global;
use std::io::{self, BufWriter, Write};
use std::sync::atomic::{AtomicU64, Ordering};
use std::thread::Threads;
use std::{env, thread};

// A line of a recording.
#[derive(Clone, Copy)]
enum Line {
    Put(u64),
    Stored,
    Full,
    Close,
    Closed,
    Take,
    Item(u64),
    Empty,
    Told,
}

// Takes for each requested put; what is recorded after them is linearizable all the same.
const TAKES: u64 = 8;

// What both threads share: the next ticket, and whether the producer has closed.
#[derive(Drop)]
struct Shared {
    ticket: AtomicU64,
    closed: AtomicU64,
}

// The events of a side, each with its ticket.
type Events = Vec<(u64, Line)>;

// Records an event now. Returns whether there was room for it.
fn tell(shared: &Shared, events: &mut Events, line: Line) -> bool {
    let ticket = shared.ticket.fetch_add(1, Ordering::SeqCst);
    events.push((ticket, line)).is_ok()
}

// Puts 0, 1, 2, .. in this many calls, and closes.
fn produce(shared: &Shared, producer: Producer<u64>, calls: u64, events: Events) -> Events {
    let mut producer = producer;
    let mut events = events;
    let mut item = 0u64;
    for _ in 0..calls {
        if !tell(shared, &mut events, Line::Put(item)) {
            return events;
        }
        let stored = producer.push(item).is_ok();
        tell(
            shared,
            &mut events,
            if stored { Line::Stored } else { Line::Full },
        );
        if stored {
            item = item.wrapping_add(1);
        } else {
            thread::yield_now();
        }
    }
    tell(shared, &mut events, Line::Close);
    shared.closed.store(1, Ordering::SeqCst);
    tell(shared, &mut events, Line::Closed);
    events
}

// Takes until it finds nothing, then the ring closed, then nothing once more.
fn consume(shared: &Shared, consumer: Consumer<u64>, takes: u64, events: Events) -> Events {
    let mut consumer = consumer;
    let mut events = events;
    for _ in 0..takes {
        if !tell(shared, &mut events, Line::Take) {
            return events;
        }
        let mut found = consumer.pop();
        let closed = found.is_err() && shared.closed.load(Ordering::SeqCst) == 1;
        if closed {
            found = consumer.pop();
        }
        match found {
            Ok(item) => {
                tell(shared, &mut events, Line::Item(item));
            }
            Err(_) if closed => {
                tell(shared, &mut events, Line::Told);
                return events;
            }
            Err(_) => {
                tell(shared, &mut events, Line::Empty);
                thread::yield_now();
            }
        }
    }
    events
}

fn write_line<W: Write>(out: &mut W, line: Line) -> io::Result<()> {
    match line {
        Line::Put(item) => writeln!(out, "P put {item}"),
        Line::Stored => writeln!(out, "P stored"),
        Line::Full => writeln!(out, "P full"),
        Line::Close => writeln!(out, "P close"),
        Line::Closed => writeln!(out, "P closed"),
        Line::Take => writeln!(out, "C take"),
        Line::Item(item) => writeln!(out, "C item {item}"),
        Line::Empty => writeln!(out, "C empty"),
        Line::Told => writeln!(out, "C closed"),
    }
}

// Both sides' events, in the order of their tickets.
fn write_calls<W: Write>(out: &mut W, puts: Events, takes: Events) -> io::Result<()> {
    let mut events = puts;
    events.extend_from_slice(takes.as_slice())?;
    events.sort_unstable_by_key(|(ticket, _)| *ticket);
    writeln!(out, "queue 8")?;
    for (_, line) in events.iter() {
        write_line(out, *line)?;
    }
    out.flush()
}

// A recording of this many puts.
fn record<R: Threads + Sync, W: Write>(
    rt: &R,
    alloc: Global,
    calls: u64,
    out: &mut W,
) -> io::Result<()> {
    let takes = calls.saturating_mul(TAKES);
    let shared = Shared {
        ticket: AtomicU64::new(0),
        closed: AtomicU64::new(0),
    };
    let mut puts: Events = Vec::new(alloc);
    let mut taken: Events = Vec::new(alloc);
    puts.reserve(calls.saturating_mul(2).saturating_add(2) as usize)?;
    taken.reserve(takes.saturating_mul(2) as usize)?;
    let (producer, consumer) = RingBuffer::new(alloc, 8)?;
    let (puts, taken) = thread::join(
        rt,
        || produce(&shared, producer, calls, puts),
        || consume(&shared, consumer, takes, taken),
    );
    write_calls(out, puts, taken)
}

fn main(rt: HostRuntime) -> io::Result<()> {
    let args = env::args(&rt)?.collect::<Vec<String>>(rt.alloc())?;
    let Some(calls) = args
        .get(2)
        .and_then(|text| text.as_str().parse::<u32>().ok())
    else {
        return println!(rt; "rtrb lawful");
    };
    let mut out = BufWriter::new(rt.alloc(), rt.stdout())?;
    record(&rt, rt.alloc(), calls as u64, &mut out)
}
