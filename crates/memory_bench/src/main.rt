//! For the bench: makes 10,000 events with a memory of safe bits, and prints how many there are.
#![tactic(auto)]

use bits_core::{Access, Bit, Event, Flip, Memory, MemoryFault, Oracle, Shape, Side, Store};
use std::process::ExitCode;

/// Makes the side's next event: it ends what it has open, or begins an access of the bit.
fn step<S: Store<Event>, O: Oracle>(
    memory: &mut Memory<S>,
    side: Side,
    bit: Bit,
    value: bool,
    oracle: &mut O,
) -> Result<(), MemoryFault> {
    match memory.pending(side) {
        Some(Access::Read(_)) => {
            memory.end_read(side, oracle)?;
        }
        Some(Access::Write(_, _)) => memory.end_write(side)?,
        None => {
            if memory.shape().has(bit) && side == bit.reader() {
                memory.begin_read(side, bit)?;
            } else if memory.shape().has(bit) && side == bit.writer() {
                memory.begin_write(side, bit, value)?;
            }
        }
    }
    Ok(())
}

/// The producer writes the bits s in turn, and the consumer reads them during its writes.
fn work<S: Store<Event>>(memory: &mut Memory<S>, rounds: u32) -> Result<(), MemoryFault> {
    let mut oracle = Flip::new();
    for round in 0..rounds {
        let bit = Bit::S((round % 3) as u8);
        let value = round % 2 == 0;
        step(memory, Side::P, bit, value, &mut oracle)?;
        step(memory, Side::C, bit, value, &mut oracle)?;
        step(memory, Side::C, bit, value, &mut oracle)?;
        step(memory, Side::P, bit, value, &mut oracle)?;
    }
    Ok(())
}

fn main(rt: HostRuntime) -> ExitCode {
    let Ok(shape) = Shape::new(1, 3, 1) else {
        return ExitCode::FAILURE;
    };
    let mut memory = Memory::new(rt.alloc(), shape);
    if work(&mut memory, 2_500).is_err() {
        return ExitCode::FAILURE;
    }
    let events = memory.events().len();
    let flickers = memory.flickers();
    match println!(rt; "events {events}, flickers {flickers}") {
        Ok(()) => ExitCode::SUCCESS,
        Err(_) => ExitCode::FAILURE,
    }
}
