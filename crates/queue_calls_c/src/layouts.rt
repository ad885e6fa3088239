//! How large the structs are that C and this library share.
ghost use Rattle.std.specs.Prelude.{◌≡◌, ◌++◌, length, take, drop};
ghost use Rattle.queue_calls_c.specs.declared.layouts.TheConstants.{SIZES};

use crate::found::HeardFound;
use crate::hearings::WordLine;
use crate::registers::{EventLine, JudgeFound};
use crate::states::Audit;
use queue_calls::{CallsReport, Offered, Taken};
use std::mem::size_of;

// How many bytes each of them has.
const SIZES: [u64; 8] = [
    size_of::<Audit<'static>>() as u64,
    size_of::<Offered>() as u64,
    size_of::<Taken>() as u64,
    size_of::<WordLine>() as u64,
    size_of::<CallsReport>() as u64,
    size_of::<HeardFound>() as u64,
    size_of::<EventLine>() as u64,
    size_of::<JudgeFound>() as u64,
];

/// Writes how many bytes the structs of this library have to the front, if there is room for them: an audit, the entry of an item
/// inside and of one taken, a line, a report, and a finding; an event of a register, and the finding on its history. A header
/// compares them with its own.
#[unsafe(no_mangle)]
pub extern "C" fn ring_audit_layout(sizes: &mut [u64])
    ensures { sizes.new ≡ take (length sizes.old) SIZES ++ drop (length SIZES) sizes.old }
{
    let count = sizes.len().min(SIZES.len());
    sizes[..count].copy_from_slice(&SIZES[..count]);
}
