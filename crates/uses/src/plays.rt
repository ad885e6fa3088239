//! A script, played.
ghost use Rattle.std.specs.Prelude.{IfOk};
ghost use Rattle.uses.specs.Plays.{LeavesInside, TakesSoMany};

use ring_player::{PlayFault, Script, ScriptFault, play};
use std::alloc::Global;
use thiserror::Error;

/// Why a text was not played.
#[derive(Clone, Copy, PartialEq, Eq, Debug, Error)]
pub enum Unplayed {
    /// It is not a script.
    #[error(transparent)]
    Script(#[from] ScriptFault),
    /// Memory ran out.
    #[error(transparent)]
    Play(#[from] PlayFault),
}

/// How many items the consumer of a script takes, and whether one of its takes returns Closed.
pub fn takes_of(alloc: Global, text: &[u8]) -> Result<(usize, bool), Unplayed>
    ensures { IfOk result (λ r. TakesSoMany text.now r.0 r.1) }
{
    let script = Script::read(alloc, text)?;
    let report = play(alloc, &script)?;
    Ok((report.taken.len(), report.told))
}

/// How many items of a script are still in the ring when its schedule ends, and how many reads a write overlapped. The difference
/// is not negative: by the main theorem, which holds for every play, those taken are a prefix of those put.
pub fn left_inside(alloc: Global, text: &[u8]) -> Result<(usize, u64), Unplayed>
    ensures { IfOk result (λ r. LeavesInside text.now r.0 r.1) }
{
    let script = Script::read(alloc, text)?;
    let report = play(alloc, &script)?;
    let left = report.put.len() - report.taken.len();
    Ok((left, report.flicker))
}
