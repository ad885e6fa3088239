//! Reading the input.
ghost use Rattle.std.specs.Prelude.{◌≡◌, ◌≢◌, ◌<◌, ◌≤◌, ◌⊎◌, List, ℕ, IfOk, OnOk, IfErr, IfSome, IsErrOf, length, vec_len};
ghost use Rattle.std.specs.Io.KnownBytes.{Consumes, IsAtEnd};

use crate::faults::AppFault;
use std::alloc::Allocator;
use std::io::Read;

/// The most bytes that an input may have.
///
/// For example, a trace of this many bytes is read, and one more byte is refused as `input is too large`.
pub const INPUT_LIMIT: usize = 33_554_432;

/// Reads to the end of the input, every byte of it.
///
/// `ReadFailed` at the first fault of the reader, of any kind, including an interruption;
/// `TooLarge` once more than `INPUT_LIMIT` bytes came, so that an endless reader is abandoned;
/// `OutOfMemory` if a growth was refused. After a fault the bytes read so far are lost.
///
/// In use: each command on an input that is kept.
pub fn load<A: Allocator, R: Read>(alloc: A, input: &mut R) -> Result<Vec<u8, A>, AppFault>
    // Every byte of the input, in order.
    ensures whole { IfOk result (λ bytes. Consumes (R.remaining input.old) (R.remaining input.new) bytes.items) }
    ensures to_the_end { OnOk result (IsAtEnd (R.remaining input.new)) }
    ensures within { IfOk result (λ bytes. vec_len bytes ≤ INPUT_LIMIT) }

    // The input has more bytes than allowed.
    ensures too_large { IsErrOf result AppFault.TooLarge
        → (came : List ℕ) × (INPUT_LIMIT < length came) ×
        Consumes (R.remaining input.old) (R.remaining input.new) came }
    ensures no_write { IfErr result (λ e. e ≢ AppFault.WriteFailed) }
    ensures no_run { IfErr result (λ e. e ≢ AppFault.NotOfRun) }
{
    let mut bytes = Vec::new(alloc);
    let mut piece = [0u8; 8192];
    while bytes.len() <= INPUT_LIMIT {
        let count = match input.read(&mut piece) {
            Ok(count) => count,
            Err(_) => return Err(AppFault::ReadFailed),
        };
        if count == 0 {
            return Ok(bytes);
        }
        bytes.extend_from_slice(&piece[..count])?;
    }
    Err(AppFault::TooLarge)
}
