//! Why a play stops.

use bits_core::MemoryFault;

/// Why a play made no event: `OutOfMemory`, if memory ran out. Its number is 1.
///
/// In use: `uses::plays::takes_of`.
pub type PlayFault = MemoryFault;
