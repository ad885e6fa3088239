//! Why an audit returned no finding.

use bits_core::MemoryFault;

/// Why an audit returned no finding: `OutOfMemory`, if memory for the lists of a finding ran out, or the slots for them did.
/// Its number is 1.
///
/// In use: `uses::audits::is_of_ring`.
pub type AuditFault = MemoryFault;
