//! Events of one side: which access an event begins, and which one it ends.
ghost use Rattle.std.specs.Prelude.{◌≡◌, ◌↔◌, IsTrue, MatchOption, Bool, Some};
ghost use Rattle.bits_core.specs.Bits as bits;
ghost use Rattle.ring_audit.specs.Sides.{EndsSo, WritesNext, told_of};

use bits_core::{Access, Act, Event};

// The access that the event begins.
pub fn begun_by(event: Event) -> Option<Access>
    ensures { result ≡ bits.begun_by event }
{
    match event.act {
        Act::ReadBegin => Some(Access::Read(event.bit)),
        Act::WriteBegin(value) => Some(Access::Write(event.bit, value)),
        Act::ReadEnd(_) | Act::WriteEnd => None,
    }
}

// The answer to the access, if the event ends it. For a write the answer is ignored.
pub fn answer_to(access: Access, event: Event) -> Option<bool>
    ensures { MatchOption result ((v : Bool) → ¬ EndsSo access event v) (EndsSo access event) }
{
    match (access, event.act) {
        (Access::Read(bit), Act::ReadEnd(value)) => {
            if bit == event.bit { Some(value) } else { None }
        }
        (Access::Write(bit, _), Act::WriteEnd) => {
            if bit == event.bit { Some(false) } else { None }
        }
        _ => None,
    }
}

// Whether the access that is due is this one.
pub fn is_same(due: Option<Access>, access: Access) -> bool
    ensures { IsTrue result ↔ (due ≡ Some access) }
{
    due == Some(access)
}

// Whether the access writes the bit that would be read next.
pub fn writes_next(read: Option<Access>, access: Access) -> bool
    ensures { IsTrue result ↔ WritesNext read access }
{
    match (read, access) {
        (Some(Access::Read(bit)), Access::Write(written, _)) => written == bit,
        _ => false,
    }
}

// The value of an access: the answer of a read, or the value of a write.
pub fn told_by(access: Access, answer: bool) -> bool
    ensures { result ≡ told_of access answer }
{
    match access {
        Access::Read(_) => answer,
        Access::Write(_, value) => value,
    }
}
