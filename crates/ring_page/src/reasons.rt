//! Why an answer was not permitted.
ghost use Rattle.std.specs.Prelude.{◌≡◌, ◌≤◌};
ghost use Rattle.ring_page.specs.Reasons.{since_in};
ghost use Rattle.ring_page.specs.declared.audits.TheConstants.{EVENT_ROOM};

use bits_core::Reason;

/// For an answer that is not permitted: after how many events the last write of its bit had ended, since when the bit
/// holds what the read had to answer; 0 if none had. For any other reason 0.
pub fn since_when(why: Option<Reason>) -> usize
    requires few { since_in why ≤ EVENT_ROOM }
    ensures { result ≡ since_in why }
{
    match why {
        Some(
            Reason::Held {
                value: _,
                since: Some(last),
                begun: _,
            },
        ) => last + 1,
        _ => 0,
    }
}
