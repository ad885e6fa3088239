//! The few events of one side, one of which has to be the next.
ghost use Rattle.std.specs.Prelude.{◌≡◌, ◌≢◌, ℕ, Bool, None, Some};
ghost use Rattle.bits_core.specs.declared.events.Side.TheVariants.{P};
ghost use Rattle.bits_core.specs.declared.events.Bit.{Bit};
ghost use Rattle.bits_core.specs.declared.events.Bit.TheVariants.{Cell};
ghost use Rattle.bits_core.specs.declared.events.Access.TheVariants as begins;
ghost use Rattle.bits_core.specs.declared.events.Event.{Event};
ghost use Rattle.bits_core.specs.Made.{opening_event};
ghost use Rattle.ring_audit.specs.Dues.{AreInOrder, IsDueOf, act_rank};
ghost use Rattle.ring_audit.specs.Sides.{EndsSo};

use bits_core::{Access, Act, Event, Side};

/// The events of a side that are due: at most three.
///
/// In use: `lamport_ring audit --why`, which prints them.
#[derive(Clone, Copy, PartialEq, Eq, Debug)]
pub struct Dues {
    pub first: Option<Event>,
    pub second: Option<Event>,
    pub third: Option<Event>,
}

// The event with which the side begins the access.
pub fn opening(side: Side, access: Option<Access>) -> Option<Event>
    ensures some { (a : Access) → access ≡ Some a → result ≡ Some (opening_event side a) }
    ensures none { access ≡ None → result ≡ None }
{
    match access {
        Some(access) => Some(access.opening(side)),
        None => None,
    }
}

// The events with which the side may end the access.
pub fn ends(side: Side, access: Access) -> Dues
    ensures only { (e : Event) (v : Bool) → e.side ≡ side → EndsSo access e v → result.first ≢ Some e →
        result.second ≢ Some e → ⊥ }
    ensures order { AreInOrder result }
{
    match access {
        Access::Read(bit) => Dues {
            first: Some(Event {
                side,
                bit,
                act: Act::ReadEnd(false),
            }),
            second: Some(Event {
                side,
                bit,
                act: Act::ReadEnd(true),
            }),
            third: None,
        },
        Access::Write(bit, _) => Dues {
            first: Some(Event {
                side,
                bit,
                act: Act::WriteEnd,
            }),
            second: None,
            third: None,
        },
    }
}

// The producer's writes of either value to the bit that would be read next, and another event.
pub fn writes(read: Option<Access>, other: Option<Event>) -> Dues
    ensures writes { (b : Bit) (v : Bool) → read ≡ Some (begins.Read b) →
        result.first ≢ Some (opening_event P (begins.Write b v)) →
        result.second ≢ Some (opening_event P (begins.Write b v)) → ⊥ }
    ensures other { result.third ≡ other }
    ensures order { ((b : Bit) → read ≡ Some (begins.Read b) → (j : ℕ) × (i : ℕ) × (b ≡ Cell j i)) →
        ((e : Event) → other ≡ Some e → act_rank e.bit e.act ≡ 2) → AreInOrder result }
{
    match read {
        Some(access) => match access {
            Access::Read(bit) => Dues {
                first: opening(Side::P, Some(Access::Write(bit, false))),
                second: opening(Side::P, Some(Access::Write(bit, true))),
                third: other,
            },
            Access::Write(_, _) => only(other),
        },
        None => only(other),
    }
}

// No event.
pub fn none() -> Dues
    ensures none { (e : Event) → ¬ IsDueOf result e }
    ensures order { AreInOrder result }
{
    Dues {
        first: None,
        second: None,
        third: None,
    }
}

// One event, if there is one.
pub fn only(event: Option<Event>) -> Dues
    ensures third { result.third ≡ event }
    ensures order { AreInOrder result }
{
    Dues {
        first: None,
        second: None,
        third: event,
    }
}
