//! One side of a near miss running.
use crate::plays::NearCall;
use bits_core::Access;

/// One side, running.
pub(crate) trait NearSide {
    ghost use Rattle.std.specs.Prelude.{◌≡◌, true, false, Option, None, IfSome, IsSome};
    ghost use Rattle.bits_core.specs.declared.events.Access.{Access};
    ghost use Rattle.bits_core.specs.declared.events.Side.{Side};
    ghost use Rattle.bits_core.specs.declared.shapes.Shape.{Shape};
    ghost use Rattle.bits_core.specs.Open.{IsOpenRight};
    ghost use Rattle.near_misses.specs.NearPlays.{NearAsked, NearBegins, NearEnds, NearStand, NearStops, near_stopped};
    ghost use Rattle.near_misses.specs.NearSides.{IsToldAt, with_ended};

    ghost side: { Self → Side };

    ghost shape: { Self → Shape };

    ghost stand: { Self → NearStand };

    ghost asked: { Self → NearAsked → Type 0 };

    // The access is one that is due.
    ghost due: { Self → Access → Type 0 };

    // No call is under way, and one may begin.
    ghost between: { Self → Type 0 };

    /// Starts the next call. Returns its first access, with the start of the call; `None` if the side stops.
    fn begin(&mut self) -> Option<(Access, Option<NearCall>)>
        requires { between self.old × ((stand self.old).stopped ≡ false) }
        ensures side { (side self.new ≡ side self.old) × (shape self.new ≡ shape self.old) }
        ensures asked { (a : NearAsked) → asked self.old a → asked self.new a }
        ensures begins { IfSome result (λ r. (a : NearAsked) → asked self.old a →
            NearBegins a (side self.old) (stand self.old) r.1 (stand self.new)) }
        ensures right { IfSome result (λ r. IsOpenRight (shape self.old) (side self.old) r.0) }
        ensures due { IfSome result (λ r. due self.new r.0) }
        ensures stops { result ≡ None → (a : NearAsked) → asked self.old a →
            NearStops a (side self.old) (stand self.old) × (stand self.new ≡ stand self.old) };

    /// The access that is due, with the start of a call if one starts with it; `None` if the side stops.
    fn next(&mut self) -> Option<(Access, Option<NearCall>)>
        ensures side { (side self.new ≡ side self.old) × (shape self.new ≡ shape self.old) }
        ensures asked { (a : NearAsked) → asked self.old a → asked self.new a }
        ensures begins { IfSome result (λ r. (a : NearAsked) → asked self.old a →
            NearBegins a (side self.old) (stand self.old) r.1 (stand self.new)) }
        ensures goes { IsSome result → (stand self.old).stopped ≡ false }
        ensures right { IfSome result (λ r. IsSome r.1 → IsOpenRight (shape self.old) (side self.old) r.0) }
        ensures due { IfSome result (λ r. due self.new r.0) }
        ensures stops { result ≡ None → (a : NearAsked) → asked self.old a →
            NearStops a (side self.old) (stand self.old) × (stand self.new ≡ stand self.old) };

    /// The side stops; in a call, for good.
    fn stop(&mut self)
        ensures side { (side self.new ≡ side self.old) × (shape self.new ≡ shape self.old) }
        ensures asked { (a : NearAsked) → asked self.old a → asked self.new a }
        ensures stopped { stand self.new ≡ near_stopped (stand self.old) };

    /// The due access has ended with this answer. Returns the end of a call, if it is one.
    fn end(&mut self, access: Access, answer: bool) -> Option<NearCall>
        requires in_call { (stand self.old).in_call ≡ true }
        requires due { due self.old access }
        ensures side { (side self.new ≡ side self.old) × (shape self.new ≡ shape self.old) }
        ensures asked { (a : NearAsked) → asked self.old a → asked self.new a }
        ensures ends { (a : NearAsked) → asked self.old a →
            NearEnds a (side self.old) (with_ended a (side self.old) access answer (stand self.old)) result
            (stand self.new) }
        ensures told { (a : NearAsked) → asked self.old a → IsToldAt a.miss access answer result };
}
