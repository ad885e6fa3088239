//! The flickering ring step by step, in one thread: a take begins while a put is under way, and an oracle answers a read that a
//! write overlaps.
ghost use Rattle.std.specs.Prelude.{◌≡◌, ◌^◌, ◌<◌, [], ◌∷◌, IfOk, IfSome};
ghost use Rattle.bits_core.specs.Made.{IsPrefix};
ghost use Rattle.bits_core.specs.Shape.{width_of};
ghost use Rattle.ring_core.specs.ConsumerCalls.{reply_items};
ghost use Rattle.uses.specs.Stepping.{IsFirstPut, IsFirstTake};

use bits_core::{Always, Oracle, Shape};
use ring_core::{PutReply, TakeReply};
use ring_run::{FlickerRing, Putter, RunFault, Taker};
use std::alloc::Allocator;

/// One step of the putter's first put, if that is not over: its reply, once it is.
pub fn step_putter<'a, O: Oracle + Drop>(
    putter: &mut Putter<'a, O>,
    item: u64,
    reply: Option<PutReply>,
) -> Option<PutReply>
    requires fits { item < 2 ^ width_of putter.old.end.ring.shape }
    requires at { IsFirstPut item putter.old reply }
    ensures ring { putter.new.end.ring ≡ putter.old.end.ring }
    ensures at { IsFirstPut item putter.new result }
{
    match reply {
        Some(reply) => Some(reply),
        None => putter.step_put(item),
    }
}

/// One step of the taker's first take, if that is not over: its reply, once it is.
pub fn step_taker<'a, O: Oracle + Drop>(
    taker: &mut Taker<'a, O>,
    reply: Option<TakeReply>,
) -> Option<TakeReply>
    requires at { IsFirstTake taker.old reply }
    ensures ring { taker.new.end.ring ≡ taker.old.end.ring }
    ensures at { IsFirstTake taker.new result }
{
    match reply {
        Some(reply) => Some(reply),
        None => taker.step_take(),
    }
}

/// A put makes `lead` steps, and then the take and the put make one step each in turn: returns the take's reply, if both are
/// over by then. Whatever the oracle says, an item that it took is the one that was put.
pub fn take_amid_put<A: Allocator + Copy, O: Oracle + Drop>(
    alloc: A,
    shape: Shape,
    item: u64,
    lead: u64,
    turns: u64,
    oracle: O,
) -> Result<Option<TakeReply>, RunFault>
    requires { item < 2 ^ width_of shape }
    ensures { IfOk result (λ r. IfSome r (λ reply. IsPrefix (reply_items reply) (item ∷ []))) }
{
    let (ring, start) = FlickerRing::new(alloc, shape)?;
    let (mut putter, mut taker) = ring.ends(start, Always(false), oracle);
    let mut put = None;
    let mut take = None;
    'lead: for _ in 0..lead {
        put = step_putter(&mut putter, item, put);
    }
    'turns: for _ in 0..turns {
        take = step_taker(&mut taker, take);
        put = step_putter(&mut putter, item, put);
    }
    match (put, take) {
        (Some(_), Some(reply)) => {
            // ends the run; by its contract there is one lawful history of both ends
            let _finished = FlickerRing::finish(putter, taker);
            Ok(Some(reply))
        }
        _ => Ok(None),
    }
}
