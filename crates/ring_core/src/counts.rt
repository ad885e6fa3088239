//! What the two counts of a ring show, each kept modulo the modulus.
ghost use Rattle.std.specs.Prelude.{◌≡◌, ◌⊎◌, ◌+◌, ◌%◌, ◌<◌, ◌≤◌, ◌↔◌, IsTrue};
ghost use Rattle.bits_core.specs.Shape.{modulus_of};
ghost use Rattle.ring_core.specs.Counts as counts;

use bits_core::Shape;

/// How far `a` is ahead of `b` modulo a modulus above both. It is below the modulus.
///
/// For example, `distance(0, 2, 3)` is 1: from 2 the next count modulo 3 is 0.
#[inline(always)]
pub fn distance(a: u64, b: u64, modulus: u64) -> u64
    requires a { a < modulus }
    requires b { b < modulus }
    ensures value { result ≡ counts.distance modulus a b }
    ensures below { result < modulus }
{
    if a >= b { a - b } else { modulus - (b - a) }
}

/// Whether the producer's count `c` shows an item to a consumer that has taken `k`: `c` is 1 to the
/// capacity ahead of it. Both are below the modulus.
///
/// For example, with one cell and counts modulo 3, the count 0 shows no item to a consumer that has taken 1: it is
/// two ahead, so it is an old one.
#[inline(always)]
pub fn has_item(shape: &Shape, c: u64, k: u64) -> bool
    requires c { c < modulus_of shape.now }
    requires k { k < modulus_of shape.now }
    ensures { IsTrue result ↔ counts.ShowsItem shape.now c k }
{
    let ahead = distance(c, k, shape.modulus());
    ahead > 0 && ahead <= shape.capacity()
}

/// Whether the consumer's count `d` leaves room to a producer that has put `n`: it is less than the
/// capacity ahead of `d`. Both are below the modulus.
///
/// For example, with one cell and counts modulo 3, a producer that has put 1 finds no room if it sees the count 0.
#[inline(always)]
pub fn has_room(shape: &Shape, n: u64, d: u64) -> bool
    requires n { n < modulus_of shape.now }
    requires d { d < modulus_of shape.now }
    ensures { IsTrue result ↔ counts.LeavesRoom shape.now n d }
{
    distance(n, d, shape.modulus()) < shape.capacity()
}

/// `n + more` modulo the modulus, which is below 1,000; `n` is below it, and `more` at most equal to it.
///
/// In use: the count and the cell of each end of a counter ring.
#[inline(always)]
pub fn past_in(n: u64, more: u64, modulus: u64) -> u64
    requires { (n < modulus) × (more ≤ modulus) × (modulus < 1000) }
    ensures { result ≡ (n + more) % modulus }
{
    let sum = n + more;
    if sum < modulus { sum } else { sum - modulus }
}

/// How many items a take of at most `wanted` takes if the producer's count `c` shows some to a consumer that has taken
/// `k`: those that it shows, but at most `wanted`. Both counts are below the modulus.
///
/// In use: the takes of a counter ring.
#[inline(always)]
pub fn items_shown(shape: &Shape, c: u64, k: u64, wanted: usize) -> usize
    requires c { c < modulus_of shape.now }
    requires k { k < modulus_of shape.now }
    requires shows { counts.ShowsItem shape.now c k }
    requires some { 1 ≤ wanted }
    ensures some { 1 ≤ result }
    ensures few { result ≤ wanted }
    ensures shown { result ≤ counts.distance (modulus_of shape.now) c k }
    ensures all { (result ≡ wanted) ⊎ (result ≡ counts.distance (modulus_of shape.now) c k) }
{
    let shown = distance(c, k, shape.modulus());
    if shown < wanted as u64 {
        shown as usize
    } else {
        wanted
    }
}
