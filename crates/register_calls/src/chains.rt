//! The earlier reads that a reason names, and those that bound each reader's reads.
ghost use Rattle.std.specs.Prelude.{◌≡◌, ◌<◌, ◌∷◌, [], List, None, length, slice_index_or, if◌then◌else◌};
ghost use Rattle.register_calls.specs.Chains.{IsLinkedChain, KeepsChain, RaisesChain, ShowsReads, chain_at, fresh_chain, leans};
ghost use Rattle.register_calls.specs.declared.reasons.EarlierRead.{EarlierRead};

use crate::reasons::EarlierRead;
use lists::Fifo;

/// How many reads a reason names at most.
pub const NAMED: usize = 8;

/// The first of the reads that a reason names, and whether there are more.
#[derive(Clone, Copy, PartialEq, Eq, Debug)]
pub struct Chain {
    pub(crate) reads: [Option<EarlierRead>; 8],
    pub(crate) is_cut: bool,
}

impl Chain {
    /// No read: for slots that a witness will use.
    pub fn new() -> Chain
        ensures fresh { result ≡ fresh_chain }
        ensures none { ShowsReads result [] }
    {
        Chain {
            reads: [None; 8],
            is_cut: false,
        }
    }

    // The read alone.
    pub(crate) fn of(read: EarlierRead) -> Chain
        ensures { (reads : List EarlierRead) → ShowsReads fresh_chain reads → ShowsReads result (read ∷ reads) }
    {
        let first = Some(read);
        let is_cut = false;
        Chain {
            reads: [first, None, None, None, None, None, None, None],
            is_cut,
        }
    }

    // The read, and after it those of this chain.
    pub(crate) fn after(&self, read: EarlierRead) -> Chain
        ensures { (reads : List EarlierRead) → ShowsReads self.now reads → ShowsReads result (read ∷ reads) }
    {
        let of = self.reads;
        Chain {
            reads: [Some(read), of[0], of[1], of[2], of[3], of[4], of[5], of[6]],
            is_cut: self.is_cut || of[7].is_some(),
        }
    }

    /// The read at this place, from 0, if there is one among the first 8.
    pub fn read(&self, place: usize) -> Option<EarlierRead>
        ensures { result ≡ slice_index_or self.now.reads place None }
    {
        match self.reads.get(place) {
            Some(read) => *read,
            None => None,
        }
    }

    /// Whether there are more than 8.
    pub fn is_cut(&self) -> bool
        ensures { result ≡ self.now.is_cut }
    {
        self.is_cut
    }
}

// The chain at this place; no read past the end.
pub(crate) fn chain_of<C: Fifo<Chain>>(chains: &C, reader: usize) -> Chain
    ensures { result ≡ chain_at (C.items chains.now) reader }
{
    match chains.get(reader) {
        Some(chain) => *chain,
        None => Chain::new(),
    }
}

// Puts a chain at this place, if the floor that it bounds is above the writes that have ended.
pub(crate) fn keep_chain<C: Fifo<Chain>>(
    chains: &mut C,
    reader: usize,
    ended: usize,
    floor: usize,
    chain: &Chain,
)
    requires { reader < length (C.items chains.old) }
    ensures { KeepsChain (C.items chains.old) (C.items chains.new) reader ended floor chain.now }
{
    if ended < floor {
        chains.set(reader, *chain);
    }
}

// The same for the chain at this place in another list.
pub(crate) fn keep_own<C: Fifo<Chain>>(
    chains: &mut C,
    own: &C,
    reader: usize,
    ended: usize,
    floor: usize,
)
    requires { reader < length (C.items chains.old) }
    ensures { KeepsChain (C.items chains.old) (C.items chains.new) reader ended floor (chain_at (C.items own.now) reader) }
{
    if ended < floor {
        chains.set(reader, chain_of(own, reader));
    }
}

// Whether a read that ends depends on the reads that bound it: not if the first write that it may be of, by the writes that had ended when
// it began, does not come before its low.
pub(crate) fn leans(of_any: Option<usize>, low: usize) -> bool
    ensures { result ≡ leans of_any low }
{
    match of_any {
        Some(number) => number < low,
        None => false,
    }
}

// The read, and after it those of the chain at this place, if it depends on them.
pub(crate) fn linked<C: Fifo<Chain>>(
    bounds: &C,
    reader: usize,
    leaning: bool,
    link: EarlierRead,
) -> Chain
    ensures { (reads : List EarlierRead) → ShowsReads (if leaning then chain_at (C.items bounds.now) reader else
        fresh_chain) reads → ShowsReads result (link ∷ reads) }
{
    if leaning {
        match bounds.get(reader) {
            Some(chain) => chain.after(link),
            None => Chain::new().after(link),
        }
    } else {
        Chain::of(link)
    }
}

// The chain of a floor after a read that raised it ended, if there is a link.
pub(crate) fn raise_floor<C: Fifo<Chain>>(
    chain: &mut Chain,
    bounds: &C,
    reader: usize,
    leaning: bool,
    link: Option<EarlierRead>,
)
    ensures { IsLinkedChain chain.old (if leaning then chain_at (C.items bounds.now) reader else fresh_chain) link
        chain.new }
{
    match link {
        Some(link) => *chain = linked(bounds, reader, leaning, link),
        None => {}
    }
}

// The same for the chain at this place.
pub(crate) fn raise_own<C: Fifo<Chain>>(
    chains: &mut C,
    bounds: &C,
    reader: usize,
    leaning: bool,
    link: Option<EarlierRead>,
)
    requires { reader < length (C.items chains.old) }
    ensures { RaisesChain (C.items chains.old) (C.items chains.new) reader (if leaning then
        chain_at (C.items bounds.now) reader else fresh_chain) link }
{
    match link {
        Some(link) => chains.set(reader, linked(bounds, reader, leaning, link)),
        None => {}
    }
}
