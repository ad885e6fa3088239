// What an observer without either end finds in the words of a ring between the steps of its ends; and what the words are once
// the ring is closed.
use crate::tests::calls::{Call, expect_each};
use crate::tests::expects::{ONE, shape_of};
use crate::tests::steps::begin;
use bits_core::{Bit, Flip};
use ring_core::{PutReply, TakeReply};
use ring_run::{CounterRing, FlickerRing, LastWords, PutEnd, TakeEnd};
use std::alloc::Global;
use std::process::Abort;

const BITS: [Bit; 3] = [Bit::S(0), Bit::S(1), Bit::Cell(0, 0)];

// The words of these bits, before a put of 1 into an empty ring of one cell of one bit, and after each of its steps: r0 is
// read, the digit is written, and s becomes 1.
static PUT: [[u64; 3]; 9] = [
    [1, 0, 0],
    [1, 0, 0],
    [1, 0, 0],
    [1, 0, 2],
    [1, 0, 1],
    [1, 2, 1],
    [1, 1, 1],
    [2, 1, 1],
    [0, 1, 1],
];

fn expect_words(rt: &impl Abort, ring: &FlickerRing<Global>, wanted: &[u64; 3]) {
    let shape = ring.shape();
    for (bit, word) in BITS.iter().zip(wanted) {
        assert!(rt; shape.has(*bit));
        assert!(rt; ring.observe(*bit) == *word, "{bit:?}");
    }
}

#[test]
fn a_word_is_2_while_its_bit_is_written(rt: HostRuntime) {
    let made = FlickerRing::new(rt.alloc(), shape_of(&rt, &ONE));
    let (ring, start) = made.expect(&rt, "memory for the ring");
    let script: (&[u64], bool, usize, &[bool]) = (&[1], false, 0, &[]);
    let (mut producing, _consuming) = begin(&ring, start, script, &[]);
    for words in PUT.iter() {
        expect_words(&rt, &ring, words);
        let _made = producing.step();
    }
}

// The words of the close bit, of both counters and of the cells, in order.
fn expect_counts(rt: &impl Abort, ring: &CounterRing<Global>, wanted: &[u64]) {
    let count = 3 + ring.shape().capacity() as usize;
    assert!(rt; wanted.len() == count);
    for (place, word) in wanted.iter().enumerate() {
        assert!(rt; place < count);
        assert!(rt; ring.observe(place) == *word, "word {place}");
    }
}

#[test]
fn a_counter_ring_s_words_are_counts_and_items(rt: HostRuntime) {
    let shape = shape_of(&rt, &[2, 4, 3, 1]);
    let made = CounterRing::new(rt.alloc(), shape);
    let (ring, start) = made.expect(&rt, "memory for the ring");
    let (mut putter, mut taker) = ring.ends(start);
    expect_counts(&rt, &ring, &[0, 0, 0, 0, 0]);
    assert!(rt; shape.fits(5) && shape.fits(6));
    let _stored = putter.put(5);
    expect_counts(&rt, &ring, &[0, 1, 0, 5, 0]);
    let _stored = putter.put(6);
    expect_counts(&rt, &ring, &[0, 2, 0, 5, 6]);
    let _item = taker.take();
    putter.close();
    expect_counts(&rt, &ring, &[1, 2, 1, 5, 6]);
}

// Each word of a closed ring is 0, except for these.
fn expect_left(rt: &impl Abort, words: &LastWords<Global>, count: usize, wanted: &[(usize, u64)]) {
    assert!(rt; words.len() == count);
    for place in 0..count {
        let found = wanted.iter().find(|it| it.0 == place);
        let word = found.map_or(0, |it| it.1);
        assert!(rt; place < words.len());
        assert!(rt; words.word(place) == word, "word {place}");
    }
}

// Five items, four of them taken.
static FIVE: [Call; 10] = [
    Call::Put(5, PutReply::Stored),
    Call::Put(6, PutReply::Stored),
    Call::Take(TakeReply::Item(5)),
    Call::Put(7, PutReply::Stored),
    Call::Take(TakeReply::Item(6)),
    Call::Take(TakeReply::Item(7)),
    Call::Put(1, PutReply::Stored),
    Call::Put(2, PutReply::Stored),
    Call::Close,
    Call::Take(TakeReply::Item(1)),
];

// The counts wrap at 4: 5 is 1 there, and 4 is 0. The items are alternately in the two cells, the last ones 1 and 2.
#[test]
fn a_closed_counter_ring_leaves_counts_and_items(rt: HostRuntime) {
    let made = CounterRing::new(rt.alloc(), shape_of(&rt, &[2, 4, 3, 1]));
    let (ring, start) = made.expect(&rt, "memory for the ring");
    let (mut putter, mut taker) = ring.ends(start);
    expect_each(&rt, &mut putter, &mut taker, &FIVE);
    let finished = CounterRing::finish(putter, taker);
    let words = ring.close(finished);
    expect_left(&rt, &words, 5, &[(0, 1), (1, 1), (2, 0), (3, 2), (4, 1)]);
}

// Two items, one of them taken.
static TWO: [Call; 4] = [
    Call::Put(3, PutReply::Stored),
    Call::Put(2, PutReply::Stored),
    Call::Take(TakeReply::Item(3)),
    Call::Close,
];

// Of 93 words x is 0, s begins at 17, r at 37, the cells at 57 and 75. The counts are 2 and 1: s2 and r1 are 1, those below 0.
// The items are 3, whose digits are both 1, and 2, whose digit 1 is.
#[test]
fn a_closed_flickering_ring_leaves_its_bits(rt: HostRuntime) {
    let made = FlickerRing::new(rt.alloc(), shape_of(&rt, &[2, 4, 2, 1]));
    let (ring, start) = made.expect(&rt, "memory for the ring");
    let (mut putter, mut taker) = ring.ends(start, Flip::new(), Flip::new());
    expect_each(&rt, &mut putter, &mut taker, &TWO);
    let finished = FlickerRing::finish(putter, taker);
    let words = ring.close(finished);
    expect_left(
        &rt,
        &words,
        93,
        &[(0, 1), (19, 1), (38, 1), (57, 1), (58, 1), (76, 1)],
    );
}
