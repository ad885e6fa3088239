//! What `audit --why` prints.

use crate::tests::expects::expect_whys;

const WHY: &[&str] = &["lamport_ring", "audit", "--why"];

const BITS_WHY: &[&str] = &["lamport_ring", "audit", "--bits", "--why"];

// What is due by the programs, if the bits are lawful.
static DUES: [(&str, &str); 5] = [
    // a lawful history has no further line
    (
        "shape 1 3 1\nP read r0\nP got r0 1\n",
        "lawful\nput\ntaken\ntold no\n",
    ),
    // after the scan of a put comes its cell, for an item not known yet, and not its count
    (
        "shape 1 3 1\nP read r0\nP got r0 1\nP write s1 1\n",
        "fault: line 4: not of the program\ndue: P write c0.0 0\ndue: P write c0.0 1\n",
    ),
    // after the cell the count
    (
        "shape 1 3 1\nP read r0\nP got r0 1\nP write c0.0 1\nP wrote c0.0\nP read r0\n",
        "fault: line 6: not of the program\ndue: P write s1 1\n",
    ),
    // between two calls: the close, or the scan of a put
    (
        "shape 1 3 1\nP write s1 1\n",
        "fault: line 2: not of the program\ndue: P read r0\ndue: P write x 1\n",
    ),
    // after its close the producer makes no call
    (
        "shape 1 3 1\nP write x 1\nP wrote x\nP read r0\n",
        "fault: line 4: not of the program\ndue: nothing\n",
    ),
];

#[test]
fn says_what_was_due(rt: HostRuntime) {
    expect_whys(&rt, &[WHY], &DUES);
}

// Why the bits do not permit an event, with the programs and without them.
static REASONS: [(&str, &str); 6] = [
    // first values
    (
        "shape 1 3 1\nC read s0\nC got s0 0\n",
        "fault: line 3: not permitted\nheld: 1 since the start, where the read began at line 2\n",
    ),
    // an end without a start
    (
        "shape 1 3 1\nP got r0 1\n",
        "fault: line 2: out of turn\nopen: nothing\n",
    ),
    // two starts; the other side's access between them does not matter
    (
        "shape 1 3 1\nP read r0\nC read s0\nP read r0\n",
        "fault: line 4: out of turn\nopen since line 2: P read r0\n",
    ),
    // the end of an access other than the open one
    (
        "shape 1 3 1\nP write x 1\nP got r0 1\n",
        "fault: line 3: out of turn\nopen since line 2: P write x 1\n",
    ),
    // a reader writes, a writer reads
    (
        "shape 1 3 1\nC write s0 1\n",
        "fault: line 2: wrong side\nonly by: P\n",
    ),
    (
        "shape 1 3 1\nP read s0\n",
        "fault: line 2: wrong side\nonly by: C\n",
    ),
];

// What a written bit held: the value of the last write that ended, before the read began.
static HELD: [(&str, &str); 3] = [
    (
        "shape 1 3 1\nP write s0 0\nP wrote s0\nC read s0\nC got s0 1\n",
        "fault: line 5: not permitted\nheld: 0 since line 3, where the read began at line 4\n",
    ),
    (
        "shape 1 3 1\nP write s0 0\nP wrote s0\nP write s1 1\nP wrote s1\nP write s0 1\nP wrote s0\nC read s0\nP write s1 0\nC got s0 0\n",
        "fault: line 10: not permitted\nheld: 1 since line 7, where the read began at line 8\n",
    ),
    (
        "shape 1 3 1\nP write s0 0\nC read s0\nC got s0 1\n",
        "lawful\n",
    ),
];

#[test]
fn says_why_the_bits_do_not_permit_it(rt: HostRuntime) {
    expect_whys(&rt, &[WHY, BITS_WHY], &REASONS);
    expect_whys(&rt, &[BITS_WHY], &HELD);
}
