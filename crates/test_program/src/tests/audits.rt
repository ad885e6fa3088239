//! What `audit` prints of a trace.

use crate::tests::expects::{AUDIT, expect_finding_texts, expect_verdicts};
use bits_core::Kind;

static FOUND: [(&str, u8, &str); 14] = [
    // nothing
    ("shape 1 3 1\n", 0, "lawful\nput\ntaken\ntold no\n"),
    // new and then old: lawful for the bits, and of no program
    (
        "shape 1 3 1\nP write s0 0\nC read s0\nC got s0 1\nC read s0\nC got s0 0\nP wrote s0\nC read s0\nC got s0 0\n",
        3,
        "fault: line 2: not of the program\n",
    ),
    // the count before the cell
    (
        "shape 1 3 1\nP read r0\nP got r0 1\nP write s1 1\n",
        3,
        "fault: line 4: not of the program\n",
    ),
    // a put whose count write has begun, and one whose has not
    (
        "shape 1 3 1\nP read r0\nP got r0 1\nP write c0.0 1\nP wrote c0.0\nP write s1 1\n",
        0,
        "lawful\nput 1\ntaken\ntold no\n",
    ),
    (
        "shape 1 3 1\nP read r0\nP got r0 1\nP write c0.0 1\nP wrote c0.0\n",
        0,
        "lawful\nput\ntaken\ntold no\n",
    ),
    // the largest item
    (
        "shape 1 3 2\nP read r0\nP got r0 1\nP write c0.0 1\nP wrote c0.0\nP write c0.1 1\nP wrote c0.1\nP write s1 1\n",
        0,
        "lawful\nput 3\ntaken\ntold no\n",
    ),
    // nothing after the close
    (
        "shape 1 3 1\nP write x 1\nP wrote x\nP read r0\n",
        3,
        "fault: line 4: not of the program\n",
    ),
    (
        "shape 1 3 1\nP write x 1\nP wrote x\n",
        0,
        "lawful\nput\ntaken\ntold no\n",
    ),
    // a take returns Closed while the close bit is being written; then nothing comes
    (
        "shape 1 3 1\nP write x 1\nC read s0\nC got s0 1\nC read x\nC got x 1\nC read s0\nC got s0 1\n",
        0,
        "lawful\nput\ntaken\ntold yes\n",
    ),
    (
        "shape 1 3 1\nP write x 1\nC read s0\nC got s0 1\nC read x\nC got x 1\nC read s0\nC got s0 1\nC read s0\n",
        3,
        "fault: line 9: not of the program\n",
    ),
    // a fault of the bits, if it comes first or together with the program's
    (
        "shape 1 3 1\nC read s0\nC got s0 0\nP write s1 1\n",
        3,
        "fault: line 3: not permitted\n",
    ),
    (
        "shape 1 3 1\nC write s0 1\n",
        3,
        "fault: line 2: wrong side\n",
    ),
    // the program's fault first
    (
        "shape 1 3 1\nC read x\nC got x 1\n",
        3,
        "fault: line 2: not of the program\n",
    ),
    // a batch, which the shape's fifth number allows
    (
        "shape 3 7 1 2\nP read r0\nP got r0 1\nP write c0.0 1\nP wrote c0.0\nP write c1.0 0\nP wrote c1.0\nP write s2 1\n",
        0,
        "lawful\nput 1 0\ntaken\ntold no\n",
    ),
];

#[test]
fn tells_what_the_audit_finds(rt: HostRuntime) {
    expect_verdicts(&rt, AUDIT, &FOUND);
}

#[test]
fn findings_have_their_texts(rt: HostRuntime) {
    let fault = (
        usize::MAX,
        Kind::NotProgram,
        "fault: line 18446744073709551617: not of the program\n",
    );
    let text = "lawful\nput 0 18446744073709551615\ntaken\ntold yes\n";
    expect_finding_texts(&rt, fault, (&[0, u64::MAX], &[], true, text));
}
