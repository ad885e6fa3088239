//! What `play --wrong` prints.

use crate::tests::expects::{expect_run_on, expect_wrong, words_of};

const PLAIN: &str =
    "{\"capacity\":1,\"modulus\":3,\"width\":1,\"items\":[1],\"takes\":1,\"close\":false,\"schedule\":\"P5C10\",\"oracle\":\"\"}";

const TRACE: &str =
    "shape 1 3 1\nP read r0\nP got r0 1\nP write s1 1\nP wrote s1\nP write s0 0\nC read s0\nC got s0 0\nC read s1\nC got s1 1\nC read c0.0\nC got c0.0 0\nC write r1 1\nC wrote r1\nC write r0 0\nC wrote r0\n";

const CALLS: &str = "queue 1\nP put 1\nC take\nC item 0\n";

const WRONG: &str = "lamport_ring play --wrong count-before-cell";

#[test]
fn plays_a_script_by_a_near_miss(rt: HostRuntime) {
    for (option, out) in [("--trace", TRACE), ("--calls", CALLS)] {
        let mut words = words_of(&rt, WRONG);
        words.push(option).expect(&rt, "memory for words");
        let mut bytes = PLAIN.as_bytes();
        expect_run_on(&rt, words.as_slice(), &mut bytes, 0, out, "");
    }
}

const SEVERAL: &str =
    "{\"capacity\":2,\"modulus\":5,\"width\":3,\"take_batch\":2,\"items\":[1,2,3,5,4],\"takes\":4,\"close\":false,\"schedule\":\"P24C21P36C27\",\"oracle\":\"001\"}";

const SEVERAL_CALLS: &str =
    "queue 2\nP put 1\nP stored\nP put 2\nP stored\nC take 2\nP put 3\nP stored\nP put 5\nP stored\nP put 4\nC item 1 2\nC take 2\nC item 0 5\n";

#[test]
fn a_take_of_several_tells_its_items(rt: HostRuntime) {
    let words = words_of(&rt, "lamport_ring play --wrong small-modulus --calls");
    let mut bytes = SEVERAL.as_bytes();
    expect_run_on(&rt, words.as_slice(), &mut bytes, 0, SEVERAL_CALLS, "");
}

// A complaint, and words after the program's name that do not go together.
static CLASHES: [(&str, &[&str]); 8] = [
    (
        "no near miss is called 'torus': there are count-before-cell, no-second-scan, small-modulus, clears-first and clears-upwards",
        &["play --wrong torus --calls"],
    ),
    (
        "a play by a near miss prints its trace or its calls: --wrong goes with --trace or with --calls",
        &[
            "play --wrong=small-modulus",
            "play --wrong small-modulus --calls --trace",
        ],
    ),
    (
        "--why goes with a trace that is kept, so neither with --long nor with --calls",
        &[
            "audit --why --calls",
            "audit --bits --long --why",
            "audit --calls --stop --why",
        ],
    ),
    (
        "an audit of recorded calls or of a recorded register may stop at the first fault: --stop goes with --calls or --register",
        &["audit --stop", "audit --stop --bits --why"],
    ),
    (
        "an audit of a register goes with --at-least, --report and --stop alone: not with --bits, --long, --calls or --why",
        &[
            "audit --register --bits",
            "audit --calls --register",
            "audit --register --stop --why",
            "audit --long --register",
        ],
    ),
    (
        "a class and a report are asked of a recorded register: --at-least and --report go with --register",
        &[
            "audit --report",
            "audit --at-least safe",
            "audit --calls --at-least=regular",
        ],
    ),
    (
        "no class is called 'best': there are safe, regular, atomic-by-reader and atomic",
        &[
            "audit --register --at-least best",
            "audit --register --at-least=best --stop",
        ],
    ),
    (
        "a play prints a trace or its calls: --trace and --calls do not go together",
        &["play --trace --calls"],
    ),
];

#[test]
fn refuses_words_that_do_not_go_together(rt: HostRuntime) {
    for (complaint, lines) in CLASHES.iter() {
        for line in lines.iter() {
            expect_wrong(&rt, "lamport_ring", line, complaint);
        }
    }
}
