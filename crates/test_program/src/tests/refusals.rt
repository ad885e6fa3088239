//! What is printed of a trace or a script that is refused.

use crate::tests::expects::{AUDIT, BITS, CALLS, PLAY, TRACE, expect_refusals};

static TRACES: [(&[u8], &str); 51] = [
    // no text
    (
        b"",
        "refused: trace line 1 is not a line of the format\n  there is no text: line 1 is to be: shape CAPACITY MODULUS WIDTH\n",
    ),
    // another encoding
    (
        b"\xef\xbb\xbfshape 1 3 1\n",
        "refused: trace line 1 is not a line of the format\n  line 1 begins with a byte order mark: \"\\xef\\xbb\\xbfshape 1 3 1\"\n",
    ),
    (
        b"\xff\xfes\x00h\x00\n\x00",
        "refused: trace line 1 is not a line of the format\n  line 1 is UTF-16 text: \"\\xff\\xfes\\x00h\\x00\"\n",
    ),
    (
        b"\xfe\xff\x00s\x00\n",
        "refused: trace line 1 is not a line of the format\n  line 1 is UTF-16 text: \"\\xfe\\xff\\x00s\\x00\"\n",
    ),
    // a byte order mark is one only at the front
    (
        b"shape 1 3 1\n\xef\xbb\xbfP read r0\n",
        "refused: trace line 2 is not a line of the format\n  line 2 is none of: S read BIT, S got BIT V, S write BIT V, S wrote BIT: \"\\xef\\xbb\\xbfP read r0\"\n",
    ),
    // a script
    (
        b"{\"capacity\":1}\r\n",
        "refused: trace line 1 is not a line of the format\n  it looks like a script: lamport_ring play reads it\n",
    ),
    (
        b"\n\t {",
        "refused: trace line 1 is not a line of the format\n  it looks like a script: lamport_ring play reads it\n",
    ),
    // a further line is not one
    (
        b"shape 1 3 1\n{\n",
        "refused: trace line 2 is not a line of the format\n  line 2 is none of: S read BIT, S got BIT V, S write BIT V, S wrote BIT: \"{\"\n",
    ),
    // the ends of a line
    (
        b"shape 1 3 1\r\nP read r0\r\n",
        "refused: trace line 1 is not a line of the format\n  line 1 ends in a carriage return: \"shape 1 3 1\\r\"\n",
    ),
    (
        b"shape 1 3 1\nP read r0\nP got r0 1 \r\n",
        "refused: trace line 3 is not a line of the format\n  line 3 ends in a carriage return: \"P got r0 1 \\r\"\n",
    ),
    (
        b"shape 1 3 1\n\r",
        "refused: trace line 2 is not a line of the format\n  line 2 ends in a carriage return: \"\\r\"\n",
    ),
    (
        b"\nshape 1 3 1\n",
        "refused: trace line 1 is not a line of the format\n  line 1 is empty: \"\"\n",
    ),
    (
        b"shape 1 3 1\n\nP read r0\n",
        "refused: trace line 2 is not a line of the format\n  line 2 is empty: \"\"\n",
    ),
    (
        b"shape 1 3 1 \n",
        "refused: trace line 1 is not a line of the format\n  line 1 ends in a space: \"shape 1 3 1 \"\n",
    ),
    (
        b"shape 1 3 1\n P read r0 ",
        "refused: trace line 2 is not a line of the format\n  line 2 ends in a space: \" P read r0 \"\n",
    ),
    (
        b"shape 1 3 1\n P read r0",
        "refused: trace line 2 is not a line of the format\n  line 2 begins with a space: \" P read r0\"\n",
    ),
    (
        b"shape 1 3 1",
        "refused: trace line 1 is not a line of the format\n  line 1 has no line feed at its end: \"shape 1 3 1\"\n",
    ),
    (
        b"shape 1 3 1\nP read r0",
        "refused: trace line 2 is not a line of the format\n  line 2 has no line feed at its end: \"P read r0\"\n",
    ),
    (
        b"shape 1 3 1\nP read r",
        "refused: trace line 2 is not a line of the format\n  line 2 has no line feed at its end: \"P read r\"\n",
    ),
    // a bit of another shape, or of none
    (
        b"shape 1 3 1\nP read r3\n",
        "refused: trace line 2 is not a line of the format\n  line 2 names a bit that is not in the shape: \"P read r3\"\n",
    ),
    (
        b"shape 1 3 1\nC got s3 1\n",
        "refused: trace line 2 is not a line of the format\n  line 2 names a bit that is not in the shape: \"C got s3 1\"\n",
    ),
    (
        b"shape 1 3 1\nP write c1.0 0\n",
        "refused: trace line 2 is not a line of the format\n  line 2 names a bit that is not in the shape: \"P write c1.0 0\"\n",
    ),
    (
        b"shape 1 3 1\nC wrote c0.1\n",
        "refused: trace line 2 is not a line of the format\n  line 2 names a bit that is not in the shape: \"C wrote c0.1\"\n",
    ),
    (
        b"shape 1 3 1\nP read s300\n",
        "refused: trace line 2 is not a line of the format\n  line 2 names a bit that is not in the shape: \"P read s300\"\n",
    ),
    // words of no line
    (
        b"shape 1 3\n",
        "refused: trace line 1 is not a line of the format\n  line 1 is not: shape CAPACITY MODULUS WIDTH [BATCH [TAKE_BATCH]], in numbers of at most 4 digits: \"shape 1 3\"\n",
    ),
    (
        b"shape 10000 3 1\n",
        "refused: trace line 1 is not a line of the format\n  line 1 is not: shape CAPACITY MODULUS WIDTH [BATCH [TAKE_BATCH]], in numbers of at most 4 digits: \"shape 10000 3 1\"\n",
    ),
    (
        b"shape 1 3 1 1\n",
        "refused: trace line 1 is not a line of the format\n  line 1 ends in a batch of 1, which is left out: \"shape 1 3 1 1\"\n",
    ),
    (
        b"shape 3 7 1 3 1\n",
        "refused: trace line 1 is not a line of the format\n  line 1 ends in a batch of 1, which is left out: \"shape 3 7 1 3 1\"\n",
    ),
    // recorded calls
    (
        b"queue 8\nP put 1\n",
        "refused: trace line 1 is not a line of the format\n  it looks like recorded calls: lamport_ring audit --calls reads them\n",
    ),
    (
        b"cut queue\n",
        "refused: trace line 1 is not a line of the format\n  it looks like recorded calls: lamport_ring audit --calls reads them\n",
    ),
    (
        b"shape 1 3 1\nQ read r3\n",
        "refused: trace line 2 is not a line of the format\n  line 2 is none of: S read BIT, S got BIT V, S write BIT V, S wrote BIT: \"Q read r3\"\n",
    ),
    (
        b"shape 1 3 1\nP sees r3\n",
        "refused: trace line 2 is not a line of the format\n  line 2 is none of: S read BIT, S got BIT V, S write BIT V, S wrote BIT: \"P sees r3\"\n",
    ),
    (
        b"shape 1 3 1\nP read r3 1\n",
        "refused: trace line 2 is not a line of the format\n  line 2 is none of: S read BIT, S got BIT V, S write BIT V, S wrote BIT: \"P read r3 1\"\n",
    ),
    (
        b"shape 1 3 1\nP got r3\n",
        "refused: trace line 2 is not a line of the format\n  line 2 is none of: S read BIT, S got BIT V, S write BIT V, S wrote BIT: \"P got r3\"\n",
    ),
    (
        b"shape 1 3 1\nP got r3 2\n",
        "refused: trace line 2 is not a line of the format\n  line 2 is none of: S read BIT, S got BIT V, S write BIT V, S wrote BIT: \"P got r3 2\"\n",
    ),
    (
        b"shape 1 3 1\nP wrote r3 1 1\n",
        "refused: trace line 2 is not a line of the format\n  line 2 is none of: S read BIT, S got BIT V, S write BIT V, S wrote BIT: \"P wrote r3 1 1\"\n",
    ),
    (
        b"shape 1 3 1\nP read\n",
        "refused: trace line 2 is not a line of the format\n  line 2 is none of: S read BIT, S got BIT V, S write BIT V, S wrote BIT: \"P read\"\n",
    ),
    (
        b"shape 1 3 1\nP read r\n",
        "refused: trace line 2 is not a line of the format\n  line 2 is none of: S read BIT, S got BIT V, S write BIT V, S wrote BIT: \"P read r\"\n",
    ),
    (
        b"shape 1 3 1\nP read r03\n",
        "refused: trace line 2 is not a line of the format\n  line 2 is none of: S read BIT, S got BIT V, S write BIT V, S wrote BIT: \"P read r03\"\n",
    ),
    (
        b"shape 1 3 1\nP read t3\n",
        "refused: trace line 2 is not a line of the format\n  line 2 is none of: S read BIT, S got BIT V, S write BIT V, S wrote BIT: \"P read t3\"\n",
    ),
    (
        b"shape 1 3 1\nP read c3\n",
        "refused: trace line 2 is not a line of the format\n  line 2 is none of: S read BIT, S got BIT V, S write BIT V, S wrote BIT: \"P read c3\"\n",
    ),
    (
        b"shape 1 3 1\nP read c3.0.0\n",
        "refused: trace line 2 is not a line of the format\n  line 2 is none of: S read BIT, S got BIT V, S write BIT V, S wrote BIT: \"P read c3.0.0\"\n",
    ),
    (
        b"shape 1 3 1\nP read c3.x\n",
        "refused: trace line 2 is not a line of the format\n  line 2 is none of: S read BIT, S got BIT V, S write BIT V, S wrote BIT: \"P read c3.x\"\n",
    ),
    // bytes that are not printed unchanged
    (
        b"shape 1 3 1\nP\tread \"\\\x1b\x7f\xc3\xa9\n",
        "refused: trace line 2 is not a line of the format\n  line 2 has a tab or another control character: between two words stands one space: \"P\\tread \\\"\\\\\\x1b\\x7f\\xc3\\xa9\"\n",
    ),
    // as much of a line as is shown, and more
    (
        b"shape 1 3 1\naaaaaaaaaaaaaaaaaaaaaaaaaaaaaaaaaaaaaaaaaaaaaaaaaaaaaaaaaaaaaaaaaaaaaaaaaaaaaaaa\n",
        "refused: trace line 2 is not a line of the format\n  line 2 is none of: S read BIT, S got BIT V, S write BIT V, S wrote BIT: \"aaaaaaaaaaaaaaaaaaaaaaaaaaaaaaaaaaaaaaaaaaaaaaaaaaaaaaaaaaaaaaaaaaaaaaaaaaaaaaaa\"\n",
    ),
    (
        b"shape 1 3 1\naaaaaaaaaaaaaaaaaaaaaaaaaaaaaaaaaaaaaaaaaaaaaaaaaaaaaaaaaaaaaaaaaaaaaaaaaaaaaaaaa\n",
        "refused: trace line 2 is not a line of the format\n  line 2 is none of: S read BIT, S got BIT V, S write BIT V, S wrote BIT: \"aaaaaaaaaaaaaaaaaaaaaaaaaaaaaaaaaaaaaaaaaaaaaaaaaaaaaaaaaaaaaaaaaaaaaaaaaaaaaaaa\"..\n",
    ),
    (
        b"shape 1 3 1\naaaaaaaaaaaaaaaaaaaaaaaaaaaaaaaaaaaaaaaaaaaaaaaaaaaaaaaaaaaaaaaaaaaaaaaaaaaaaaa\t\n",
        "refused: trace line 2 is not a line of the format\n  line 2 has a tab or another control character: between two words stands one space: \"aaaaaaaaaaaaaaaaaaaaaaaaaaaaaaaaaaaaaaaaaaaaaaaaaaaaaaaaaaaaaaaaaaaaaaaaaaaaaaa\"..\n",
    ),
    // numbers that make no shape
    (
        b"shape 1 2 1\n",
        "refused: modulus must be from capacity + batch + 1 to 256\n",
    ),
    (
        b"shape 65 2 1\n",
        "refused: capacity must be from 1 to 64\n",
    ),
    (
        b"shape 1 3 0\r\n",
        "refused: trace line 1 is not a line of the format\n  line 1 ends in a carriage return: \"shape 1 3 0\\r\"\n",
    ),
    (b"shape 1 3 0\n", "refused: width must be from 1 to 64\n"),
];

#[test]
fn says_what_is_wrong_in_a_trace(rt: HostRuntime) {
    expect_refusals(&rt, &[AUDIT, BITS], &TRACES);
}

static SCRIPTS: [(&[u8], &str); 28] = [
    // not JSON
    (
        b"",
        "refused: script is not JSON\n  there is no text: a script is a JSON object, lamport_ring play --help shows one\n",
    ),
    (
        b"shape 1 3 1\n",
        "refused: script is not JSON\n  it looks like a trace: lamport_ring audit reads it\n",
    ),
    (
        b"queue 8\n",
        "refused: script is not JSON\n  it looks like recorded calls: lamport_ring audit --calls reads them\n",
    ),
    (
        b"{",
        "refused: script is not JSON\n  EOF while parsing at line 1 column 1\n",
    ),
    (
        b"{\n \"capacity\": x}",
        "refused: script is not JSON\n  invalid JSON at line 2 column 14\n",
    ),
    (
        b"{\"capacity\":1,}\n",
        "refused: script is not JSON\n  invalid JSON at line 1 column 15\n",
    ),
    (
        b"\xff",
        "refused: script is not JSON\n  invalid JSON at line 1 column 1\n",
    ),
    // the refusal already says it
    (b"[]", "refused: script is not an object\n"),
    (b"{}", "refused: field capacity is missing\n"),
    (
        b"{\"capacity\":1,\"modulus\":2,\"width\":1,\"items\":[1],\"takes\":1,\"close\":false,\"schedule\":\"P8C10\",\"oracle\":\"\"}",
        "refused: modulus must be from capacity + batch + 1 to 256\n",
    ),
    (
        b"{\"capacity\":1,\"modulus\":3,\"width\":1,\"items\":[1],\"takes\":1,\"close\":false,\"schedule\":\"P8C10\",\"oracle\":\"\",\"batch\":0}",
        "refused: batch must be from 1 to capacity\n",
    ),
    (
        b"{\"capacity\":1,\"modulus\":3,\"width\":1,\"items\":[2],\"takes\":1,\"close\":false,\"schedule\":\"P8C10\",\"oracle\":\"\"}",
        "refused: item 0 does not fit the width\n",
    ),
    (
        b"{\"capacity\":1,\"modulus\":3,\"width\":1,\"items\":[1],\"takes\":1,\"close\":false,\"schedule\":\"P1000001\",\"oracle\":\"\"}",
        "refused: schedule is too long\n",
    ),
    // fields
    (
        b"{\"capacity\":1,\"modulus\":3,\"width\":1,\"items\":[1],\"takes\":1,\"close\":false,\"schedule\":\"P8C10\",\"oracle\":\"\",\"note\":1}",
        "refused: script has an unknown field\n  the fields are capacity, modulus, width, items, takes, close, schedule, oracle, batch and take_batch\n",
    ),
    (
        b"{\"capacity\":\"1\",\"modulus\":3,\"width\":1,\"items\":[1],\"takes\":1,\"close\":false,\"schedule\":\"P8C10\",\"oracle\":\"\"}",
        "refused: field capacity has the wrong kind\n  capacity is a whole number from 0 to 18446744073709551615, with no sign, fraction or exponent\n",
    ),
    (
        b"{\"capacity\":1,\"modulus\":3.0,\"width\":1,\"items\":[1],\"takes\":1,\"close\":false,\"schedule\":\"P8C10\",\"oracle\":\"\"}",
        "refused: field modulus has the wrong kind\n  modulus is a whole number from 0 to 18446744073709551615, with no sign, fraction or exponent\n",
    ),
    (
        b"{\"capacity\":1,\"modulus\":3,\"width\":null,\"items\":[1],\"takes\":1,\"close\":false,\"schedule\":\"P8C10\",\"oracle\":\"\"}",
        "refused: field width has the wrong kind\n  width is a whole number from 0 to 18446744073709551615, with no sign, fraction or exponent\n",
    ),
    (
        b"{\"capacity\":1,\"modulus\":3,\"width\":1,\"items\":[1],\"takes\":-1,\"close\":false,\"schedule\":\"P8C10\",\"oracle\":\"\"}",
        "refused: field takes has the wrong kind\n  takes is a whole number from 0 to 18446744073709551615, with no sign, fraction or exponent\n",
    ),
    (
        b"{\"capacity\":1,\"modulus\":3,\"width\":1,\"items\":[1],\"takes\":1,\"close\":false,\"schedule\":\"P8C10\",\"oracle\":\"\",\"batch\":18446744073709551616}",
        "refused: field batch has the wrong kind\n  batch is a whole number from 0 to 18446744073709551615, with no sign, fraction or exponent\n",
    ),
    (
        b"{\"capacity\":1,\"modulus\":3,\"width\":1,\"items\":[1,-1],\"takes\":1,\"close\":false,\"schedule\":\"P8C10\",\"oracle\":\"\"}",
        "refused: field items has the wrong kind\n  items is an array of whole numbers, each from 0 to 18446744073709551615\n",
    ),
    (
        b"{\"capacity\":1,\"modulus\":3,\"width\":1,\"items\":[1],\"takes\":1,\"close\":0,\"schedule\":\"P8C10\",\"oracle\":\"\"}",
        "refused: field close has the wrong kind\n  close is true or false\n",
    ),
    (
        b"{\"capacity\":1,\"modulus\":3,\"width\":1,\"items\":[1],\"takes\":1,\"close\":false,\"schedule\":[\"P\"],\"oracle\":\"\"}",
        "refused: field schedule has the wrong kind\n  schedule is a text of letters P and C with counts, as \"P8C10\"\n",
    ),
    (
        b"{\"capacity\":1,\"modulus\":3,\"width\":1,\"items\":[1],\"takes\":1,\"close\":false,\"schedule\":\"P8C10\",\"oracle\":0}",
        "refused: field oracle has the wrong kind\n  oracle is a text of 0 and 1\n",
    ),
    // bytes that cannot come in a text
    (
        b"{\"capacity\":1,\"modulus\":3,\"width\":1,\"items\":[1],\"takes\":1,\"close\":false,\"schedule\":\"P0C\",\"oracle\":\"\"}",
        "refused: schedule is wrong at byte 1\n  byte 1 of schedule is \"0\"\n",
    ),
    (
        b"{\"capacity\":1,\"modulus\":3,\"width\":1,\"items\":[1],\"takes\":1,\"close\":false,\"schedule\":\"P8 C10\",\"oracle\":\"\"}",
        "refused: schedule is wrong at byte 2\n  byte 2 of schedule is \" \"\n",
    ),
    (
        b"{\"capacity\":1,\"modulus\":3,\"width\":1,\"items\":[1],\"takes\":1,\"close\":false,\"schedule\":\"P8\\u0009\",\"oracle\":\"\"}",
        "refused: schedule is wrong at byte 2\n  byte 2 of schedule is \"\\t\"\n",
    ),
    (
        b"{\"capacity\":1,\"modulus\":3,\"width\":1,\"items\":[1],\"takes\":1,\"close\":false,\"schedule\":\"P8C10\",\"oracle\":\"01x\"}",
        "refused: oracle is wrong at byte 2\n  byte 2 of oracle is \"x\"\n",
    ),
    (
        b"{\"capacity\":1,\"modulus\":3,\"width\":1,\"items\":[1],\"takes\":1,\"close\":false,\"schedule\":\"P8C10\",\"oracle\":\"0\\u00e9\"}",
        "refused: oracle is wrong at byte 1\n  byte 1 of oracle is \"\\xc3\"\n",
    ),
];

#[test]
fn says_what_is_wrong_in_a_script(rt: HostRuntime) {
    expect_refusals(&rt, &[PLAY, TRACE, CALLS], &SCRIPTS);
}
