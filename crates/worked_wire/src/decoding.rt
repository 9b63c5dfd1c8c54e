// What bytes spell.
use crate::shown::{Kind, bytes_of, message};
use std::alloc::{AllocError, Global};
use std::test::Fail;

// Bytes, which message they are read as, and what they say.
const CASES: [(Kind, &str, &str); 39] = [
    (Kind::Dict, "", "0 0 absent"),
    (Kind::Dict, "08ffffffff0f1003", "4294967295 3 absent"),
    (Kind::Dict, "08011800", "1 0 false"),
    (Kind::Dict, "08011802", "1 0 true"),
    // Fields come in any order, and the last spelling of a field wins.
    (Kind::Dict, "180110030805", "5 3 true"),
    (Kind::Dict, "080108021801180008031000", "3 0 false"),
    // A number may be spelled longer, and of more than 32 bits the low ones count.
    (Kind::Dict, "088100", "1 0 absent"),
    (Kind::Dict, "088180808010", "1 0 absent"),
    (Kind::Dict, "10ffffffff0f", "0 -1 absent"),
    (Kind::Dict, "10ffffffffffffffffff01", "0 -1 absent"),
    (Kind::Dict, "1080808080f8ffffffff01", "0 -2147483648 absent"),
    (Kind::Dict, "10ffffffffffffffffff02", "bad"),
    (Kind::Dict, "1080808080808080808000", "0 0 absent"),
    (Kind::Dict, "108080808080808080808000", "bad"),
    // Fields of other numbers are passed over.
    (
        Kind::Dict,
        "200508022901020304050607083202aabb3d01020304",
        "2 0 absent",
    ),
    (Kind::Dict, "3205aa", "bad"),
    (Kind::Dict, "29010203", "bad"),
    (Kind::Dict, "3d010203", "bad"),
    // Groups, fields numbered 0, unknown types and keys past 32 bits are refused.
    (Kind::Dict, "0b", "bad"),
    (Kind::Dict, "0b0c", "bad"),
    (Kind::Dict, "230824", "bad"),
    (Kind::Dict, "0001", "bad"),
    (Kind::Dict, "0e", "bad"),
    (Kind::Dict, "888080801001", "bad"),
    (Kind::Dict, "f8ffffff0f01", "0 0 absent"),
    // A known field of another type is refused.
    (Kind::Dict, "0a0101", "bad"),
    (Kind::Dict, "0d01000000", "bad"),
    (Kind::Dict, "08", "bad"),
    (Kind::V1, "0806", "6 0"),
    (Kind::V1, "08061001", "6 1"),
    (Kind::V1, "0806120101", "bad"),
    (Kind::V1, "0802", "2 0"),
    // Items one by one, in runs, and both.
    (Kind::V2, "0807120103", "7 3"),
    (Kind::V2, "08071003", "7 3"),
    (Kind::V2, "1001120202031004", "0 1 2 3 4"),
    (Kind::V2, "12001200", "0"),
    (Kind::V2, "120bffffffffffffffffff0105", "0 -1 5"),
    (Kind::V2, "12018001", "bad"),
    (Kind::V2, "15010000001003", "bad"),
];

// Whether these bytes say this.
fn says(alloc: Global, kind: Kind, bytes: &str, want: &str) -> Result<bool, AllocError> {
    let bytes = bytes_of(alloc, bytes)?;
    Ok(message(alloc, kind, bytes.as_slice())?.as_str() == want)
}

#[test]
fn bytes_say_what_the_grammar_says(rt: HostRuntime) -> Result<(), Fail> {
    for (kind, bytes, want) in CASES {
        assert!(rt; says(rt.alloc(), kind, bytes, want)?, "{bytes}");
    }
    Ok(())
}

// The bytes of a message with ten thousand lower types, all in one run or each spelled alone.
fn many_types(alloc: Global, in_a_run: bool) -> Result<Vec<u8>, AllocError> {
    let mut bytes = bytes_of(alloc, if in_a_run { "12904e" } else { "" })?;
    for _ in 0..10_000 {
        if !in_a_run {
            bytes.push(16)?;
        }
        bytes.push(3)?;
    }
    Ok(bytes)
}

// How long the text of that message is.
fn length_of_many(alloc: Global, in_a_run: bool) -> Result<usize, AllocError> {
    let bytes = many_types(alloc, in_a_run)?;
    Ok(message(alloc, Kind::V2, bytes.as_slice())?.as_str().len())
}

#[test]
fn ten_thousand_types_are_read(rt: HostRuntime) -> Result<(), Fail> {
    for in_a_run in [true, false] {
        assert_eq!(rt; length_of_many(rt.alloc(), in_a_run)?, 20_001);
    }
    Ok(())
}
