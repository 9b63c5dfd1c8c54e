// What the proper fronts of canonical messages spell: most end inside a field, and are refused.
use crate::shown::{Kind, bytes_of, message};
use std::alloc::{AllocError, Global};
use std::test::Fail;

// A canonical message, and what those of its proper fronts say that end with a field, by their number of bytes.
const FRONTS: [(Kind, &str, &[(usize, &str)]); 10] = [
    (
        Kind::Dict,
        "08011800",
        &[(0, "0 0 absent"), (2, "1 0 absent")],
    ),
    (
        Kind::Dict,
        "08ffffffff0f1003",
        &[(0, "0 0 absent"), (6, "4294967295 0 absent")],
    ),
    (
        Kind::Dict,
        "08ac0210061801",
        &[(0, "0 0 absent"), (3, "300 0 absent"), (5, "300 6 absent")],
    ),
    (Kind::Dict, "10ffffffffffffffffff01", &[(0, "0 0 absent")]),
    (Kind::V1, "0806", &[(0, "0 0")]),
    (Kind::V1, "08061001", &[(0, "0 0"), (2, "6 0")]),
    (
        Kind::V1,
        "08ffffffffffffffffff0110ac02",
        &[(0, "0 0"), (11, "-1 0")],
    ),
    (Kind::V2, "0807", &[(0, "0")]),
    (Kind::V2, "0807120103", &[(0, "0"), (2, "7")]),
    (Kind::V2, "120c01ffffffffffffffffff0102", &[(0, "0")]),
];

// Whether a front says what is listed for its length, and is refused where nothing is listed.
fn front_says(
    alloc: Global,
    kind: Kind,
    front: &[u8],
    says: &[(usize, &str)],
) -> Result<bool, AllocError> {
    let text = message(alloc, kind, front)?;
    for (length, said) in says {
        if *length == front.len() {
            return Ok(text.as_str() == *said);
        }
    }
    Ok(text.as_str() == "bad")
}

// Whether each proper front of a message says what it has to.
fn fronts_say(
    alloc: Global,
    kind: Kind,
    digits: &str,
    says: &[(usize, &str)],
) -> Result<bool, AllocError> {
    let bytes = bytes_of(alloc, digits)?;
    for length in 0..bytes.len() {
        if !front_says(alloc, kind, &bytes[..length], says)? {
            return Ok(false);
        }
    }
    Ok(true)
}

#[test]
fn each_front_is_read_or_refused(rt: HostRuntime) -> Result<(), Fail> {
    for (kind, digits, says) in FRONTS {
        assert!(rt; fronts_say(rt.alloc(), kind, digits, says)?, "{digits}");
    }
    Ok(())
}
