// Names, texts and bytes as keys: their order, equality and hash are those of their bytes.
use std::alloc::{AllocError, Global};
use std::cmp::Ordering;
use std::hash::{DefaultHasher, Hash, Hasher};
use std::test::Fail;
use vortex_array::{Bytes, Name, Text};

// The pairs of texts, and how the first stands to the second.
const PAIRS: [(&str, &str, Ordering); 6] = [
    ("", "", Ordering::Equal),
    ("", "a", Ordering::Less),
    ("a", "a", Ordering::Equal),
    ("ab", "a", Ordering::Greater),
    ("Z", "a", Ordering::Less),
    ("é", "z", Ordering::Greater),
];

// Whether two keys stand so, by each of their comparisons.
fn stand_so<K: Ord>(a: &K, b: &K, want: Ordering) -> bool {
    a.cmp(b) == want
        && a.partial_cmp(b) == Some(want)
        && (*a == *b) == want.is_eq()
        && (*a < *b) == want.is_lt()
}

// What a hasher makes of a key.
fn hash_of<K: Hash>(key: &K) -> u64 {
    let mut hasher = DefaultHasher::new();
    key.hash(&mut hasher);
    hasher.finish()
}

fn are_names(alloc: Global, a: &str, b: &str, want: Ordering) -> Result<bool, AllocError> {
    let first = Name::from_str(alloc, a)?;
    let second = Name::from_str(alloc, b)?;
    Ok(stand_so(&first, &second, want) && hash_of(&first) == hash_of(&a))
}

fn are_texts(alloc: Global, a: &str, b: &str, want: Ordering) -> Result<bool, AllocError> {
    let first = Text::from_str(alloc, a)?;
    let second = Text::from_str(alloc, b)?;
    Ok(stand_so(&first, &second, want) && hash_of(&first) == hash_of(&a))
}

fn are_bytes(alloc: Global, a: &[u8], b: &[u8], want: Ordering) -> Result<bool, AllocError> {
    let first = Bytes::from_slice(alloc, a)?;
    let second = Bytes::from_slice(alloc, b)?;
    Ok(stand_so(&first, &second, want) && hash_of(&first) == hash_of(&a))
}

#[test]
fn keys_stand_as_their_bytes_do(rt: HostRuntime) -> Result<(), Fail> {
    let alloc = rt.alloc();
    for (a, b, want) in PAIRS {
        assert!(rt; are_names(alloc, a, b, want)?, "the names {a} and {b}");
        assert!(rt; are_texts(alloc, a, b, want)?, "the texts {a} and {b}");
        assert!(rt;
            are_bytes(alloc, a.as_bytes(), b.as_bytes(), want)?,
            "the bytes {a} and {b}"
        );
    }
    assert!(rt; are_bytes(alloc, &[255], &[1, 2], Ordering::Greater)?);
    Ok(())
}
