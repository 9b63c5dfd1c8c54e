// Numbers, in groups of seven bits.
ghost use Rattle.std.specs.Prelude.{◌≡◌, ◌<◌, ◌≤◌, ◌^◌, ◌++◌, List, ℕ, length, take, slice_range, IfOk, OnErr, IfSome, IfNone};
ghost use Rattle.vortex_wire.specs.Grammar.{BeginsVarint, Groups, Varint};

use thiserror::Error;

/// The bytes are no spelling of what was to be read.
#[derive(Clone, Copy, Debug, PartialEq, Eq, Error)]
#[error("the metadata is malformed")]
pub struct BadMetadata;

// The most bytes that spell one number.
const MOST_GROUPS: usize = 10;

/// The number that is spelled from `at` on, and where its spelling ends, at `end` at the latest. It takes no memory.
#[tactic(auto, using(crate::proofs::Varints::varint_found, crate::proofs::Varints::no_varint))]
pub fn next_varint(bytes: &[u8], at: usize, end: usize) -> Result<(u64, usize), BadMetadata>
    requires order { at ≤ end }
    requires inside { end ≤ length bytes.now }
    ensures found { IfOk result (λ r. (at < r.1) × (r.1 ≤ end) × Varint r.0 (slice_range bytes.now at r.1)) }
    ensures bad { OnErr result (BeginsVarint (slice_range bytes.now at end) → ⊥) }
{
    match groups(&bytes[at..end], MOST_GROUPS) {
        Some((number, count)) => Ok((number, at + count)),
        None => Err(BadMetadata),
    }
}

// The number that the groups at the front spell, and how many they are: `room` at most.
fn groups(bytes: &[u8], room: usize) -> Option<(u64, usize)>
    ensures found { IfSome result (λ r. (0 < r.1) × (r.1 ≤ room) × (r.1 ≤ length bytes.now) × Groups (take r.1 bytes.now) r.0) }
    ensures none { IfNone result ((number : ℕ) (front rest : List ℕ) → bytes.now ≡ front ++ rest → length front ≤ room → number < 2 ^ 64 → Groups front number → ⊥) }
{
    if room == 0 {
        return None;
    }
    let [byte, rest @ ..] = bytes else {
        return None;
    };
    if *byte < 128 {
        return Some((u64::from(*byte), 1));
    }
    let Some((high, count)) = groups(rest, room - 1) else {
        return None;
    };
    if high >= 1 << 57 {
        return None;
    }
    Some((high * 128 + u64::from(*byte - 128), count + 1))
}
