// Fields: a key and a payload.
ghost use Rattle.std.specs.Prelude.{◌≡◌, ◌<◌, ◌≤◌, ◌+◌, length, drop, slice_range, IfOk, IfSome, IfNone, OnErr};
ghost use Rattle.vortex_wire.specs.Grammar.{BeginsField, BeginsPayload, LiesWithin, SpellsField, SpellsPayload, field_of, payload_of, wire_type};

use crate::{BadMetadata, next_varint};

/// What a field holds: a number, eight bytes, the bytes from `start` to `end`, or four bytes.
#[derive(Clone, Copy, Debug, PartialEq, Eq)]
pub enum WirePayload {
    Varint(u64),
    Eight,
    Run { start: usize, end: usize },
    Four,
}

/// A field: its number, what it holds, and where its spelling ends.
#[derive(Clone, Copy, Debug, PartialEq, Eq)]
pub struct WireField {
    pub number: u32,
    pub payload: WirePayload,
    pub end: usize,
}

/// The field that is spelled from `at` on, or `None` at the end of the bytes. It takes no memory.
#[tactic(auto, using(crate::proofs::Slices::slice_to_end, crate::proofs::Fields::no_key))]
pub fn next_field(bytes: &[u8], at: usize) -> Result<Option<WireField>, BadMetadata>
    requires { at ≤ length bytes.now }
    ensures found { IfOk result (λ o. IfSome o (λ f. (at < f.end) × (f.end ≤ length bytes.now) × SpellsField (field_of bytes.now f) (slice_range bytes.now at f.end) × LiesWithin at f.end f.payload)) }
    ensures none { IfOk result (λ o. IfNone o (at ≡ length bytes.now)) }
    ensures end { at ≡ length bytes.now → result ≡ Ok None }
    ensures bad { OnErr result (BeginsField (drop at bytes.now) → ⊥) }
{
    if at == bytes.len() {
        return Ok(None);
    }
    let Ok((key, body)) = next_varint(bytes, at, bytes.len()) else {
        return Err(BadMetadata);
    };
    if key < 8 || key >= 1 << 32 {
        return Err(BadMetadata);
    }
    let Ok((payload, end)) = payload_at(bytes, body, key % 8) else {
        return Err(BadMetadata);
    };
    let number = (key / 8) as u32;
    Ok(Some(WireField {
        number,
        payload,
        end,
    }))
}

// The payload of a wire type that is spelled from `at` on, and where it ends.
#[tactic(auto, using(crate::proofs::Fields::no_eight, crate::proofs::Fields::no_four, crate::proofs::Fields::no_such_type))]
fn payload_at(bytes: &[u8], at: usize, kind: u64) -> Result<(WirePayload, usize), BadMetadata>
    requires { at ≤ length bytes.now }
    ensures inside { IfOk result (λ r. (at ≤ r.1) × (r.1 ≤ length bytes.now) × LiesWithin at r.1 r.0) }
    ensures found { IfOk result (λ r. (wire_type (payload_of bytes.now r.0) ≡ kind) × SpellsPayload (payload_of bytes.now r.0) (slice_range bytes.now at r.1)) }
    ensures bad { OnErr result (BeginsPayload kind (drop at bytes.now) → ⊥) }
{
    match kind {
        0 => number_at(bytes, at),
        1 => {
            let Ok(end) = end_of(bytes, at, 8) else {
                return Err(BadMetadata);
            };
            Ok((WirePayload::Eight, end))
        }
        2 => run_at(bytes, at),
        5 => {
            let Ok(end) = end_of(bytes, at, 4) else {
                return Err(BadMetadata);
            };
            Ok((WirePayload::Four, end))
        }
        _ => Err(BadMetadata),
    }
}

// A number.
#[tactic(auto, using(crate::proofs::Slices::slice_to_end, crate::proofs::Fields::no_number))]
fn number_at(bytes: &[u8], at: usize) -> Result<(WirePayload, usize), BadMetadata>
    requires { at ≤ length bytes.now }
    ensures inside { IfOk result (λ r. (at ≤ r.1) × (r.1 ≤ length bytes.now) × LiesWithin at r.1 r.0) }
    ensures found { IfOk result (λ r. (wire_type (payload_of bytes.now r.0) ≡ 0) × SpellsPayload (payload_of bytes.now r.0) (slice_range bytes.now at r.1)) }
    ensures bad { OnErr result (BeginsPayload 0 (drop at bytes.now) → ⊥) }
{
    let Ok((number, end)) = next_varint(bytes, at, bytes.len()) else {
        return Err(BadMetadata);
    };
    Ok((WirePayload::Varint(number), end))
}

// A length and so many bytes.
#[tactic(auto, using(crate::proofs::Slices::slice_to_end, crate::proofs::Fields::no_size))]
fn run_at(bytes: &[u8], at: usize) -> Result<(WirePayload, usize), BadMetadata>
    requires { at ≤ length bytes.now }
    ensures inside { IfOk result (λ r. (at ≤ r.1) × (r.1 ≤ length bytes.now) × LiesWithin at r.1 r.0) }
    ensures found { IfOk result (λ r. (wire_type (payload_of bytes.now r.0) ≡ 2) × SpellsPayload (payload_of bytes.now r.0) (slice_range bytes.now at r.1)) }
    ensures bad { OnErr result (BeginsPayload 2 (drop at bytes.now) → ⊥) }
{
    let Ok((size, start)) = next_varint(bytes, at, bytes.len()) else {
        return Err(BadMetadata);
    };
    if size > (bytes.len() - start) as u64 {
        return Err(BadMetadata);
    }
    let end = start + size as usize;
    Ok((WirePayload::Run { start, end }, end))
}

// Where so many bytes from a place on end.
fn end_of(bytes: &[u8], at: usize, size: usize) -> Result<usize, BadMetadata>
    requires { at ≤ length bytes.now }
    ensures inside { IfOk result (λ end. (end ≡ at + size) × (end ≤ length bytes.now) × (length (slice_range bytes.now at end) ≡ size)) }
    ensures bad { OnErr result (length (drop at bytes.now) < size) }
{
    if bytes.len() - at < size {
        return Err(BadMetadata);
    }
    Ok(at + size)
}
