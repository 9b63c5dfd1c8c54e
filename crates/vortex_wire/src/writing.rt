// The spelling that is written of numbers and of the fields of a message.
ghost use Rattle.std.specs.Prelude.{◌≡◌, ◌++◌, ◌*◌, ◌+◌, ◌%◌, [], ◌∷◌, IfOk, OnOk};
ghost use Rattle.vortex_wire.specs.Canonical.{canonical_field, extended, packed, run_of, scalar, scalar_unless_zero, shortest};
ghost use Rattle.vortex_wire.specs.Messages.{Chosen};

use std::alloc::{AllocError, Global};

// Adds the shortest spelling of a number.
fn push_varint(out: &mut Vec<u8>, number: u64) -> Result<(), AllocError>
    ensures { OnOk result (out.new.items ≡ out.old.items ++ shortest number) }
{
    let mut left = number;
    while left >= 128 {
        let Ok(()) = push_group(out, left) else {
            return Err(AllocError);
        };
        left /= 128;
    }
    push_byte(out, left as u8)
}

// Adds the low seven bits, and that others follow.
fn push_group(out: &mut Vec<u8>, number: u64) -> Result<(), AllocError>
    ensures { OnOk result (out.new.items ≡ out.old.items ++ (number % 128 + 128) ∷ []) }
{
    push_byte(out, (number % 128) as u8 + 128)
}

fn push_byte(out: &mut Vec<u8>, byte: u8) -> Result<(), AllocError>
    ensures { OnOk result (out.new.items ≡ out.old.items ++ byte ∷ []) }
{
    if out.push(byte).is_err() {
        return Err(AllocError);
    }
    Ok(())
}

// Adds a field that holds a number.
fn push_scalar(out: &mut Vec<u8>, field: u32, number: u64) -> Result<(), AllocError>
    ensures { OnOk result (out.new.items ≡ out.old.items ++ scalar field number) }
{
    if push_varint(out, u64::from(field) * 8).is_err() {
        return Err(AllocError);
    }
    push_varint(out, number)
}

/// Adds a field that holds a number, unless the number is 0.
pub(crate) fn push_unless_zero(out: &mut Vec<u8>, field: u32, number: u64) -> Result<(), AllocError>
    ensures { OnOk result (out.new.items ≡ out.old.items ++ scalar_unless_zero field number) }
{
    if number == 0 {
        return Ok(());
    }
    push_scalar(out, field, number)
}

/// Adds a field that holds a truth, unless it is absent.
pub(crate) fn push_truth(
    out: &mut Vec<u8>,
    field: u32,
    truth: Option<bool>,
) -> Result<(), AllocError>
    ensures { OnOk result (out.new.items ≡ out.old.items ++ canonical_field field (Chosen truth)) }
{
    match truth {
        None => Ok(()),
        Some(true) => push_scalar(out, field, 1),
        Some(false) => push_scalar(out, field, 0),
    }
}

/// Adds a field that holds a run, unless the run is empty.
pub(crate) fn push_run(out: &mut Vec<u8>, field: u32, run: &[u8]) -> Result<(), AllocError>
    ensures { OnOk result (out.new.items ≡ out.old.items ++ packed field run.now) }
{
    if run.is_empty() {
        return Ok(());
    }
    if push_varint(out, u64::from(field) * 8 + 2).is_err() {
        return Err(AllocError);
    }
    if push_varint(out, run.len() as u64).is_err() {
        return Err(AllocError);
    }
    out.extend_from_slice(run)
}

/// The run of these numbers.
pub(crate) fn run_bytes(alloc: Global, integers: &[i32]) -> Result<Vec<u8>, AllocError>
    ensures { IfOk result (λ run. run.items ≡ run_of integers.now) }
{
    let mut run = Vec::new(alloc);
    for integer in integers {
        push_varint(&mut run, extended_of(*integer))?;
    }
    Ok(run)
}

/// A number with a sign, extended to 64 bits.
pub(crate) fn extended_of(integer: i32) -> u64
    ensures { result ≡ extended integer }
{
    i64::from(integer).cast_unsigned()
}
