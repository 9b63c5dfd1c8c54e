// Rows of decimals in parts: cut out, kept, taken, made null, cast, and looked at.
use crate::samples::{are_rows, bits, digits, is_row, narrow, wide};
use std::alloc::Global;
use std::test::Fail;
use vortex_array::{Array, DType, Nullability, PrimitiveArray, PrimitiveBuffer, Validity};
use vortex_buffer::{Buffer, Mask};
use vortex_decimal_byte_parts::{DecimalByteParts, PartsCastError};

// Two rows of two parts, of which the second is null.
fn minus_one_and_null(alloc: Global) -> Result<DecimalByteParts, Fail> {
    let valid = Validity::Bits(bits(alloc, &[true, false])?);
    wide(alloc, &[-1, 7], valid)
}

// The rows that a mask keeps.
fn kept(alloc: Global, parts: &DecimalByteParts, mask: &Mask) -> Result<bool, Fail> {
    if mask.len() != parts.len() {
        return Ok(false);
    }
    let kept = parts.filter(alloc, mask)?;
    Ok(are_rows(&kept, &[Some(-1)]))
}

fn cut(alloc: Global, parts: &DecimalByteParts) -> Result<bool, Fail> {
    if parts.is_empty() {
        return Ok(false);
    }
    let first = parts.slice(alloc, 0..1)?;
    Ok(are_rows(&first, &[Some(-1)]))
}

fn made_null(alloc: Global, parts: &DecimalByteParts, mask: &Mask) -> Result<bool, Fail> {
    if mask.len() != parts.len() {
        return Ok(false);
    }
    let masked = parts.mask(alloc, mask)?;
    Ok(masked.dtype().is_nullable() && are_rows(&masked, &[Some(-1), None]))
}

// Indices of one row, the first.
fn first_index(alloc: Global, validity: Validity) -> Result<Array, Fail> {
    let values = PrimitiveBuffer::U32(Buffer::from_slice(alloc, &[0])?);
    Ok(Array::Primitive(PrimitiveArray::try_new(values, validity)?))
}

// Whether the first row is taken, or none where there is no answer.
fn taken(alloc: Global, parts: &DecimalByteParts, indices: &Array) -> Result<Option<bool>, Fail> {
    if !indices.names_rows(parts.len()) {
        return Ok(Some(false));
    }
    match parts.take(alloc, indices)? {
        Some(taken) => Ok(Some(are_rows(&taken, &[Some(-1)]))),
        None => Ok(None),
    }
}

#[test]
fn rows_of_two_parts_are_cut_kept_taken_and_made_null(rt: HostRuntime) -> Result<(), Fail> {
    let alloc = rt.alloc();
    let parts = minus_one_and_null(alloc)?;
    let mask = Mask::from_buffer(bits(alloc, &[true, false])?);
    assert!(rt; are_rows(&parts, &[Some(-1), None]));
    assert!(rt; kept(alloc, &parts, &mask)?);
    assert!(rt; cut(alloc, &parts)?);
    assert!(rt; made_null(alloc, &parts, &mask)?);
    let full = first_index(alloc, Validity::NonNullable)?;
    assert!(rt; taken(alloc, &parts, &full)? == Some(true));
    let nullable = first_index(alloc, Validity::AllValid)?;
    assert!(rt; taken(alloc, &parts, &nullable)?.is_none());
    Ok(())
}

#[test]
fn rows_of_one_part_are_taken_at_indices_with_nulls(rt: HostRuntime) -> Result<(), Fail> {
    let alloc = rt.alloc();
    let parts = narrow(alloc, &[-1, 7], Validity::NonNullable)?;
    let mask = Mask::from_buffer(bits(alloc, &[true, false])?);
    assert!(rt; kept(alloc, &parts, &mask)?);
    assert!(rt; cut(alloc, &parts)?);
    assert!(rt; made_null(alloc, &parts, &mask)?);
    let nullable = first_index(alloc, Validity::AllValid)?;
    assert!(rt; taken(alloc, &parts, &nullable)? == Some(true));
    Ok(())
}

// Whether a cast to a type without nulls is refused at the second row.
fn stops_at_second(alloc: Global, parts: &DecimalByteParts) -> Result<bool, Fail> {
    let full = DType::Decimal(digits()?, Nullability::NonNullable);
    match parts.cast(alloc, &full) {
        Err(error) => Ok(error == PartsCastError::HasNull { row: 1 }),
        Ok(_) => Ok(false),
    }
}

fn is_cast(alloc: Global, parts: &DecimalByteParts) -> Result<bool, Fail> {
    let nullable = DType::Decimal(digits()?, Nullability::Nullable);
    match parts.cast(alloc, &nullable)? {
        Some(cast) => Ok(cast.dtype() == nullable && are_rows(&cast, &[Some(-1), None])),
        None => Ok(false),
    }
}

#[test]
fn casts_keep_rows_or_tell_the_first_null(rt: HostRuntime) -> Result<(), Fail> {
    let alloc = rt.alloc();
    let parts = minus_one_and_null(alloc)?;
    assert!(rt; stops_at_second(alloc, &parts)?);
    assert!(rt; is_cast(alloc, &parts)?);
    let other = DType::Utf8(Nullability::Nullable);
    assert!(rt; parts.cast(alloc, &other)?.is_none());
    Ok(())
}

// Whether what is looked at of two rows is right: which are null, the first, and a copy.
fn are_looked_at(alloc: Global, parts: &DecimalByteParts) -> Result<bool, Fail> {
    let mask = parts.validity_mask(alloc)?;
    if mask.len() != 2 || parts.is_empty() {
        return Ok(false);
    }
    let copy = parts.try_clone(alloc)?;
    Ok(
        mask.value(0)
            && !mask.value(1)
            && is_row(&parts.scalar_at(0), Some(-1))
            && are_rows(&copy, &[Some(-1), None])
            && !parts.is_constant(),
    )
}

#[test]
fn rows_are_looked_at(rt: HostRuntime) -> Result<(), Fail> {
    let alloc = rt.alloc();
    let parts = minus_one_and_null(alloc)?;
    assert!(rt; are_looked_at(alloc, &parts)?);
    let equal = wide(alloc, &[7, 7], Validity::NonNullable)?;
    assert!(rt; equal.is_constant());
    let equal = narrow(alloc, &[7, 7], Validity::NonNullable)?;
    assert!(rt; equal.is_constant());
    let none = wide(alloc, &[1, 2], Validity::AllInvalid)?;
    assert!(rt; none.is_constant() && are_rows(&none, &[None, None]));
    Ok(())
}
