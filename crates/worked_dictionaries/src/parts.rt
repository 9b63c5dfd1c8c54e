// Parts of dictionaries: rows in a line, those that a mask keeps, and those at indices.
use crate::samples::{
    codes, equal_numbers, is_decoded, is_decoded_text, is_text, nulls, numbers, texts,
};
use std::alloc::Global;
use std::ops::Range;
use std::test::Fail;
use vortex_array::{PType, Scalar, Validity, Value};
use vortex_buffer::Mask;
use vortex_dict::{DictArray, DictSlice};

// Two rows of three numbers, of which no code names the last.
fn two_rows(alloc: Global) -> Result<DictArray, Fail> {
    let codes = codes(alloc, &[0, 1], Validity::NonNullable)?;
    Ok(DictArray::try_new(codes, numbers(alloc, &[1, 2, 300], Validity::NonNullable)?)?)
}

fn is_number(scalar: &Scalar, number: i128) -> bool {
    match scalar.value() {
        Some(Value::Int(found)) => *found == number,
        _ => false,
    }
}

#[test]
fn a_row_is_the_value_at_its_code(rt: HostRuntime) -> Result<(), Fail> {
    let alloc = rt.alloc();
    let dict = two_rows(alloc)?;
    assert!(rt; dict.len() == 2);
    assert!(rt; is_number(&dict.scalar_at(alloc, 1)?, 2));
    assert!(rt; dict.all_valid());
    assert!(rt; is_decoded(alloc, &dict, &[Some(1), Some(2)])?);
    Ok(())
}

#[test]
fn rows_are_taken_at_indices(rt: HostRuntime) -> Result<(), Fail> {
    let alloc = rt.alloc();
    let dict = two_rows(alloc)?;
    let indices = codes(alloc, &[1, 0], nulls(alloc, &[true, false])?)?;
    assert!(rt; indices.names_rows(dict.len()));
    let part = dict.take(alloc, &indices)?;
    assert!(rt; is_decoded(alloc, &part, &[Some(2), None])?);
    Ok(())
}

#[test]
fn rows_are_kept_by_a_mask(rt: HostRuntime) -> Result<(), Fail> {
    let alloc = rt.alloc();
    let dict = two_rows(alloc)?;
    let mask = Mask::from_indices(alloc, 2, &[1])?;
    assert!(rt; mask.len() == dict.len());
    let kept = dict.filter(alloc, &mask)?;
    assert!(rt; is_decoded(alloc, &kept, &[Some(2)])?);
    Ok(())
}

// Whether the first two rows of a dictionary of equal codes are equal rows of `b`.
fn are_two_of_b(alloc: Global, dict: &DictArray) -> Result<bool, Fail> {
    if dict.len() < 2 {
        return Err(Fail::new("no two rows"));
    }
    match &dict.slice(alloc, 0..2)? {
        DictSlice::Dict(_) => Ok(false),
        DictSlice::Constant(rows) => Ok(rows.len() == 2 && is_text(rows.value_at(1), "b")),
    }
}

// The form of a slice, and how many rows it has.
fn form(alloc: Global, dict: &DictArray, range: Range<usize>) -> Result<(bool, usize), Fail> {
    if range.start > range.end || range.end > dict.len() {
        return Err(Fail::new("no range of rows"));
    }
    match &dict.slice(alloc, range)? {
        DictSlice::Dict(part) => Ok((false, part.len())),
        DictSlice::Constant(rows) => Ok((true, rows.len())),
    }
}

#[test]
fn a_slice_of_equal_codes_that_has_rows_is_equal_rows(rt: HostRuntime) -> Result<(), Fail> {
    let alloc = rt.alloc();
    let equal = DictArray::try_new(equal_numbers(PType::U8, 1, 3)?, texts(alloc, &["ab", "b"])?)?;
    let plain = two_rows(alloc)?;
    for (case, given, wanted) in [
        ("equal codes", form(alloc, &equal, 0..2)?, (true, 2)),
        (
            "equal codes without a row",
            form(alloc, &equal, 1..1)?,
            (false, 0),
        ),
        ("plain codes", form(alloc, &plain, 0..2)?, (false, 2)),
        (
            "plain codes without a row",
            form(alloc, &plain, 1..1)?,
            (false, 0),
        ),
    ] {
        assert!(rt; given == wanted, "{case}");
    }
    assert!(rt; are_two_of_b(alloc, &equal)?);
    assert!(rt; is_decoded_text(alloc, &equal.try_clone(alloc)?, &["b", "b", "b"])?);
    Ok(())
}
