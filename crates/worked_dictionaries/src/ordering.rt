// Whether the rows of dictionaries are equal or in order, and their extremes.
use crate::samples::{codes, nulls, numbers};
use std::alloc::Global;
use std::test::Fail;
use vortex_array::{MinMax, Scalar, Validity, Value};
use vortex_dict::DictArray;

// Codes under a validity over the numbers 1 and 2.
fn over_two(alloc: Global, places: &[u8], validity: Validity) -> Result<DictArray, Fail> {
    let values = numbers(alloc, &[1, 2], Validity::NonNullable)?;
    Ok(DictArray::try_new(codes(alloc, places, validity)?, values)?)
}

// A null code and the code of a null.
fn two_nulls(alloc: Global) -> Result<DictArray, Fail> {
    let valid = nulls(alloc, &[false, true])?;
    let values = numbers(alloc, &[0], Validity::AllInvalid)?;
    Ok(DictArray::try_new(codes(alloc, &[0, 0], valid)?, values)?)
}

// What is said of the rows: whether they are equal, ascend, and ascend strictly.
fn is_told(dict: &DictArray, constant: bool, sorted: Option<bool>, strict: Option<bool>) -> bool {
    dict.is_constant() == constant
        && dict.is_sorted() == sorted
        && dict.is_strict_sorted() == strict
}

#[test]
fn a_null_code_behind_others_is_out_of_order(rt: HostRuntime) -> Result<(), Fail> {
    let alloc = rt.alloc();
    let valid = nulls(alloc, &[true, true, false])?;
    let dict = over_two(alloc, &[0, 1, 0], valid)?;
    assert!(rt; is_told(&dict, false, None, None));
    Ok(())
}

#[test]
fn a_null_code_before_others_is_in_order(rt: HostRuntime) -> Result<(), Fail> {
    let alloc = rt.alloc();
    let valid = nulls(alloc, &[false, true, true])?;
    let dict = over_two(alloc, &[0, 0, 1], valid)?;
    assert!(rt; is_told(&dict, false, Some(true), Some(true)));
    Ok(())
}

#[test]
fn two_null_rows_are_equal_and_not_strictly_in_order(rt: HostRuntime) -> Result<(), Fail> {
    let dict = two_nulls(rt.alloc())?;
    assert!(rt; is_told(&dict, true, Some(true), None));
    Ok(())
}

#[test]
fn equal_values_at_two_places_are_one_row(rt: HostRuntime) -> Result<(), Fail> {
    let alloc = rt.alloc();
    let values = numbers(alloc, &[5, 5], Validity::NonNullable)?;
    let dict = DictArray::try_new(codes(alloc, &[0, 1, 0], Validity::NonNullable)?, values)?;
    assert!(rt; dict.is_constant());
    Ok(())
}

#[test]
fn no_row_is_no_constant(rt: HostRuntime) -> Result<(), Fail> {
    let alloc = rt.alloc();
    let dict = over_two(alloc, &[], Validity::NonNullable)?;
    assert!(rt; is_told(&dict, false, Some(true), Some(true)));
    Ok(())
}

// Whether a scalar is a number.
fn is_number(scalar: &Scalar, wanted: i128) -> bool {
    match scalar.value() {
        Some(Value::Int(number)) => *number == wanted && !scalar.dtype().is_nullable(),
        _ => false,
    }
}

// Whether the least and the greatest of found extremes are these.
fn are_extremes(found: &Option<MinMax>, least: i128, greatest: i128) -> bool {
    match found {
        Some(found) => is_number(&found.min, least) && is_number(&found.max, greatest),
        None => false,
    }
}

#[test]
fn extremes_are_those_of_values_that_a_code_names(rt: HostRuntime) -> Result<(), Fail> {
    let alloc = rt.alloc();
    let values = numbers(alloc, &[1, 2, 300], Validity::NonNullable)?;
    let dict = DictArray::try_new(codes(alloc, &[0, 1], Validity::NonNullable)?, values)?;
    assert!(rt; are_extremes(&dict.min_max(alloc)?, 1, 2));
    Ok(())
}

#[test]
fn null_rows_have_no_extremes(rt: HostRuntime) -> Result<(), Fail> {
    let alloc = rt.alloc();
    let dict = two_nulls(alloc)?;
    assert!(rt; dict.min_max(alloc)?.is_none());
    Ok(())
}
