// Dictionaries cast to another type, and their null rows filled.
use crate::samples::{NUMBER, are_numbers, codes, is_decoded, nulls, numbers};
use std::alloc::Global;
use std::test::Fail;
use vortex_array::{DType, Nullability, PType, Scalar, Validity, Value};
use vortex_dict::{DictArray, DictCastError, DictFilled};

// Rows of codes over numbers, the codes under this validity.
fn dict_of(
    alloc: Global,
    places: &[u8],
    validity: Validity,
    values: &[i32],
) -> Result<DictArray, Fail> {
    let codes = codes(alloc, places, validity)?;
    Ok(DictArray::try_new(codes, numbers(alloc, values, Validity::NonNullable)?)?)
}

// Why the dictionary is not cast to a width without nulls, or none where it is.
fn refusal(alloc: Global, dict: &DictArray, width: PType) -> Option<DictCastError> {
    match dict.cast(alloc, &DType::Primitive(width, Nullability::NonNullable)) {
        Ok(_) => None,
        Err(error) => Some(error),
    }
}

#[test]
fn each_value_is_cast_also_one_that_no_code_names(rt: HostRuntime) -> Result<(), Fail> {
    let alloc = rt.alloc();
    let dict = dict_of(alloc, &[0, 1], Validity::NonNullable, &[1, 2, 300])?;
    assert!(rt;
        refusal(alloc, &dict, PType::U8) == Some(DictCastError::ValueDoesNotFit { place: 2 })
    );
    assert!(rt; refusal(alloc, &dict, PType::I64).is_none());
    Ok(())
}

#[test]
fn cast_rows_are_the_same_numbers(rt: HostRuntime) -> Result<(), Fail> {
    let alloc = rt.alloc();
    let dict = dict_of(alloc, &[0, 1], Validity::NonNullable, &[1, 2, 300])?;
    let wide = dict.cast(
        alloc,
        &DType::Primitive(PType::I64, Nullability::NonNullable),
    )?;
    assert!(rt; is_decoded(alloc, &wide, &[Some(1), Some(2)])?);
    Ok(())
}

#[test]
fn a_null_code_is_refused_where_the_type_has_no_nulls(rt: HostRuntime) -> Result<(), Fail> {
    let alloc = rt.alloc();
    let valid = nulls(alloc, &[true, false])?;
    let dict = dict_of(alloc, &[0, 1], valid, &[1, 2])?;
    assert!(rt; refusal(alloc, &dict, PType::I64) == Some(DictCastError::CodeNull { row: 1 }));
    let present = dict_of(alloc, &[0, 1], Validity::AllValid, &[1, 2])?;
    assert!(rt; refusal(alloc, &present, PType::I64).is_none());
    Ok(())
}

#[test]
fn numbers_are_not_cast_to_texts(rt: HostRuntime) -> Result<(), Fail> {
    let alloc = rt.alloc();
    let dict = dict_of(alloc, &[0], Validity::NonNullable, &[1])?;
    match dict.cast(alloc, &DType::Utf8(Nullability::NonNullable)) {
        Err(DictCastError::Unsupported) => Ok(()),
        _ => Err(Fail::new("numbers as texts")),
    }
}

// What a dictionary with a null row is when it is filled with a number: whether it stays one, and whether its rows are these.
fn is_filled(
    alloc: Global,
    number: i128,
    is_dict: bool,
    rows: &[Option<i128>],
) -> Result<bool, Fail> {
    let valid = nulls(alloc, &[true, false, true])?;
    let dict = dict_of(alloc, &[0, 1, 2], valid, &[10, 20, 20])?;
    let fill = Scalar::try_new(NUMBER, Some(Value::Int(number)))?;
    if fill.is_null() || !dict.dtype().same_apart_from_nullability(&fill.dtype()) {
        return Err(Fail::new("a fill that is none"));
    }
    match &dict.fill_null(alloc, &fill)? {
        DictFilled::Dict(full) => Ok(is_dict && is_decoded(alloc, full, rows)?),
        DictFilled::Plain(full) => Ok(!is_dict && are_numbers(full, rows)),
    }
}

#[test]
fn null_rows_are_filled(rt: HostRuntime) -> Result<(), Fail> {
    let alloc = rt.alloc();
    assert!(rt; is_filled(alloc, 20, true, &[Some(10), Some(20), Some(20)])?);
    assert!(rt; is_filled(alloc, 7, false, &[Some(10), Some(7), Some(20)])?);
    Ok(())
}

#[test]
fn a_null_code_names_the_first_equal_value(rt: HostRuntime) -> Result<(), Fail> {
    let alloc = rt.alloc();
    let valid = nulls(alloc, &[true, false, true])?;
    let dict = dict_of(alloc, &[0, 1, 2], valid, &[10, 20, 20])?;
    let fill = Scalar::try_new(NUMBER, Some(Value::Int(20)))?;
    if fill.is_null() || !dict.dtype().same_apart_from_nullability(&fill.dtype()) {
        return Err(Fail::new("a fill that is none"));
    }
    match &dict.fill_null(alloc, &fill)? {
        DictFilled::Dict(full) => {
            assert!(rt; are_numbers(full.codes(), &[Some(0), Some(1), Some(2)]));
        }
        DictFilled::Plain(_) => return Err(Fail::new("decoded")),
    }
    Ok(())
}
