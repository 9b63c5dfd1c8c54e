// Dictionaries of each kind decoded, and which of their rows are not null.
use crate::samples::{
    are_decoded_truths, codes, equal_numbers, equal_texts, is_decoded, is_decoded_text, nulls,
    numbers, texts, truths,
};
use std::alloc::Global;
use std::test::Fail;
use vortex_array::{PType, Validity};
use vortex_dict::DictArray;

// Rows 0 to 4 over three numbers, of which rows 1 and 3 are null.
fn with_nulls(alloc: Global) -> Result<DictArray, Fail> {
    let valid = nulls(alloc, &[true, false, true, false, true])?;
    let codes = codes(alloc, &[0, 1, 2, 2, 1], valid)?;
    Ok(DictArray::try_new(codes, numbers(alloc, &[3, 6, 9], Validity::NonNullable)?)?)
}

#[test]
fn rows_are_valid_where_code_and_value_are(rt: HostRuntime) -> Result<(), Fail> {
    let alloc = rt.alloc();
    let dict = with_nulls(alloc)?;
    let mask = dict.validity_mask(alloc)?;
    for (i, valid) in [true, false, true, false, true].iter().enumerate() {
        assert!(rt;
            i < mask.len() && mask.value(i) == *valid,
            "row {i} of the mask"
        );
        assert!(rt; i < dict.len() && dict.is_valid(i) == *valid, "row {i}");
    }
    assert!(rt; !dict.all_valid() && !dict.all_invalid());
    Ok(())
}

#[test]
fn numbers_are_decoded(rt: HostRuntime) -> Result<(), Fail> {
    let alloc = rt.alloc();
    let dict = with_nulls(alloc)?;
    assert!(rt; is_decoded(alloc, &dict, &[Some(3), None, Some(9), None, Some(6)])?);
    Ok(())
}

#[test]
fn texts_are_decoded(rt: HostRuntime) -> Result<(), Fail> {
    let alloc = rt.alloc();
    let dict = DictArray::try_new(
        codes(alloc, &[1, 0, 1], Validity::NonNullable)?,
        texts(alloc, &["ab", "b"])?,
    )?;
    assert!(rt; is_decoded_text(alloc, &dict, &["b", "ab", "b"])?);
    Ok(())
}

#[test]
fn equal_values_are_decoded_to_plain_rows(rt: HostRuntime) -> Result<(), Fail> {
    let alloc = rt.alloc();
    let valid = nulls(alloc, &[true, false])?;
    let dict = DictArray::try_new(
        codes(alloc, &[1, 0], valid)?,
        equal_numbers(PType::I32, 7, 2)?,
    )?;
    assert!(rt; is_decoded(alloc, &dict, &[Some(7), None])?);
    let dict = DictArray::try_new(equal_numbers(PType::U8, 1, 3)?, equal_texts(alloc, "b", 2)?)?;
    assert!(rt; is_decoded_text(alloc, &dict, &["b", "b", "b"])?);
    Ok(())
}

// Whether truth values are decoded by these codes to these rows.
fn decodes_truths(
    alloc: Global,
    given: &[bool],
    validity: Validity,
    rows: &[Option<bool>],
) -> Result<bool, Fail> {
    let dict = DictArray::try_new(
        codes(alloc, &[0, 1, 2, 1], Validity::NonNullable)?,
        truths(alloc, given, validity)?,
    )?;
    are_decoded_truths(alloc, &dict, rows)
}

#[test]
fn truth_values_are_decoded_by_short_cuts_too(rt: HostRuntime) -> Result<(), Fail> {
    let alloc = rt.alloc();
    let one_null = nulls(alloc, &[true, true, false])?;
    for (case, is_right) in [
        (
            "none is true",
            decodes_truths(
                alloc,
                &[false, false, false],
                Validity::NonNullable,
                &[Some(false), Some(false), Some(false), Some(false)],
            )?,
        ),
        (
            "one is true",
            decodes_truths(
                alloc,
                &[false, true, false],
                Validity::NonNullable,
                &[Some(false), Some(true), Some(false), Some(true)],
            )?,
        ),
        (
            "two are true",
            decodes_truths(
                alloc,
                &[true, true, false],
                Validity::NonNullable,
                &[Some(true), Some(true), Some(false), Some(true)],
            )?,
        ),
        (
            "one is true, and one that is null",
            decodes_truths(
                alloc,
                &[false, true, true],
                one_null,
                &[Some(false), Some(true), None, Some(true)],
            )?,
        ),
    ] {
        assert!(rt; is_right, "{case}");
    }
    Ok(())
}
