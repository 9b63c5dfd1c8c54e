// Which codes and values make a dictionary, and what it shows of them.
use crate::samples::{NUMBER, codes, equal_numbers, is_decoded, nulls, numbers};
use std::alloc::Global;
use std::test::Fail;
use vortex_array::{Array, DType, Nullability, PType, PrimitiveArray, Validity};
use vortex_dict::{DictArray, DictError};

// Three numbers.
fn three(alloc: Global) -> Result<Array, Fail> {
    numbers(alloc, &[10, 20, 30], Validity::NonNullable)
}

// Why these are no codes of three values, or none where they are.
fn refused(alloc: Global, codes: Array) -> Result<Option<DictError>, Fail> {
    match DictArray::try_new(codes, three(alloc)?) {
        Ok(_) => Ok(None),
        Err(error) => Ok(Some(error)),
    }
}

const PAST_THE_END: DictError = DictError::CodeOutOfRange { row: 1, code: 3 };

const EQUAL_PAST_THE_END: DictError = DictError::CodeOutOfRange { row: 0, code: 3 };

#[test]
fn codes_are_refused_by_their_type_and_then_by_the_first_outside(
    rt: HostRuntime,
) -> Result<(), Fail> {
    let alloc = rt.alloc();
    let one_null = nulls(alloc, &[true, false])?;
    for (case, given, wanted) in [
        (
            "a code past the end",
            refused(alloc, codes(alloc, &[0, 3], Validity::NonNullable)?)?,
            Some(PAST_THE_END),
        ),
        (
            "the same code, null",
            refused(alloc, codes(alloc, &[0, 3], one_null)?)?,
            None,
        ),
        (
            "numbers with a sign",
            refused(alloc, numbers(alloc, &[0, 3], Validity::NonNullable)?)?,
            Some(DictError::NotUnsigned),
        ),
        (
            "equal codes past the end",
            refused(alloc, equal_numbers(PType::U64, 3, 2)?)?,
            Some(EQUAL_PAST_THE_END),
        ),
        (
            "no rows of such a code",
            refused(alloc, equal_numbers(PType::U64, 3, 0)?)?,
            None,
        ),
        (
            "equal numbers with a sign",
            refused(alloc, equal_numbers(PType::I8, 1, 2)?)?,
            Some(DictError::NotUnsigned),
        ),
    ] {
        assert!(rt; given == wanted, "{case}");
    }
    Ok(())
}

// Whether a dictionary has two rows of three numbers without nulls.
fn has_two_rows(dict: &DictArray) -> bool {
    dict.len() == 2
        && !dict.is_empty()
        && dict.dtype() == NUMBER
        && dict.codes().len() == 2
        && dict.values().len() == 3
}

#[test]
fn a_dictionary_shows_its_codes_and_values(rt: HostRuntime) -> Result<(), Fail> {
    let alloc = rt.alloc();
    let dict = DictArray::try_new(codes(alloc, &[2, 0], Validity::NonNullable)?, three(alloc)?)?;
    assert!(rt; has_two_rows(&dict));
    assert!(rt; is_decoded(alloc, &dict, &[Some(30), Some(10)])?);
    assert!(rt; has_two_rows(&dict.try_clone(alloc)?));
    Ok(())
}
