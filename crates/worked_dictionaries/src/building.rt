// Dictionaries that are built of metadata and children, and the metadata that they have.
use crate::samples::{NUMBER, codes, equal_numbers, is_decoded, nulls, numbers};
use std::alloc::Global;
use std::test::Fail;
use vortex_array::{Array, DType, Nullability, PType, Validity};
use vortex_dict::{BuildError, DictArray, DictMetadata, build, built_again, dict_id};

const NULLABLE: DType = DType::Primitive(PType::I32, Nullability::Nullable);

// Codes, whether these have nulls in their type, and values.
type Children = (&'static [u8], bool, &'static [i32]);

// A type, how many values the metadata tells, the number of the codes' width, whether it tells that these have nulls, the
// children, and why no dictionary of two rows is built of them.
const BUILT: [(
    &str,
    DType,
    (u32, i32, Option<bool>),
    Children,
    Option<BuildError>,
); 14] = [
    (
        "codes and values",
        NUMBER,
        (1, 0, None),
        (&[0, 0], false, &[5]),
        None,
    ),
    (
        "told without nulls",
        NUMBER,
        (1, 0, Some(false)),
        (&[0, 0], false, &[5]),
        None,
    ),
    (
        "relabelled",
        NULLABLE,
        (1, 0, None),
        (&[0, 0], false, &[5]),
        None,
    ),
    (
        "values alone relabelled",
        NULLABLE,
        (1, 0, Some(false)),
        (&[0, 0], false, &[5]),
        None,
    ),
    (
        "nullable codes",
        NULLABLE,
        (1, 0, Some(true)),
        (&[0, 0], true, &[5]),
        None,
    ),
    (
        "no number of a width",
        NUMBER,
        (1, 9, None),
        (&[0, 0], false, &[5]),
        Some(BuildError::BadMetadata),
    ),
    (
        "a number below 0",
        NUMBER,
        (1, -1, None),
        (&[0], false, &[5]),
        Some(BuildError::BadMetadata),
    ),
    (
        "another width",
        NUMBER,
        (2, 1, None),
        (&[0, 0], false, &[5]),
        Some(BuildError::ChildMismatch { child: 0 }),
    ),
    (
        "too few rows",
        NUMBER,
        (1, 0, None),
        (&[0], false, &[5]),
        Some(BuildError::ChildMismatch { child: 0 }),
    ),
    (
        "codes with nulls in a type without",
        NUMBER,
        (1, 0, Some(true)),
        (&[0, 0], false, &[5]),
        Some(BuildError::ChildMismatch { child: 0 }),
    ),
    (
        "codes with nulls that are told to have none",
        NULLABLE,
        (1, 0, Some(false)),
        (&[0, 0], true, &[5]),
        Some(BuildError::ChildMismatch { child: 0 }),
    ),
    (
        "too many values",
        NUMBER,
        (1, 0, None),
        (&[0, 0], false, &[5, 6]),
        Some(BuildError::ChildMismatch { child: 1 }),
    ),
    (
        "values of another type",
        DType::Primitive(PType::I64, Nullability::NonNullable),
        (1, 0, None),
        (&[0, 9], false, &[5]),
        Some(BuildError::ChildMismatch { child: 1 }),
    ),
    (
        "a code past the end",
        NUMBER,
        (1, 0, None),
        (&[0, 1], false, &[5]),
        Some(BuildError::CodeOutOfRange { row: 1, code: 1 }),
    ),
];

fn children(alloc: Global, given: &Children) -> Result<Vec<Array>, Fail> {
    let (places, nullable, values) = *given;
    let validity = if nullable {
        Validity::AllValid
    } else {
        Validity::NonNullable
    };
    let mut children = Vec::new(alloc);
    children.push(codes(alloc, places, validity)?)?;
    children.push(numbers(alloc, values, Validity::NonNullable)?)?;
    Ok(children)
}

// Why no dictionary of a type and two rows is built, or none where it is one of the type whose rows are 5.
fn refused(
    alloc: Global,
    dtype: DType,
    told: (u32, i32, Option<bool>),
    given: &Children,
) -> Result<Option<BuildError>, Fail> {
    let metadata = DictMetadata {
        values_len: told.0,
        codes_ptype: told.1,
        is_nullable_codes: told.2,
    };
    match build(&dtype, 2, &metadata, children(alloc, given)?) {
        Ok(dict) => {
            let is_right = dict.dtype() == dtype && is_decoded(alloc, &dict, &[Some(5), Some(5)])?;
            if is_right {
                Ok(None)
            } else {
                Err(Fail::new("other rows"))
            }
        }
        Err(error) => Ok(Some(error)),
    }
}

#[test]
fn dictionaries_are_built_or_refused(rt: HostRuntime) -> Result<(), Fail> {
    for (case, dtype, told, given, wanted) in BUILT {
        assert!(rt;
            refused(rt.alloc(), dtype, told, &given)? == wanted,
            "{case}"
        );
    }
    Ok(())
}

// What is refused of so many children, all of them signed codes.
fn signed(alloc: Global, count: usize) -> Result<Option<BuildError>, Fail> {
    let mut children = Vec::new(alloc);
    for _ in 0..count {
        children.push(equal_numbers(PType::I32, 0, 2)?)?;
    }
    let metadata = DictMetadata {
        values_len: 2,
        codes_ptype: 6,
        is_nullable_codes: None,
    };
    match build(&NUMBER, 2, &metadata, children) {
        Ok(_) => Ok(None),
        Err(error) => Ok(Some(error)),
    }
}

#[test]
fn the_number_of_children_comes_first(rt: HostRuntime) -> Result<(), Fail> {
    for (count, wanted) in [
        (0, BuildError::ChildCount { found: 0 }),
        (1, BuildError::ChildCount { found: 1 }),
        (2, BuildError::NotUnsigned),
        (3, BuildError::ChildCount { found: 3 }),
    ] {
        assert!(rt; signed(rt.alloc(), count)? == Some(wanted), "{count}");
    }
    Ok(())
}

// The metadata of a dictionary of codes, null where the bit is not set, and one value.
fn metadata(alloc: Global, valid: &[bool]) -> Result<DictMetadata, Fail> {
    let places = codes(alloc, &[0, 0], nulls(alloc, valid)?)?;
    let dict = DictArray::try_new(places, numbers(alloc, &[5], Validity::NonNullable)?)?;
    Ok(dict.metadata()?)
}

// Whether a dictionary that is built by its own metadata is decoded to these rows.
fn comes_back(alloc: Global, valid: &[bool], rows: &[Option<i128>]) -> Result<bool, Fail> {
    let places = codes(alloc, &[0, 0], nulls(alloc, valid)?)?;
    let dict = DictArray::try_new(places, numbers(alloc, &[5], Validity::NonNullable)?)?;
    match built_again(alloc, &dict)? {
        Some(again) => is_decoded(alloc, &again, rows),
        None => Ok(false),
    }
}

#[test]
fn a_dictionary_is_built_again_by_its_own_metadata(rt: HostRuntime) -> Result<(), Fail> {
    let alloc = rt.alloc();
    let told = metadata(alloc, &[true, false])?;
    assert!(rt; dict_id() == "vortex.dict");
    assert!(rt; told.encode(alloc)?.as_slice() == b"\x08\x01\x18\x01".as_slice());
    assert!(rt; DictMetadata::decode(b"\x08\x01\x18\x01") == Ok(told));
    assert!(rt; comes_back(alloc, &[true, false], &[Some(5), None])?);
    Ok(())
}
