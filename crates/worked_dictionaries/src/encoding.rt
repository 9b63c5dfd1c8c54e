// Columns encoded as dictionaries.
use crate::samples::{
    NUMBER, TEXT, are_numbers, are_texts, is_text, nulls, numbers, texts, truths,
};
use std::alloc::Global;
use std::test::Fail;
use vortex_array::{
    Array, DType, Nullability, PType, PlainArray, PrimitiveBuffer, Validity, ValueRef,
    VarBinViewBuilder,
};
use vortex_buffer::Buffer;
use vortex_dict::{
    DictArray, DictConstraints, DictEncodeError, dict_encode, dict_encode_with_constraints,
    require_all,
};

// Whether codes are these, of this width and without nulls.
fn are_codes(codes: &Array, width: PType, wanted: &[Option<i128>]) -> bool {
    codes.dtype() == DType::Primitive(width, Nullability::NonNullable) && are_numbers(codes, wanted)
}

#[test]
fn values_are_the_distinct_rows_as_they_first_appear(rt: HostRuntime) -> Result<(), Fail> {
    let alloc = rt.alloc();
    let column = numbers(alloc, &[1, 1, 3, 3, 3], Validity::NonNullable)?;
    let dict = dict_encode(alloc, &column)?;
    assert!(rt;
        are_codes(
            dict.codes(),
            PType::U8,
            &[Some(0), Some(0), Some(1), Some(1), Some(1)]
        )
    );
    assert!(rt; dict.values().dtype() == NUMBER);
    assert!(rt; are_numbers(dict.values(), &[Some(1), Some(3)]));
    Ok(())
}

#[test]
fn null_is_one_of_the_values(rt: HostRuntime) -> Result<(), Fail> {
    let alloc = rt.alloc();
    let valid = nulls(alloc, &[true, true, false, true, true, false, true, false])?;
    let column = numbers(alloc, &[1, 1, 9, 3, 3, 8, 3, 7], valid)?;
    let dict = dict_encode(alloc, &column)?;
    let codes = [
        Some(0),
        Some(0),
        Some(1),
        Some(2),
        Some(2),
        Some(1),
        Some(2),
        Some(1),
    ];
    assert!(rt; are_codes(dict.codes(), PType::U8, &codes));
    assert!(rt; are_numbers(dict.values(), &[Some(1), None, Some(3)]));
    Ok(())
}

#[test]
fn texts_are_encoded(rt: HostRuntime) -> Result<(), Fail> {
    let alloc = rt.alloc();
    let column = texts(alloc, &["hello", "world", "hello", "again", "world"])?;
    let dict = dict_encode(alloc, &column)?;
    assert!(rt;
        are_codes(
            dict.codes(),
            PType::U8,
            &[Some(0), Some(1), Some(0), Some(2), Some(1)]
        )
    );
    assert!(rt; dict.values().dtype() == TEXT);
    assert!(rt; are_texts(dict.values(), &["hello", "world", "again"]));
    Ok(())
}

#[test]
fn no_rows_have_codes_of_the_least_width(rt: HostRuntime) -> Result<(), Fail> {
    let alloc = rt.alloc();
    let column = numbers(alloc, &[], Validity::NonNullable)?;
    let dict = dict_encode(alloc, &column)?;
    assert!(rt; are_codes(dict.codes(), PType::U8, &[]));
    assert!(rt; dict.values().is_empty());
    Ok(())
}

#[test]
fn truth_values_are_not_encoded(rt: HostRuntime) -> Result<(), Fail> {
    let alloc = rt.alloc();
    let column = truths(alloc, &[true], Validity::NonNullable)?;
    match dict_encode(alloc, &column) {
        Err(DictEncodeError::CannotEncode) => Ok(()),
        _ => Err(Fail::new("truth values")),
    }
}

// All numbers of 8 bits, and a null behind them.
fn all_bytes(alloc: Global) -> Result<Array, Fail> {
    let mut items = Vec::with_capacity(alloc, 257)?;
    let mut valid = Vec::with_capacity(alloc, 257)?;
    for number in 0..=255u8 {
        items.push(number)?;
        valid.push(true)?;
    }
    items.push(0)?;
    valid.push(false)?;
    let items = PrimitiveBuffer::U8(Buffer::from_vec(items));
    let validity = nulls(alloc, valid.as_slice())?;
    Ok(Array::Primitive(PlainArray::<PrimitiveBuffer>::try_new(items, validity)?))
}

// Whether each row is the number of its place.
fn count_up(codes: &Array) -> bool {
    for i in 0..codes.len() {
        match codes.value_at(i) {
            Some(ValueRef::Int(code)) => {
                if code != i as i128 {
                    return false;
                }
            }
            _ => return false,
        }
    }
    true
}

#[test]
fn all_numbers_of_8_bits_and_null_have_codes_of_16(rt: HostRuntime) -> Result<(), Fail> {
    let alloc = rt.alloc();
    let dict = dict_encode(alloc, &all_bytes(alloc)?)?;
    assert!(rt; dict.values().len() == 257);
    assert!(rt; dict.codes().dtype() == DType::Primitive(PType::U16, Nullability::NonNullable));
    assert!(rt; dict.codes().len() == 257 && count_up(dict.codes()));
    Ok(())
}

// The texts hello and world, and null between them.
fn hello_null_world(alloc: Global) -> Result<Array, Fail> {
    let mut builder = VarBinViewBuilder::new(alloc, DType::Utf8(Nullability::Nullable));
    builder.push(Some("hello".as_bytes()))?;
    builder.push(None)?;
    builder.push(Some("world".as_bytes()))?;
    Ok(Array::VarBinView(builder.finish()))
}

// Their dictionary within so many bytes.
fn within_bytes(alloc: Global, max_bytes: usize) -> Result<DictArray, Fail> {
    let constraints = DictConstraints {
        max_bytes,
        max_len: usize::MAX,
    };
    Ok(dict_encode_with_constraints(alloc, &hello_null_world(alloc)?, &constraints)?)
}

#[test]
fn bytes_limit_the_entries(rt: HostRuntime) -> Result<(), Fail> {
    let alloc = rt.alloc();
    let dict = within_bytes(alloc, 32)?;
    assert!(rt; are_codes(dict.codes(), PType::U8, &[Some(0), Some(1)]));
    let values = dict.values();
    assert!(rt; values.len() == 2 && is_text(values.value_at(0), "hello") && !values.is_valid(1));
    match require_all(dict, 3) {
        Err(
            DictEncodeError::NotAll {
                encoded: 2,
                rows: 3,
            },
        ) => Ok(()),
        _ => Err(Fail::new("two of three rows")),
    }
}

#[test]
fn a_dictionary_of_all_rows_is_handed_back(rt: HostRuntime) -> Result<(), Fail> {
    let alloc = rt.alloc();
    let dict = require_all(within_bytes(alloc, 48)?, 3)?;
    assert!(rt; dict.len() == 3);
    Ok(())
}
