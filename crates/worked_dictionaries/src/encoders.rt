// Builders of dictionaries, fed column by column.
use crate::samples::{TEXT, are_numbers, are_texts, numbers, texts};
use std::alloc::Global;
use std::test::Fail;
use vortex_array::{
    Array, Nullability, PType, PlainArray, PrimitiveArray, PrimitiveBuffer, Validity,
};
use vortex_buffer::Buffer;
use vortex_dict::{
    AnyDictEncoder, DictConstraints, DictEncoder, EncodeError, UNCONSTRAINED, bytes_dict_builder,
    dict_encoder, primitive_dict_builder,
};

// Numbers of 64 bits.
fn wide_numbers(alloc: Global, numbers: &[u64]) -> Result<Array, Fail> {
    let items = PrimitiveBuffer::U64(Buffer::from_slice(alloc, numbers)?);
    Ok(Array::Primitive(PlainArray::<PrimitiveBuffer>::try_new(items, Validity::NonNullable)?))
}

// A builder for numbers of 64 bits.
fn wide_builder(alloc: Global) -> AnyDictEncoder {
    primitive_dict_builder::<u64>(alloc, Nullability::NonNullable, &UNCONSTRAINED)
}

#[test]
fn rows_of_another_type_are_refused(rt: HostRuntime) -> Result<(), Fail> {
    let alloc = rt.alloc();
    let mut encoder = wide_builder(alloc);
    match encoder.encode(&numbers(alloc, &[1], Validity::NonNullable)?) {
        Err(EncodeError::WrongType) => {}
        _ => return Err(Fail::new("numbers of another width")),
    }
    assert!(rt; encoder.values()?.is_empty());
    Ok(())
}

#[test]
fn equal_rows_are_one_entry(rt: HostRuntime) -> Result<(), Fail> {
    let alloc = rt.alloc();
    let mut encoder = wide_builder(alloc);
    let codes = encoder.encode(&wide_numbers(alloc, &[4, 4])?)?;
    assert!(rt; codes.len() == 2);
    assert!(rt; are_numbers(&encoder.values()?, &[Some(4)]));
    Ok(())
}

#[test]
fn a_builder_for_a_column_has_no_entry(rt: HostRuntime) -> Result<(), Fail> {
    let alloc = rt.alloc();
    let mut encoder = dict_encoder(alloc, &wide_numbers(alloc, &[4, 4])?, &UNCONSTRAINED)?;
    assert!(rt; encoder.values()?.is_empty());
    Ok(())
}

// Whether codes are these, whatever their width.
fn are_codes(codes: PrimitiveArray, wanted: &[Option<i128>]) -> bool {
    are_numbers(&Array::Primitive(codes), wanted)
}

#[test]
fn pieces_give_the_codes_of_the_whole(rt: HostRuntime) -> Result<(), Fail> {
    let alloc = rt.alloc();
    let mut whole = wide_builder(alloc);
    let codes = whole.encode(&wide_numbers(alloc, &[7, 7, 3, 3, 5, 7])?)?;
    assert!(rt;
        are_codes(
            codes,
            &[Some(0), Some(0), Some(1), Some(1), Some(2), Some(0)]
        )
    );
    let mut pieces = wide_builder(alloc);
    let first = pieces.encode(&wide_numbers(alloc, &[7, 7, 3])?)?;
    assert!(rt; are_codes(first, &[Some(0), Some(0), Some(1)]));
    let second = pieces.encode(&wide_numbers(alloc, &[3, 5, 7])?)?;
    assert!(rt; are_codes(second, &[Some(1), Some(2), Some(0)]));
    assert!(rt; are_numbers(&pieces.values()?, &[Some(7), Some(3), Some(5)]));
    Ok(())
}

#[test]
fn texts_are_found_again(rt: HostRuntime) -> Result<(), Fail> {
    let alloc = rt.alloc();
    let mut encoder = bytes_dict_builder(alloc, TEXT, &UNCONSTRAINED);
    let first = encoder.encode(&texts(alloc, &["a", "a longer text than that", "a"])?)?;
    assert!(rt; are_codes(first, &[Some(0), Some(1), Some(0)]));
    let second = encoder.encode(&texts(alloc, &["", "a longer text than that"])?)?;
    assert!(rt; are_codes(second, &[Some(2), Some(1)]));
    assert!(rt; are_texts(&encoder.values()?, &["a", "a longer text than that", ""]));
    Ok(())
}

// The limits of so many entries.
fn at_most(max_len: usize) -> DictConstraints {
    DictConstraints {
        max_bytes: usize::MAX,
        max_len,
    }
}

// The width of the codes that a builder gives for a column.
fn code_width(encoder: AnyDictEncoder, column: &Array) -> Result<PType, Fail> {
    let mut encoder = encoder;
    Ok(encoder.encode(column)?.values().ptype())
}

#[test]
fn codes_are_of_the_least_width_for_the_limit(rt: HostRuntime) -> Result<(), Fail> {
    let alloc = rt.alloc();
    let column = texts(alloc, &[])?;
    for (max_len, width) in [
        (0, PType::U8),
        (1, PType::U8),
        (255, PType::U8),
        (256, PType::U16),
        (257, PType::U16),
        (65535, PType::U16),
        (65536, PType::U32),
    ] {
        let encoder = bytes_dict_builder(alloc, TEXT, &at_most(max_len));
        assert!(rt;
            code_width(encoder, &column)? == width,
            "texts, {max_len} entries"
        );
    }
    Ok(())
}

#[test]
fn numbers_need_no_more_codes_than_there_are(rt: HostRuntime) -> Result<(), Fail> {
    let alloc = rt.alloc();
    let none = PrimitiveBuffer::U8(Buffer::from_slice(alloc, &[])?);
    let column = PlainArray::<PrimitiveBuffer>::try_new(none, Validity::NonNullable)?;
    let column = Array::Primitive(column);
    for (max_len, width) in [
        (0, PType::U8),
        (255, PType::U8),
        (256, PType::U16),
        (257, PType::U16),
        (65536, PType::U16),
        (usize::MAX, PType::U16),
    ] {
        let limits = at_most(max_len);
        let encoder = primitive_dict_builder::<u8>(alloc, Nullability::NonNullable, &limits);
        assert!(rt;
            code_width(encoder, &column)? == width,
            "numbers, {max_len} entries"
        );
    }
    Ok(())
}

// How many of the numbers 0, 1, 2 and 0 are encoded within so many entries.
fn encoded_within(alloc: Global, max_len: usize) -> Result<usize, Fail> {
    let limits = at_most(max_len);
    let mut encoder = dict_encoder(alloc, &numbers(alloc, &[], Validity::NonNullable)?, &limits)?;
    let column = numbers(alloc, &[0, 1, 2, 0], Validity::NonNullable)?;
    let codes = encoder.encode(&column)?;
    Ok(codes.len())
}

#[test]
fn encoding_ends_before_the_first_row_that_is_not_let_in(rt: HostRuntime) -> Result<(), Fail> {
    let alloc = rt.alloc();
    for (max_len, encoded) in [(0, 0), (1, 1), (2, 2), (3, 4)] {
        assert!(rt;
            encoded_within(alloc, max_len)? == encoded,
            "{max_len} entries"
        );
    }
    Ok(())
}
