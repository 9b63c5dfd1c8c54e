// Widths of whole numbers, and the native types that have them.
use std::test::Fail;
use vortex_array::{CodeType, NativeValue, PType};

#[test]
fn what_is_known_of_each_width(rt: HostRuntime) -> Result<(), Fail> {
    for (width, number, bytes, is_unsigned, least, greatest) in [
        (PType::U8, 0, 1, true, 0, 255),
        (PType::U16, 1, 2, true, 0, 65535),
        (PType::U32, 2, 4, true, 0, 4294967295),
        (PType::U64, 3, 8, true, 0, 18446744073709551615),
        (PType::I8, 4, 1, false, -128, 127),
        (PType::I16, 5, 2, false, -32768, 32767),
        (PType::I32, 6, 4, false, -2147483648, 2147483647),
        (
            PType::I64,
            7,
            8,
            false,
            -9223372036854775808,
            9223372036854775807,
        ),
    ] {
        assert_eq!(rt; width.number(), number);
        assert!(rt;
            PType::from_number(number) == Some(width),
            "number {number}"
        );
        assert_eq!(rt; width.byte_width(), bytes, "bytes of {number}");
        assert_eq!(rt; width.is_unsigned(), is_unsigned, "sign of {number}");
        assert_eq!(rt; width.is_signed(), !is_unsigned, "sign of {number}");
        assert_eq!(rt; width.min_value(), least, "least of {number}");
        assert_eq!(rt; width.max_value(), greatest, "greatest of {number}");
    }
    Ok(())
}

#[test]
fn numbers_that_are_no_width(rt: HostRuntime) -> Result<(), Fail> {
    for number in [-2147483648, -1, 8, 2147483647] {
        assert!(rt; PType::from_number(number).is_none(), "{number}");
    }
    Ok(())
}

// Whether the native type has this number, and gives it back.
fn has<T: NativeValue>(number: i128) -> bool {
    match T::from_value(number) {
        Some(value) => value.value() == number,
        None => false,
    }
}

// Whether the native type has this width, both numbers, and none beside them.
fn ends_at<T: NativeValue>(width: PType, least: i128, greatest: i128) -> bool {
    T::ptype() == width
        && has::<T>(least)
        && has::<T>(greatest)
        && !has::<T>(least.saturating_sub(1))
        && !has::<T>(greatest.saturating_add(1))
}

#[test]
fn native_types_end_at_the_bounds_of_their_width(rt: HostRuntime) -> Result<(), Fail> {
    for (name, ends) in [
        ("u8", ends_at::<u8>(PType::U8, 0, 255)),
        ("u16", ends_at::<u16>(PType::U16, 0, 65535)),
        ("u32", ends_at::<u32>(PType::U32, 0, 4294967295)),
        ("u64", ends_at::<u64>(PType::U64, 0, 18446744073709551615)),
        ("i8", ends_at::<i8>(PType::I8, -128, 127)),
        ("i16", ends_at::<i16>(PType::I16, -32768, 32767)),
        ("i32", ends_at::<i32>(PType::I32, -2147483648, 2147483647)),
        (
            "i64",
            ends_at::<i64>(PType::I64, -9223372036854775808, 9223372036854775807),
        ),
    ] {
        assert!(rt; ends, "{name}");
    }
    Ok(())
}

// The number of a place's code, where the place has one.
fn code_at<C: CodeType>(place: usize) -> Option<i128> {
    match C::from_place(place) {
        Some(code) => Some(code.value()),
        None => None,
    }
}

#[test]
fn codes_of_the_last_places(rt: HostRuntime) -> Result<(), Fail> {
    for (case, code, want) in [
        ("u8 at 255", code_at::<u8>(255), Some(255)),
        ("u8 at 256", code_at::<u8>(256), None),
        ("u16 at 65535", code_at::<u16>(65535), Some(65535)),
        ("u16 at 65536", code_at::<u16>(65536), None),
        (
            "u32 at its last place",
            code_at::<u32>(4294967295),
            Some(4294967295),
        ),
        ("u32 behind it", code_at::<u32>(4294967296), None),
        (
            "u64 at its last place",
            code_at::<u64>(18446744073709551615),
            Some(18446744073709551615),
        ),
    ] {
        assert!(rt; code == want, "{case}");
    }
    Ok(())
}
