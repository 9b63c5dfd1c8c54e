// Numbers and decimals split in parts, and put together again.
use crate::samples::{CORNERS, LARGE, bits, decimals, digits};
use std::alloc::Global;
use std::test::Fail;
use vortex_array::{Array, DecimalArray, Validity, ValueRef};
use vortex_buffer::Mask;
use vortex_decimal_byte_parts::{
    assemble_decimal, assemble_wide_decimal, i128_to_parts, split_decimal, split_wide,
};

// Numbers and their parts.
const PARTS: [(i128, i64, u64); 5] = [
    (-1, -1, 18446744073709551615),
    (LARGE, 64, 0),
    (0, 0, 0),
    (i128::MIN, i64::MIN, 0),
    (i128::MAX, i64::MAX, 18446744073709551615),
];

#[test]
fn numbers_are_split(rt: HostRuntime) {
    for (number, high, low) in PARTS.iter() {
        let (msp, lower) = i128_to_parts(*number);
        assert!(rt; msp == *high && lower[0] == *low, "{number}");
    }
}

// Whether values without a mask come back.
fn come_back(alloc: Global, values: &[i128]) -> Result<bool, Fail> {
    let all = Mask::new_true(values.len());
    let (msp, lower) = split_wide(alloc, values, &all, |number| i128_to_parts(number))?;
    let again = assemble_wide_decimal(alloc, msp.as_slice(), lower.as_slice())?;
    Ok(again.as_slice() == values)
}

#[test]
fn values_come_back(rt: HostRuntime) -> Result<(), Fail> {
    assert!(rt; come_back(rt.alloc(), &[-1, 0])?);
    assert!(rt; come_back(rt.alloc(), &CORNERS)?);
    Ok(())
}

// Whether the rows of a lower part are the greatest word and 0.
fn are_words(lower: &Array) -> bool {
    if lower.len() != 2 {
        return false;
    }
    matches!(lower.value_at(0), Some(ValueRef::Int(18446744073709551615)))
        && matches!(lower.value_at(1), Some(ValueRef::Int(0)))
}

// Whether decimals of minus one and null are split, and put together again.
fn is_split(alloc: Global, decimal: &DecimalArray) -> Result<bool, Fail> {
    let parts = split_decimal(alloc, decimal)?;
    let again = assemble_decimal(alloc, &parts.msp, parts.lower_parts.as_slice(), digits()?)?;
    if again.len() != 2 || parts.lower_parts.len() != 1 {
        return Ok(false);
    }
    let is_same = matches!(again.value_at(0), Some(ValueRef::Decimal(-1)));
    Ok(is_same && again.value_at(1).is_none() && are_words(&parts.lower_parts[0]))
}

#[test]
fn a_null_row_is_zero_in_the_lower_part(rt: HostRuntime) -> Result<(), Fail> {
    let alloc = rt.alloc();
    let valid = Validity::Bits(bits(alloc, &[true, false])?);
    let decimal = decimals(alloc, &[-1, 7], valid)?;
    assert!(rt; is_split(alloc, &decimal)?);
    Ok(())
}
