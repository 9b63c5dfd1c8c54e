// Worked comparisons, and worked bounds.
ghost use Rattle.std.specs.Prelude.{◌≡◌, IsTrue, length};
ghost use Rattle.vortex_array_types.specs.Typed.{same_apart_from_nullability};
ghost use Rattle.vortex_array.specs.ColumnOf.{column_of};
ghost use Rattle.vortex_decimal_byte_parts.specs.Columns.{parts_column};

use crate::samples::{LARGE, are_answers, bits, narrow, same, wide};
use std::alloc::Global;
use std::test::Fail;
use vortex_array::{Array, BetweenOptions, BoolArray, CompareOperator, StrictComparison, Validity};
use vortex_decimal_byte_parts::DecimalByteParts;

const BOTH: BetweenOptions = BetweenOptions {
    lower_strict: StrictComparison::NonStrict,
    upper_strict: StrictComparison::NonStrict,
};

const UPPER_LEFT_OUT: BetweenOptions = BetweenOptions {
    lower_strict: StrictComparison::NonStrict,
    upper_strict: StrictComparison::Strict,
};

// Whether a column has the same length and type as decimals in parts.
fn stands_beside(parts: &DecimalByteParts, other: &Array) -> bool
    ensures same_length { IsTrue result → length (parts_column parts.now).rows ≡ length (column_of other.now).rows }
    ensures same_type { IsTrue result → IsTrue (same_apart_from_nullability (parts_column parts.now).dtype (column_of other.now).dtype) }
{
    parts.len() == other.len() && parts.dtype().same_apart_from_nullability(&other.dtype())
}

fn compared(
    alloc: Global,
    parts: &DecimalByteParts,
    other: &Array,
    operator: CompareOperator,
) -> Result<Option<BoolArray>, Fail> {
    if !stands_beside(parts, other) {
        return Ok(None);
    }
    let answers = parts.compare(alloc, other, operator)?;
    Ok(answers)
}

fn bounded(
    alloc: Global,
    parts: &DecimalByteParts,
    lower: &Array,
    upper: &Array,
    options: &BetweenOptions,
) -> Result<Option<BoolArray>, Fail> {
    if !stands_beside(parts, lower) || !stands_beside(parts, upper) {
        return Ok(None);
    }
    let answers = parts.between(alloc, lower, upper, options)?;
    Ok(answers)
}

// Whether a comparison with equal rows has these answers.
fn compares_to(
    alloc: Global,
    parts: &DecimalByteParts,
    number: Option<i128>,
    operator: CompareOperator,
    rows: &[Option<bool>],
) -> Result<bool, Fail> {
    let other = same(number, parts.len())?;
    match compared(alloc, parts, &other, operator)? {
        Some(answers) => Ok(are_answers(&answers, rows)),
        None => Ok(false),
    }
}

// Whether bounds have these answers.
fn bounds_to(
    alloc: Global,
    parts: &DecimalByteParts,
    lower: Option<i128>,
    upper: Option<i128>,
    options: &BetweenOptions,
    rows: &[Option<bool>],
) -> Result<bool, Fail> {
    let lower = same(lower, parts.len())?;
    let upper = same(upper, parts.len())?;
    match bounded(alloc, parts, &lower, &upper, options)? {
        Some(answers) => Ok(are_answers(&answers, rows)),
        None => Ok(false),
    }
}

#[test]
fn wide_decimals_are_compared_by_both_parts(rt: HostRuntime) -> Result<(), Fail> {
    let alloc = rt.alloc();
    let rows = [LARGE, LARGE + 1, 5, -LARGE];
    let parts = wide(alloc, &rows, Validity::NonNullable)?;
    let equal = [Some(false), Some(true), Some(false), Some(false)];
    let below = [Some(true), Some(false), Some(true), Some(true)];
    let is_equal = compares_to(alloc, &parts, Some(LARGE + 1), CompareOperator::Eq, &equal)?;
    assert!(rt; is_equal);
    let is_below = compares_to(alloc, &parts, Some(LARGE + 1), CompareOperator::Lt, &below)?;
    assert!(rt; is_below);
    let within = [Some(false), Some(false), Some(true), Some(false)];
    let is_within = bounds_to(
        alloc,
        &parts,
        Some(5),
        Some(LARGE),
        &UPPER_LEFT_OUT,
        &within,
    )?;
    assert!(rt; is_within);
    Ok(())
}

// Bounds about those of `i32`, and the answers to 100, 200 and 400.
const BOUNDS: [(i128, i128, [Option<bool>; 3]); 4] = [
    (-2147483649, 200, [Some(true), Some(true), Some(false)]),
    (
        2147483648,
        2147483649,
        [Some(false), Some(false), Some(false)],
    ),
    (
        -2147483649,
        2147483648,
        [Some(true), Some(true), Some(true)],
    ),
    (200, i128::MAX, [Some(false), Some(true), Some(true)]),
];

#[test]
fn bounds_that_the_part_cannot_hold_are_settled(rt: HostRuntime) -> Result<(), Fail> {
    let alloc = rt.alloc();
    let parts = narrow(alloc, &[100, 200, 400], Validity::NonNullable)?;
    for (lower, upper, rows) in BOUNDS.iter() {
        let is_right = bounds_to(alloc, &parts, Some(*lower), Some(*upper), &BOTH, rows)?;
        assert!(rt; is_right, "{lower} to {upper}");
    }
    Ok(())
}

#[test]
fn null_rows_and_null_bounds_have_no_answer(rt: HostRuntime) -> Result<(), Fail> {
    let alloc = rt.alloc();
    let valid = Validity::Bits(bits(alloc, &[true, false, true])?);
    let parts = narrow(alloc, &[100, 200, 400], valid)?;
    let rows = [Some(false), None, Some(false)];
    let above = Some(2147483648);
    let is_settled = bounds_to(alloc, &parts, above, Some(2147483649), &BOTH, &rows)?;
    assert!(rt; is_settled);
    let is_above = compares_to(alloc, &parts, above, CompareOperator::Gt, &rows)?;
    assert!(rt; is_above);
    let nulls = [None, None, None];
    let is_null = compares_to(alloc, &parts, None, CompareOperator::Eq, &nulls)?;
    assert!(rt; is_null);
    let is_null = bounds_to(alloc, &parts, Some(0), None, &BOTH, &nulls)?;
    assert!(rt; is_null);
    Ok(())
}
