// Decimals in parts compared with constants, of any number of 128 bits.
ghost use Rattle.std.specs.Prelude.{◌≡◌, ◌||◌, IfOk, IfSome, IsFalse, IsTrue, Some, false, is_some, length, map, not, option_map};
ghost use Rattle.std.specs.Simd.Lanes.{zip2};
ghost use Rattle.vortex_array_types.specs.Row.{fits_type, nullability as nullability_in, value_fits};
ghost use Rattle.vortex_array_types.specs.Typed.{same_apart_from_nullability};
ghost use Rattle.vortex_array_types.specs.declared.scalar.Value.TheVariants.{Decimal, Int};
ghost use Rattle.vortex_array_kinds.specs.Truths.{bounded, compared, either, truths};
ghost use Rattle.vortex_array.specs.ColumnOf.{bool_column, column_of, constant_column, is_plain};
ghost use Rattle.vortex_array.specs.Plain.{is_decimal_type};
ghost use Rattle.vortex_decimal_byte_parts.specs.Checked.{is_lower_type, is_msp_type};
ghost use Rattle.vortex_decimal_byte_parts.specs.Columns.{one_row, parts_column, two_rows};
ghost use Rattle.vortex_decimal_byte_parts.specs.Held.{Each, IsWideRow, asked_row, lies_in, number_between, number_compares};

use crate::answers::{answers_beside, equal_bits};
use crate::bounded::{narrow_bits, wide_bits};
use crate::interval::{Interval, is_in, of_bounds, of_operator};
use crate::numbers::{numbers_fit, rows_hold, width_of};
use crate::parts::DecimalByteParts;
use std::alloc::{AllocError, Global};
use vortex_array::{
    Array, BetweenOptions, BoolArray, CompareOperator, ConstantArray, DType, Nullability, Scalar,
    Value, ValueRef,
};
use vortex_array_compare::{either_nullability, null_answers};

impl DecimalByteParts {
    /// Row by row whether the operator holds of this column and another of the same length and, apart from nullability, of
    /// the same type: null where a row is null. None exactly where the other is no constant array.
    ///
    /// A constant may be any number of 128 bits. One that the type of a most significant part alone cannot hold settles the
    /// answer for all rows that are not null, and no number is read.
    pub fn compare(
        &self,
        alloc: Global,
        rhs: &Array,
        operator: CompareOperator,
    ) -> Result<Option<BoolArray>, AllocError>
        requires same_length { length (parts_column self.now).rows ≡ length (column_of rhs.now).rows }
        requires same_type { IsTrue (same_apart_from_nullability (parts_column self.now).dtype (column_of rhs.now).dtype) }
        ensures none { IfOk result (λ found. is_some found ≡ not (is_plain rhs.now)) }
        ensures ok { IfOk result (λ found. IfSome found (λ a. bool_column a ≡ compared operator (parts_column self.now) (column_of rhs.now))) }
    {
        match rhs {
            Array::Constant(constant) => match self.compare_constant(alloc, constant, operator) {
                Ok(answers) => Ok(Some(answers)),
                Err(error) => Err(error),
            },
            _ => Ok(None),
        }
    }

    /// Row by row whether the value lies between its bounds, each bound itself left out where it is strict. All three columns
    /// have one length and, apart from nullability, one type. Null where a row of the three is null. None exactly where a
    /// bound is no constant array.
    ///
    /// A bound that the type of a most significant part alone cannot hold is settled, and the rows are asked for the other.
    pub fn between(
        &self,
        alloc: Global,
        lower: &Array,
        upper: &Array,
        options: &BetweenOptions,
    ) -> Result<Option<BoolArray>, AllocError>
        requires lower_length { length (parts_column self.now).rows ≡ length (column_of lower.now).rows }
        requires lower_type { IsTrue (same_apart_from_nullability (parts_column self.now).dtype (column_of lower.now).dtype) }
        requires upper_length { length (parts_column self.now).rows ≡ length (column_of upper.now).rows }
        requires upper_type { IsTrue (same_apart_from_nullability (parts_column self.now).dtype (column_of upper.now).dtype) }
        ensures none { IfOk result (λ found. is_some found ≡ not (is_plain lower.now || is_plain upper.now)) }
        ensures ok { IfOk result (λ found. IfSome found (λ a. bool_column a ≡ bounded options.now (parts_column self.now) (column_of lower.now) (column_of upper.now))) }
    {
        match (lower, upper) {
            (Array::Constant(lower), Array::Constant(upper)) => {
                match self.between_constants(alloc, lower, upper, options) {
                    Ok(answers) => Ok(Some(answers)),
                    Err(error) => Err(error),
                }
            }
            _ => Ok(None),
        }
    }

    // The comparison with equal rows.
    fn compare_constant(
        &self,
        alloc: Global,
        constant: &ConstantArray,
        operator: CompareOperator,
    ) -> Result<BoolArray, AllocError>
        requires same_length { length (parts_column self.now).rows ≡ length (constant_column constant.now).rows }
        requires same_type { IsTrue (same_apart_from_nullability (parts_column self.now).dtype (constant_column constant.now).dtype) }
        ensures { IfOk result (λ a. bool_column a ≡ compared operator (parts_column self.now) (constant_column constant.now)) }
    {
        let nullability = constant.dtype().nullability();
        match unscaled(constant.scalar()) {
            Some(number) => {
                let answers = self.compare_number(alloc, number, operator, nullability)?;
                Ok(answers)
            }
            None => {
                let answers = null_answers(alloc, constant.len())?;
                Ok(answers)
            }
        }
    }

    // Whether the operator holds of each number and another.
    fn compare_number(
        &self,
        alloc: Global,
        number: i128,
        operator: CompareOperator,
        nullability: Nullability,
    ) -> Result<BoolArray, AllocError>
        ensures { IfOk result (λ a. bool_column a ≡ truths (either (nullability_in (parts_column self.now).dtype) nullability) (map (asked_row (number_compares operator number)) (parts_column self.now).rows)) }
    {
        match self.lower_part() {
            None => {
                let answers = compare_narrow(alloc, self.msp(), number, operator, nullability)?;
                Ok(answers)
            }
            Some(lower) => {
                let interval = of_operator(operator, number);
                let answers = ask_pairs(alloc, self.msp(), lower, interval, nullability)?;
                Ok(answers)
            }
        }
    }

    // Whether the values lie between equal rows.
    fn between_constants(
        &self,
        alloc: Global,
        lower: &ConstantArray,
        upper: &ConstantArray,
        options: &BetweenOptions,
    ) -> Result<BoolArray, AllocError>
        requires lower_length { length (parts_column self.now).rows ≡ length (constant_column lower.now).rows }
        requires lower_type { IsTrue (same_apart_from_nullability (parts_column self.now).dtype (constant_column lower.now).dtype) }
        requires upper_length { length (parts_column self.now).rows ≡ length (constant_column upper.now).rows }
        requires upper_type { IsTrue (same_apart_from_nullability (parts_column self.now).dtype (constant_column upper.now).dtype) }
        ensures { IfOk result (λ a. bool_column a ≡ bounded options.now (parts_column self.now) (constant_column lower.now) (constant_column upper.now)) }
    {
        match unscaled(lower.scalar()) {
            Some(least) => self.between_number(alloc, least, lower, upper, options),
            None => {
                let answers = null_answers(alloc, lower.len())?;
                Ok(answers)
            }
        }
    }

    // The same, where the lower bound is a number.
    fn between_number(
        &self,
        alloc: Global,
        least: i128,
        lower: &ConstantArray,
        upper: &ConstantArray,
        options: &BetweenOptions,
    ) -> Result<BoolArray, AllocError>
        requires least { Some (Decimal least) ≡ lower.now.scalar.value }
        requires lower_length { length (parts_column self.now).rows ≡ length (constant_column lower.now).rows }
        requires upper_length { length (parts_column self.now).rows ≡ length (constant_column upper.now).rows }
        requires upper_type { IsTrue (same_apart_from_nullability (parts_column self.now).dtype (constant_column upper.now).dtype) }
        ensures { IfOk result (λ a. bool_column a ≡ bounded options.now (parts_column self.now) (constant_column lower.now) (constant_column upper.now)) }
    {
        let nullability = either_nullability(lower.dtype(), upper.dtype());
        match unscaled(upper.scalar()) {
            Some(greatest) => {
                let answers = self.between_numbers(alloc, least, greatest, options, nullability)?;
                Ok(answers)
            }
            None => {
                let answers = null_answers(alloc, lower.len())?;
                Ok(answers)
            }
        }
    }

    // Whether the numbers lie between two others.
    fn between_numbers(
        &self,
        alloc: Global,
        lower: i128,
        upper: i128,
        options: &BetweenOptions,
        nullability: Nullability,
    ) -> Result<BoolArray, AllocError>
        ensures { IfOk result (λ a. bool_column a ≡ truths (either (nullability_in (parts_column self.now).dtype) nullability) (map (asked_row (number_between options.now lower upper)) (parts_column self.now).rows)) }
    {
        let interval = of_bounds(options, lower, upper);
        match self.lower_part() {
            None => {
                let answers = ask_numbers(alloc, self.msp(), interval, nullability)?;
                Ok(answers)
            }
            Some(lower_part) => {
                let answers = ask_pairs(alloc, self.msp(), lower_part, interval, nullability)?;
                Ok(answers)
            }
        }
    }
}

// The unscaled number of a row, or none where it is null.
fn unscaled(scalar: &Scalar) -> Option<i128>
    requires { IsTrue (is_decimal_type scalar.now.dtype) }
    ensures value { option_map (λ n. Decimal n) result ≡ scalar.now.value }
    ensures fits { IsTrue (fits_type scalar.now.dtype scalar.now.value) }
{
    match scalar.value_ref() {
        Some(ValueRef::Decimal(number)) => Some(number),
        Some(_) => unreachable!(),
        None => None,
    }
}

// Whether the numbers of a most significant part alone lie in an interval.
fn ask_numbers(
    alloc: Global,
    msp: &Array,
    interval: Interval,
    nullability: Nullability,
) -> Result<BoolArray, AllocError>
    requires msp { IsTrue (is_msp_type (column_of msp.now).dtype) }
    requires inside { interval.outside ≡ false }
    ensures ok { IfOk result (λ a. bool_column a ≡ truths (either (nullability_in (column_of msp.now).dtype) nullability) (map (asked_row (lies_in interval)) (map one_row (column_of msp.now).rows))) }
    ensures wide { Each IsWideRow (map one_row (column_of msp.now).rows) }
{
    rows_hold(msp);
    numbers_fit(msp);
    let bits = narrow_bits(alloc, msp, interval)?;
    let answers = answers_beside(alloc, bits, msp, nullability)?;
    Ok(answers)
}

// Whether the numbers of two parts lie in an interval.
fn ask_pairs(
    alloc: Global,
    msp: &Array,
    lower: &Array,
    interval: Interval,
    nullability: Nullability,
) -> Result<BoolArray, AllocError>
    requires msp { IsTrue (is_msp_type (column_of msp.now).dtype) }
    requires lower { IsTrue (is_lower_type (column_of lower.now).dtype) }
    requires same_length { length (column_of msp.now).rows ≡ length (column_of lower.now).rows }
    ensures ok { IfOk result (λ a. bool_column a ≡ truths (either (nullability_in (column_of msp.now).dtype) nullability) (map (asked_row (lies_in interval)) (zip2 two_rows (column_of msp.now).rows (column_of lower.now).rows))) }
    ensures wide { Each IsWideRow (zip2 two_rows (column_of msp.now).rows (column_of lower.now).rows) }
{
    rows_hold(msp);
    numbers_fit(msp);
    rows_hold(lower);
    numbers_fit(lower);
    let bits = wide_bits(alloc, msp, lower, interval)?;
    let answers = answers_beside(alloc, bits, msp, nullability)?;
    Ok(answers)
}

// Whether the operator holds of each number of a most significant part alone and another number. One that the type cannot
// hold is above all of its numbers or below all of them, as it is of 0, and no number is read.
fn compare_narrow(
    alloc: Global,
    msp: &Array,
    number: i128,
    operator: CompareOperator,
    nullability: Nullability,
) -> Result<BoolArray, AllocError>
    requires msp { IsTrue (is_msp_type (column_of msp.now).dtype) }
    ensures { IfOk result (λ a. bool_column a ≡ truths (either (nullability_in (column_of msp.now).dtype) nullability) (map (asked_row (number_compares operator number)) (map one_row (column_of msp.now).rows))) }
{
    rows_hold(msp);
    let dtype = DType::Primitive(width_of(msp), nullability);
    match Scalar::try_new(dtype, Some(Value::Int(number))) {
        Ok(scalar) => {
            let same = Array::Constant(ConstantArray::new(scalar, msp.len()));
            let answers = msp.compare(alloc, &same, operator)?;
            Ok(answers)
        }
        Err(_) => {
            let answers = settled(alloc, msp, number, operator, nullability)?;
            Ok(answers)
        }
    }
}

// The same of a number that the type cannot hold.
fn settled(
    alloc: Global,
    msp: &Array,
    number: i128,
    operator: CompareOperator,
    nullability: Nullability,
) -> Result<BoolArray, AllocError>
    requires msp { IsTrue (is_msp_type (column_of msp.now).dtype) }
    requires outside { IsFalse (value_fits (column_of msp.now).dtype (Int number)) }
    ensures { IfOk result (λ a. bool_column a ≡ truths (either (nullability_in (column_of msp.now).dtype) nullability) (map (asked_row (number_compares operator number)) (map one_row (column_of msp.now).rows))) }
{
    rows_hold(msp);
    numbers_fit(msp);
    let bits = equal_bits(alloc, is_in(of_operator(operator, number), 0), msp.len())?;
    let answers = answers_beside(alloc, bits, msp, nullability)?;
    Ok(answers)
}
