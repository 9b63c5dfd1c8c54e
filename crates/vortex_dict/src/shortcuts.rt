// Truth values without nulls at codes. Where at most one of them is true, comparing the codes tells which rows are.
ghost use Rattle.std.specs.Prelude.{◌≡◌, IfNone, IfOk, IfSome, IsFalse, IsTrue, Some, length, pos};
ghost use Rattle.vortex_array_types.specs.Row.{value_fits};
ghost use Rattle.vortex_array_types.specs.Widths.{with_nullability};
ghost use Rattle.vortex_array_types.specs.Typed.{same_apart_from_nullability};
ghost use Rattle.vortex_array_types.specs.declared.scalar.Value.TheVariants as values;
ghost use Rattle.vortex_array_kinds.specs.Kinds.{constant_column};
ghost use Rattle.vortex_array_kinds.specs.Truths.{compared};
ghost use Rattle.vortex_array_kinds.specs.Validities.{has_none};
ghost use Rattle.vortex_array_select.specs.Selected.{NamesRows, is_index_type};
ghost use Rattle.vortex_array.specs.ColumnOf.{bool_column, column_of};
ghost use Rattle.vortex_dict.specs.Decoded.{decoded};
ghost use Rattle.vortex_dict.specs.OnlyTrue.{AreTrue};

use crate::truths::truths_at;
use std::alloc::{AllocError, Global};
use vortex_array::{
    Array, BoolArray, CompareOperator, ConstantArray, DType, Nullability, Scalar, Value,
};
use vortex_array_rows::first_set;
use vortex_buffer::BitBuffer;

// How many of some truths hold, and where.
#[derive(Clone, Copy)]
pub(crate) enum TrueValues {
    // None does.
    Never,
    // The one at this place does.
    Once(usize),
    // More may.
    Often,
}

// Truth values at codes.
pub(crate) fn decoded_truths(
    alloc: Global,
    truths: &BoolArray,
    codes: &Array,
) -> Result<BoolArray, AllocError>
    requires { NamesRows (column_of codes.now) (length (bool_column truths.now).rows) }
    ensures { IfOk result (λ a. bool_column a ≡ decoded (column_of codes.now) (bool_column truths.now)) }
{
    if !truths.validity().has_none() {
        return gathered(alloc, truths, codes);
    }
    match true_values(truths.bits()) {
        TrueValues::Never => none_true(alloc, truths, codes),
        TrueValues::Once(place) => one_true(alloc, truths, codes, place as u64),
        TrueValues::Often => gathered(alloc, truths, codes),
    }
}

// Truth values at codes, each looked up.
fn gathered(alloc: Global, truths: &BoolArray, codes: &Array) -> Result<BoolArray, AllocError>
    requires { NamesRows (column_of codes.now) (length (bool_column truths.now).rows) }
    ensures { IfOk result (λ a. bool_column a ≡ decoded (column_of codes.now) (bool_column truths.now)) }
{
    let copy = truths.try_clone(alloc)?;
    let rows = truths_at(alloc, copy, codes)?;
    Ok(rows)
}

// How many bits are set, and where.
fn true_values(bits: &BitBuffer) -> TrueValues
    ensures { AreTrue bits.now result }
{
    match first_set(bits) {
        None => TrueValues::Never,
        Some(first) => {
            if bits.count() == 1 {
                TrueValues::Once(first)
            } else {
                TrueValues::Often
            }
        }
    }
}

// Truth values at codes, none of which is true: no code is below 0.
fn none_true(alloc: Global, truths: &BoolArray, codes: &Array) -> Result<BoolArray, AllocError>
    requires present { IsTrue (has_none truths.now.validity) }
    requires none { AreTrue truths.now.values TrueValues.Never }
    requires codes { NamesRows (column_of codes.now) (length (bool_column truths.now).rows) }
    ensures { IfOk result (λ a. bool_column a ≡ decoded (column_of codes.now) (bool_column truths.now)) }
{
    match code_scalar(codes, truths.validity().nullability(), 0) {
        Some(zero) => codes_stand(alloc, codes, zero, CompareOperator::Lt),
        None => unreachable!(),
    }
}

// Truth values at codes, of which one is true: a code is the place of that, or no code can be.
fn one_true(
    alloc: Global,
    truths: &BoolArray,
    codes: &Array,
    place: u64,
) -> Result<BoolArray, AllocError>
    requires present { IsTrue (has_none truths.now.validity) }
    requires one { AreTrue truths.now.values (TrueValues.Once place) }
    requires codes { NamesRows (column_of codes.now) (length (bool_column truths.now).rows) }
    ensures { IfOk result (λ a. bool_column a ≡ decoded (column_of codes.now) (bool_column truths.now)) }
{
    match code_scalar(codes, truths.validity().nullability(), place) {
        Some(code) => codes_stand(alloc, codes, code, CompareOperator::Eq),
        None => gathered(alloc, truths, codes),
    }
}

// A number as a code, of the codes' width and this nullability, or none exactly where it is outside the width.
pub(crate) fn code_scalar(codes: &Array, nullability: Nullability, number: u64) -> Option<Scalar>
    requires { IsTrue (is_index_type (column_of codes.now).dtype) }
    ensures none { IfNone result (IsFalse (value_fits (column_of codes.now).dtype (values.Int (pos number)))) }
    ensures some { IfSome result (λ s. s ≡ record { dtype = with_nullability nullability (column_of codes.now).dtype; value = Some (values.Int (pos number)) }) }
{
    let value = Some(Value::Int(number as i128));
    match Scalar::try_new(code_type(codes.dtype(), nullability), value) {
        Ok(scalar) => Some(scalar),
        Err(_) => None,
    }
}

// A type of whole numbers with this nullability.
fn code_type(dtype: DType, nullability: Nullability) -> DType
    requires { IsTrue (is_index_type dtype) }
    ensures { result ≡ with_nullability nullability dtype }
{
    match dtype {
        DType::Primitive(width, _) => DType::Primitive(width, nullability),
        _ => unreachable!(),
    }
}

// Row by row whether the operator holds of a code and one number of its type.
fn codes_stand(
    alloc: Global,
    codes: &Array,
    number: Scalar,
    operator: CompareOperator,
) -> Result<BoolArray, AllocError>
    requires { IsTrue (same_apart_from_nullability (column_of codes.now).dtype number.dtype) }
    ensures { IfOk result (λ a. bool_column a ≡ compared operator (column_of codes.now) (constant_column (record { scalar = number; len = length (column_of codes.now).rows }))) }
{
    let same = Array::Constant(ConstantArray::new(number, codes.len()));
    let rows = codes.compare(alloc, &same, operator)?;
    Ok(rows)
}
