// Parts put together again.
ghost use Rattle.std.specs.Prelude.{◌≡◌, ◌*◌, IfErr, IfOk, IsTrue, None, OnOk, Some, false, is_some, length, map, replicate, true};
ghost use Rattle.std.specs.List.{AllZip, zip};
ghost use Rattle.std.specs.Simd.Lanes.{zip2};
ghost use Rattle.vortex_array_types.specs.Row.{in_width, nullability};
ghost use Rattle.vortex_array_types.specs.Widths.{bytes_in, has_no_sign};
ghost use Rattle.vortex_array_kinds.specs.Kinds.{decimal_column, numbers_of, ptype_of, unscaled_of};
ghost use Rattle.vortex_array_kinds.specs.Validities.{nullability_of, valid_bits};
ghost use Rattle.vortex_array.specs.ColumnOf.{column_of};
ghost use Rattle.vortex_decimal_byte_parts.specs.Checked.{RefusesAssembly, first_of_lower, is_lower_type, is_msp_type, refused_parts};
ghost use Rattle.vortex_decimal_byte_parts.specs.Columns.{parts_column};
ghost use Rattle.vortex_decimal_byte_parts.specs.Held.{part_numbers, wide};
ghost use Rattle.vortex_decimal_byte_parts.specs.Number.{value as number_of_parts};
ghost use Rattle.vortex_decimal_byte_parts.specs.Split.{IsNumberOf, bits_in, bits_kept, bits_of_parts};
ghost use Rattle.vortex_decimal_byte_parts.specs.declared.errors.AssembleError.TheVariants as errors;

use crate::checks::check_parts;
use crate::errors::{AssembleError, PartsError};
use crate::numbers::{equal_items, number_in, numbers_fit, part_validity, rows_hold, width_of};
use crate::pairs::{
    Items, Pairs, PartNumbers, collect_lanes, each_lower, each_msp, same_signed, same_unsigned,
};
use std::alloc::{AllocError, Global};
use vortex_array::{
    Array, DecimalArray, DecimalBuffer, DecimalDType, Decimals, PType, PlainArray, PrimitiveBuffer,
};
use vortex_buffer::Buffer;

/// The decimals of a most significant part and lower parts, of which there is one at most, in the width of the most
/// significant part, or in 128 bits where there is a lower part.
///
/// The first refusal that holds is answered: `MspNotSigned`; `LengthMismatch` where a lower part has not as many rows as the
/// most significant one; `TooManyLowerParts`; `LowerNotUnsigned` where its type has a sign or nulls; `OutOfMemory`.
pub fn assemble_decimal(
    alloc: Global,
    msp: &Array,
    lower_parts: &[Array],
    decimal_dtype: DecimalDType,
) -> Result<DecimalArray, AssembleError>
    ensures ok { IfOk result (λ a. decimal_column a ≡ parts_column (record { msp = msp.now; lower = first_of_lower lower_parts.now; digits = decimal_dtype })) }
    ensures width { IfOk result (λ a. bits_kept a.values.numbers ≡ bits_of_parts msp.now (first_of_lower lower_parts.now)) }
    ensures parts { OnOk result (refused_parts msp.now lower_parts.now ≡ None) }
    ensures err { IfErr result (RefusesAssembly (refused_parts msp.now lower_parts.now)) }
{
    match check_parts(msp, lower_parts) {
        Ok(()) => assemble_checked(alloc, msp, lower_parts, decimal_dtype),
        Err(PartsError::MspNotSigned) => Err(AssembleError::MspNotSigned),
        Err(PartsError::LengthMismatch) => Err(AssembleError::LengthMismatch),
        Err(PartsError::TooManyLowerParts) => Err(AssembleError::TooManyLowerParts),
        Err(PartsError::LowerNotUnsigned) => Err(AssembleError::LowerNotUnsigned),
        Err(PartsError::WrongDecimalType) => unreachable!(),
    }
}

// The decimals of parts that were checked.
fn assemble_checked(
    alloc: Global,
    msp: &Array,
    lower_parts: &[Array],
    decimal_dtype: DecimalDType,
) -> Result<DecimalArray, AssembleError>
    requires { refused_parts msp.now lower_parts.now ≡ None }
    ensures ok { IfOk result (λ a. decimal_column a ≡ parts_column (record { msp = msp.now; lower = first_of_lower lower_parts.now; digits = decimal_dtype })) }
    ensures width { IfOk result (λ a. bits_kept a.values.numbers ≡ bits_of_parts msp.now (first_of_lower lower_parts.now)) }
    ensures err { IfErr result (λ e. e ≡ errors.OutOfMemory) }
{
    let made = match lower_parts {
        [] => assemble_narrow(alloc, msp, decimal_dtype),
        [lower, ..] => assemble_wide(alloc, msp, lower, decimal_dtype),
    };
    match made {
        Ok(decimal) => Ok(decimal),
        Err(_) => Err(AssembleError::OutOfMemory),
    }
}

// The decimals of a most significant part alone.
fn assemble_narrow(
    alloc: Global,
    msp: &Array,
    digits: DecimalDType,
) -> Result<DecimalArray, AllocError>
    requires msp { IsTrue (is_msp_type (column_of msp.now).dtype) }
    ensures ok { IfOk result (λ a. decimal_column a ≡ parts_column (record { msp = msp.now; lower = None; digits = digits })) }
    ensures width { IfOk result (λ a. bits_kept a.values.numbers ≡ bits_of_parts msp.now None) }
{
    rows_hold(msp);
    let numbers = narrow_numbers(alloc, msp)?;
    let decimal = decimal_of(alloc, msp, numbers, digits)?;
    Ok(decimal)
}

// The numbers of a most significant part as unscaled numbers of the same width.
fn narrow_numbers(alloc: Global, msp: &Array) -> Result<DecimalBuffer, AllocError>
    requires msp { IsTrue (is_msp_type (column_of msp.now).dtype) }
    ensures numbers { IfOk result (λ b. unscaled_of b ≡ part_numbers msp.now) }
    ensures width { IfOk result (λ b. bits_kept b ≡ bits_in (column_of msp.now).dtype) }
{
    match msp {
        Array::Primitive(plain) => copied_numbers(alloc, plain.values()),
        Array::Constant(constant) => {
            let number = number_in(constant.scalar());
            equal_numbers(alloc, width_of(msp), number, constant.len())
        }
        _ => unreachable!(),
    }
}

// Signed whole numbers as unscaled numbers.
fn copied_numbers(alloc: Global, values: &PrimitiveBuffer) -> Result<DecimalBuffer, AllocError>
    requires signed { has_no_sign (ptype_of values.now) ≡ false }
    ensures numbers { IfOk result (λ b. unscaled_of b ≡ numbers_of values.now) }
    ensures width { IfOk result (λ b. bits_kept b ≡ 8 * bytes_in (ptype_of values.now)) }
{
    match values {
        PrimitiveBuffer::I8(items) => items.try_clone(alloc).map(DecimalBuffer::I8),
        PrimitiveBuffer::I16(items) => items.try_clone(alloc).map(DecimalBuffer::I16),
        PrimitiveBuffer::I32(items) => items.try_clone(alloc).map(DecimalBuffer::I32),
        PrimitiveBuffer::I64(items) => items.try_clone(alloc).map(DecimalBuffer::I64),
        _ => unreachable!(),
    }
}

// A number of a signed width, so many times.
fn equal_numbers(
    alloc: Global,
    width: PType,
    number: i128,
    len: usize,
) -> Result<DecimalBuffer, AllocError>
    requires signed { has_no_sign width ≡ false }
    requires within { IsTrue (in_width width number) }
    ensures numbers { IfOk result (λ b. unscaled_of b ≡ replicate len number) }
    ensures width { IfOk result (λ b. bits_kept b ≡ 8 * bytes_in width) }
{
    match width {
        PType::I8 => equal_items::<i8>(alloc, number, len).map(DecimalBuffer::I8),
        PType::I16 => equal_items::<i16>(alloc, number, len).map(DecimalBuffer::I16),
        PType::I32 => equal_items::<i32>(alloc, number, len).map(DecimalBuffer::I32),
        PType::I64 => equal_items::<i64>(alloc, number, len).map(DecimalBuffer::I64),
        _ => unreachable!(),
    }
}

// The decimals of two parts.
fn assemble_wide(
    alloc: Global,
    msp: &Array,
    lower: &Array,
    digits: DecimalDType,
) -> Result<DecimalArray, AllocError>
    requires msp { IsTrue (is_msp_type (column_of msp.now).dtype) }
    requires lower { IsTrue (is_lower_type (column_of lower.now).dtype) }
    requires same_length { length (column_of msp.now).rows ≡ length (column_of lower.now).rows }
    ensures ok { IfOk result (λ a. decimal_column a ≡ parts_column (record { msp = msp.now; lower = Some lower.now; digits = digits })) }
    ensures width { IfOk result (λ a. bits_kept a.values.numbers ≡ 128) }
{
    rows_hold(msp);
    rows_hold(lower);
    numbers_fit(lower);
    let numbers = wide_numbers(alloc, msp, lower)?;
    let decimal = decimal_of(alloc, msp, DecimalBuffer::I128(numbers), digits)?;
    Ok(decimal)
}

// A column of these unscaled numbers, null where the most significant part is.
fn decimal_of(
    alloc: Global,
    msp: &Array,
    numbers: DecimalBuffer,
    digits: DecimalDType,
) -> Result<DecimalArray, AllocError>
    requires msp { IsTrue (is_msp_type (column_of msp.now).dtype) }
    requires same_length { length (unscaled_of numbers) ≡ length (column_of msp.now).rows }
    ensures numbers { IfOk result (λ a. a.values ≡ record { numbers = numbers; digits = digits }) }
    ensures present { IfOk result (λ a. valid_bits a.validity (length (column_of msp.now).rows) ≡ map is_some (column_of msp.now).rows) }
    ensures nulls { IfOk result (λ a. nullability_of a.validity ≡ nullability (column_of msp.now).dtype) }
{
    let validity = part_validity(alloc, msp)?;
    Ok(PlainArray::new(Decimals { numbers, digits }, validity))
}

// The numbers of two parts.
fn wide_numbers(alloc: Global, msp: &Array, lower: &Array) -> Result<Buffer<i128>, AllocError>
    requires msp { IsTrue (is_msp_type (column_of msp.now).dtype) }
    requires lower { IsTrue (is_lower_type (column_of lower.now).dtype) }
    requires same_length { length (part_numbers msp.now) ≡ length (part_numbers lower.now) }
    ensures { IfOk result (λ b. b ≡ zip2 wide (part_numbers msp.now) (part_numbers lower.now)) }
{
    each_msp!(msp, numbers => numbers_beside(alloc, numbers, lower))
}

// The same, where the numbers of the most significant part are at hand.
fn numbers_beside<A: PartNumbers>(
    alloc: Global,
    msp: A,
    lower: &Array,
) -> Result<Buffer<i128>, AllocError>
    requires signed { has_no_sign A.its_width ≡ false }
    requires lower { IsTrue (is_lower_type (column_of lower.now).dtype) }
    requires same_length { length (A.numbers msp) ≡ length (part_numbers lower.now) }
    ensures { IfOk result (λ b. b ≡ zip2 wide (A.numbers msp) (part_numbers lower.now)) }
{
    each_lower!(lower, numbers => numbers_of_pairs(alloc, msp, numbers))
}

// The same, where the numbers of both parts are.
fn numbers_of_pairs<A: PartNumbers, B: PartNumbers>(
    alloc: Global,
    msp: A,
    lower: B,
) -> Result<Buffer<i128>, AllocError>
    requires signed { has_no_sign A.its_width ≡ false }
    requires unsigned { has_no_sign B.its_width ≡ true }
    requires same_length { length (A.numbers msp) ≡ length (B.numbers lower) }
    ensures { IfOk result (λ b. b ≡ zip2 wide (A.numbers msp) (B.numbers lower)) }
{
    let pairs = Pairs { msp, lower };
    let numbers = collect_lanes(alloc, &pairs)?;
    Ok(Buffer::from_vec(numbers))
}

/// The numbers of which the items are the parts.
pub fn assemble_wide_decimal<M: Copy + Into<i64>>(
    alloc: Global,
    msp: &[M],
    lower: &[u64],
) -> Result<Buffer<i128>, AllocError>
    requires same_length { length msp.now ≡ length lower.now }
    ensures { IfOk result (AllZip (IsNumberOf M.converts) (zip msp.now lower.now)) }
{
    let mut numbers = Vec::with_capacity(alloc, msp.len())?;
    for i in 0..msp.len() {
        numbers.push(number_of(msp[i].into(), lower[i]))?;
    }
    Ok(Buffer::from_vec(numbers))
}

// The number of two parts.
#[inline(always)]
pub(crate) fn number_of(msp: i64, lower: u64) -> i128
    ensures { result ≡ number_of_parts msp lower }
{
    msp as i128 * 18446744073709551616 + lower as i128
}
