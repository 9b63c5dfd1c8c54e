// Laws: parts give back what was split, and calls on decimals in parts answer as those on the decimals that they stand for.
ghost use Rattle.std.specs.Prelude.{◌≡◌, ◌≤◌, IfOk, IfSome, IsTrue, length};
ghost use Rattle.vortex_buffer.specs.Mask.{mask_bits};
ghost use Rattle.vortex_array_types.specs.Typed.{same_apart_from_nullability};
ghost use Rattle.vortex_array_kinds.specs.Kinds.{bool_column, decimal_column};
ghost use Rattle.vortex_array_select.specs.Selected.{NamesRows};
ghost use Rattle.vortex_array.specs.ColumnOf.{column_of};
ghost use Rattle.vortex_decimal_byte_parts.specs.Columns.{parts_column};
ghost use Rattle.vortex_decimal_byte_parts.specs.declared.errors.SerdeError.TheVariants.{OutOfMemory};

use crate::assemble::{assemble_decimal, number_of};
use crate::errors::SerdeError;
use crate::parts::DecimalByteParts;
use crate::plugin::DecimalBytePartsPlugin;
use crate::split::{i128_to_parts, split_decimal};
use std::alloc::{AllocError, Global};
use std::ops::Range;
use vortex_array::{Array, BoolArray, CompareOperator, DecimalArray};
use vortex_buffer::Mask;
use vortex_wire::{canonical_spells, one_message};

/// The number of the parts of a number is that number.
pub fn number_given_back(value: i128) -> i128
    ensures { result ≡ value }
{
    let (msp, lower) = i128_to_parts(value);
    number_of(msp, lower[0])
}

/// Decimals that are split and put together again are null in the same rows and have the same numbers elsewhere.
pub fn assembled_again(alloc: Global, decimal: &DecimalArray) -> Result<DecimalArray, AllocError>
    ensures { IfOk result (λ a. decimal_column a ≡ decimal_column decimal.now) }
{
    let parts = split_decimal(alloc, decimal)?;
    let digits = decimal.decimal_dtype();
    match assemble_decimal(alloc, &parts.msp, parts.lower_parts.as_slice(), digits) {
        Ok(again) => Ok(again),
        Err(_) => Err(AllocError),
    }
}

/// The rows of a range of parts are those of the decimals.
pub fn sliced_as_decoded(
    alloc: Global,
    parts: &DecimalByteParts,
    decoded: &Array,
    range: Range<usize>,
) -> Result<(DecimalByteParts, Array), AllocError>
    requires same { column_of decoded.now ≡ parts_column parts.now }
    requires order { range.start ≤ range.end }
    requires within { range.end ≤ length (parts_column parts.now).rows }
    ensures { IfOk result (λ both. parts_column both.0 ≡ column_of both.1) }
{
    let start = range.start;
    let end = range.end;
    let some = parts.slice(alloc, start..end)?;
    let others = decoded.slice(alloc, start..end)?;
    Ok((some, others))
}

/// The rows of parts that a mask keeps are those of the decimals.
pub fn filtered_as_decoded(
    alloc: Global,
    parts: &DecimalByteParts,
    decoded: &Array,
    mask: &Mask,
) -> Result<(DecimalByteParts, Array), AllocError>
    requires same { column_of decoded.now ≡ parts_column parts.now }
    requires same_length { length (mask_bits mask.now) ≡ length (parts_column parts.now).rows }
    ensures { IfOk result (λ both. parts_column both.0 ≡ column_of both.1) }
{
    let some = parts.filter(alloc, mask)?;
    let others = decoded.filter(alloc, mask)?;
    Ok((some, others))
}

/// The rows of parts at indices are those of the decimals.
pub fn taken_as_decoded(
    alloc: Global,
    parts: &DecimalByteParts,
    decoded: &Array,
    indices: &Array,
) -> Result<(Option<DecimalByteParts>, Array), AllocError>
    requires same { column_of decoded.now ≡ parts_column parts.now }
    requires names { NamesRows (column_of indices.now) (length (parts_column parts.now).rows) }
    ensures { IfOk result (λ both. IfSome both.0 (λ p. parts_column p ≡ column_of both.1)) }
{
    let some = parts.take(alloc, indices)?;
    let others = decoded.take(alloc, indices)?;
    Ok((some, others))
}

/// The answers of parts beside a constant are those of the decimals.
pub fn compared_as_decoded(
    alloc: Global,
    parts: &DecimalByteParts,
    decoded: &Array,
    rhs: &Array,
    operator: CompareOperator,
) -> Result<(Option<BoolArray>, BoolArray), AllocError>
    requires same { column_of decoded.now ≡ parts_column parts.now }
    requires same_length { length (parts_column parts.now).rows ≡ length (column_of rhs.now).rows }
    requires same_type { IsTrue (same_apart_from_nullability (parts_column parts.now).dtype (column_of rhs.now).dtype) }
    ensures { IfOk result (λ both. IfSome both.0 (λ a. bool_column a ≡ bool_column both.1)) }
{
    let some = parts.compare(alloc, rhs, operator)?;
    let others = decoded.compare(alloc, rhs, operator)?;
    Ok((some, others))
}

/// Decimals in parts that are written, and read again as decimals of their type and length, are the same parts. Nothing but
/// memory can be wanting.
pub fn serialized_again(
    alloc: Global,
    parts: &DecimalByteParts,
) -> Result<DecimalByteParts, AllocError>
    ensures { IfOk result (λ p. p ≡ parts.now) }
{
    canonical_spells();
    one_message();
    let _lower = parts.lower_part();
    let written = DecimalBytePartsPlugin.serialize(alloc, parts)?;
    let (id, metadata, children) = written.into_parts();
    match DecimalBytePartsPlugin.deserialize(
        alloc,
        id.as_str(),
        &parts.dtype(),
        parts.len(),
        metadata.as_slice(),
        children,
    ) {
        Ok(again) => {
            let _again_lower = again.lower_part();
            Ok(again)
        }
        Err(error) => Err(memory_of(error)),
    }
}

// The want of memory that a refusal is.
fn memory_of(error: SerdeError) -> AllocError
    requires { error ≡ OutOfMemory }
{
    match error {
        SerdeError::OutOfMemory => AllocError,
        _ => unreachable!(),
    }
}
