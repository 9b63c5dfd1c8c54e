// Parts of the rows of decimals: rows in a line, rows that a mask keeps, rows at indices, and rows that a mask makes null.
ghost use Rattle.std.specs.Prelude.{◌≡◌, ◌≤◌, ◌&&◌, IfOk, IfSome, IsTrue, is_some, length, not};
ghost use Rattle.vortex_buffer.specs.Mask.{mask_bits};
ghost use Rattle.vortex_array_types.specs.Row.{is_nullable};
ghost use Rattle.vortex_array_types.specs.declared.types.Nullability.TheVariants.{Nullable};
ghost use Rattle.vortex_array_kinds.specs.Validities.{is_as_long, nullability_of, valid_bits};
ghost use Rattle.vortex_array_select.specs.Selected.{NamesRows, filtered, sliced, taken};
ghost use Rattle.vortex_array.specs.ColumnOf.{column_of};
ghost use Rattle.vortex_decimal_byte_parts.specs.Checked.{is_msp_type};
ghost use Rattle.vortex_decimal_byte_parts.specs.Columns.{masked, parts_column};

use crate::numbers::{part_validity, part_values, rows_hold};
use crate::parts::DecimalByteParts;
use std::alloc::{AllocError, Global};
use std::ops::Range;
use vortex_array::{Array, PrimitiveArray, Validity};
use vortex_buffer::Mask;

impl DecimalByteParts {
    /// The rows of a range, in their order.
    pub fn slice(&self, alloc: Global, range: Range<usize>) -> Result<DecimalByteParts, AllocError>
        requires order { range.start ≤ range.end }
        requires within { range.end ≤ length (parts_column self.now).rows }
        ensures { IfOk result (λ p. parts_column p ≡ sliced range.start range.end (parts_column self.now)) }
    {
        let start = range.start;
        let end = range.end;
        let digits = self.decimal_dtype();
        let high = self.msp().slice(alloc, start..end)?;
        match self.lower_part() {
            None => Ok(DecimalByteParts::new(high, None, digits)),
            Some(lower) => {
                let low = lower.slice(alloc, start..end)?;
                Ok(DecimalByteParts::new(high, Some(low), digits))
            }
        }
    }

    /// The rows that the mask keeps, in their order.
    pub fn filter(&self, alloc: Global, mask: &Mask) -> Result<DecimalByteParts, AllocError>
        requires { length (mask_bits mask.now) ≡ length (parts_column self.now).rows }
        ensures { IfOk result (λ p. parts_column p ≡ filtered (mask_bits mask.now) (parts_column self.now)) }
    {
        let digits = self.decimal_dtype();
        let high = self.msp().filter(alloc, mask)?;
        match self.lower_part() {
            None => Ok(DecimalByteParts::new(high, None, digits)),
            Some(lower) => {
                let low = lower.filter(alloc, mask)?;
                Ok(DecimalByteParts::new(high, Some(low), digits))
            }
        }
    }

    /// The rows at the indices, in the order of the indices; null where an index is null. An index may come again. The
    /// indices are a column of unsigned whole numbers, each null or below the number of rows. None exactly where there is a
    /// lower part and the type of the indices has nulls.
    pub fn take(
        &self,
        alloc: Global,
        indices: &Array,
    ) -> Result<Option<DecimalByteParts>, AllocError>
        requires { NamesRows (column_of indices.now) (length (parts_column self.now).rows) }
        ensures none { IfOk result (λ found. is_some found ≡ not (is_some self.now.lower && is_nullable (column_of indices.now).dtype)) }
        ensures ok { IfOk result (λ found. IfSome found (λ p. parts_column p ≡ taken (column_of indices.now) (parts_column self.now))) }
    {
        let digits = self.decimal_dtype();
        let msp = self.msp();
        match self.lower_part() {
            None => {
                let only = msp.take(alloc, indices)?;
                Ok(Some(DecimalByteParts::new(only, None, digits)))
            }
            Some(lower) => {
                if indices.dtype().is_nullable() {
                    return Ok(None);
                }
                let high = msp.take(alloc, indices)?;
                let low = lower.take(alloc, indices)?;
                Ok(Some(DecimalByteParts::new(high, Some(low), digits)))
            }
        }
    }

    /// The same rows where the mask keeps them, and null in the others' places, of the type with nulls.
    pub fn mask(&self, alloc: Global, keep: &Mask) -> Result<DecimalByteParts, AllocError>
        requires { length (mask_bits keep.now) ≡ length (parts_column self.now).rows }
        ensures { IfOk result (λ p. parts_column p ≡ masked (mask_bits keep.now) (parts_column self.now)) }
    {
        let digits = self.decimal_dtype();
        let high = masked_part(alloc, self.msp(), keep)?;
        match self.lower_part() {
            None => Ok(DecimalByteParts::new(high, None, digits)),
            Some(lower) => {
                let low = lower.try_clone(alloc)?;
                Ok(DecimalByteParts::new(high, Some(low), digits))
            }
        }
    }
}

// A most significant part with null where the mask does not keep its row.
fn masked_part(alloc: Global, part: &Array, keep: &Mask) -> Result<Array, AllocError>
    requires msp { IsTrue (is_msp_type (column_of part.now).dtype) }
    requires same_length { length (mask_bits keep.now) ≡ length (column_of part.now).rows }
    ensures { IfOk result (λ a. column_of a ≡ masked (mask_bits keep.now) (column_of part.now)) }
{
    rows_hold(part);
    let own = part_validity(alloc, part)?;
    let kept = mask_validity(alloc, keep)?;
    let validity = own.both(alloc, &kept, part.len())?;
    let values = part_values(alloc, part)?;
    Ok(Array::Primitive(PrimitiveArray::new(values, validity)))
}

// A mask as the validity of a type with nulls.
fn mask_validity(alloc: Global, keep: &Mask) -> Result<Validity, AllocError>
    ensures long { IfOk result (λ v. IsTrue (is_as_long v (length (mask_bits keep.now)))) }
    ensures present { IfOk result (λ v. valid_bits v (length (mask_bits keep.now)) ≡ mask_bits keep.now) }
    ensures nulls { IfOk result (λ v. nullability_of v ≡ Nullable) }
{
    match keep {
        Mask::AllTrue(_) => Ok(Validity::AllValid),
        Mask::AllFalse(_) => Ok(Validity::AllInvalid),
        Mask::Values(bits) => {
            let bits = bits.try_clone(alloc)?;
            Ok(Validity::Bits(bits))
        }
    }
}
