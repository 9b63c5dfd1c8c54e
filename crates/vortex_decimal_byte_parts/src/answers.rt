// Answers as columns: null where a part is null.
ghost use Rattle.std.specs.Prelude.{◌≡◌, IfOk, IsTrue, is_some, length, map, replicate};
ghost use Rattle.std.specs.Simd.Lanes.{zip2};
ghost use Rattle.vortex_array_types.specs.Row.{nullability as nullability_in};
ghost use Rattle.vortex_array_kinds.specs.Truths.{either, truths};
ghost use Rattle.vortex_array.specs.ColumnOf.{bool_column, column_of};
ghost use Rattle.vortex_array.specs.Plain.{is_primitive_type};
ghost use Rattle.vortex_decimal_byte_parts.specs.Held.{answer_if};

use crate::numbers::part_validity;
use std::alloc::{AllocError, Global};
use vortex_array::{Array, BoolArray, Nullability, Validity};
use vortex_buffer::BitBuffer;

// A column of these answers, null where the part is null, of a type with nulls where the part's has them or where that is
// asked for.
pub(crate) fn answers_beside(
    alloc: Global,
    bits: BitBuffer,
    part: &Array,
    nullability: Nullability,
) -> Result<BoolArray, AllocError>
    requires kind { IsTrue (is_primitive_type (column_of part.now).dtype) }
    requires same_length { length bits ≡ length (column_of part.now).rows }
    ensures { IfOk result (λ a. bool_column a ≡ truths (either (nullability_in (column_of part.now).dtype) nullability) (zip2 answer_if (map is_some (column_of part.now).rows) bits)) }
{
    let own = part_validity(alloc, part)?;
    let validity = own.both(alloc, &Validity::of_values(nullability), bits.len())?;
    Ok(BoolArray::new(bits, validity))
}

// So many equal bits.
pub(crate) fn equal_bits(alloc: Global, bit: bool, len: usize) -> Result<BitBuffer, AllocError>
    ensures { IfOk result (λ bits. bits ≡ replicate len bit) }
{
    if bit {
        Validity::AllValid.to_bits(alloc, len)
    } else {
        BitBuffer::new_unset(alloc, len)
    }
}
