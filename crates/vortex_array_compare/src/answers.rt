// Answers as columns: those of a test to the rows of plain arrays, and columns of one answer.
ghost use Rattle.std.specs.Prelude.{◌≡◌, Bool, IfOk, None, Some, length, map, replicate};
ghost use Rattle.std.specs.Simd.Lanes.{zip2};
ghost use Rattle.vortex_array_types.specs.Row.{nullability as nulls_of};
ghost use Rattle.vortex_array_types.specs.declared.scalar.Value.{Value};
ghost use Rattle.vortex_array_types.specs.declared.types.DType.{DType as ColumnType};
ghost use Rattle.vortex_array_types.specs.declared.types.Nullability.TheVariants.{Nullable};
ghost use Rattle.vortex_array_kinds.specs.Kinds.{bool_column, plain_column};
ghost use Rattle.vortex_array_kinds.specs.Truths.{either, truths};
ghost use Rattle.vortex_array_compare.specs.Repeated.{repeated};
ghost use Rattle.vortex_array_compare.specs.Tested.{tested};

use std::alloc::{AllocError, Global};
use vortex_array_kinds::{BoolArray, PlainArray, Validity, Values};
use vortex_array_types::{DType, Nullability};
use vortex_buffer::BitBuffer;

// The answers of any test to the values of two plain arrays, as a column: null where a row of one of the two is.
pub(crate) fn pair_answers<V: Values>(
    alloc: Global,
    bits: BitBuffer,
    left: &PlainArray<V>,
    right: &PlainArray<V>,
) -> Result<BoolArray, AllocError>
    requires left { length bits ≡ V.count_of left.now.values }
    requires right { length bits ≡ V.count_of right.now.values }
    ensures { (test : Value → Value → Bool) → bits ≡ zip2 test (V.items left.now.values) (V.items right.now.values) → IfOk result (λ a. bool_column a ≡ tested test (plain_column V.type_of V.items left.now) (plain_column V.type_of V.items right.now)) }
{
    let validity = left.validity().both(alloc, right.validity(), bits.len())?;
    Ok(BoolArray::new(bits, validity))
}

// The answers of any test to the values of a plain array and one value, as a column: null where a row is. The type has
// nulls where the array's or the value's has.
pub(crate) fn value_answers<V: Values>(
    alloc: Global,
    bits: BitBuffer,
    array: &PlainArray<V>,
    nullability: Nullability,
) -> Result<BoolArray, AllocError>
    requires { length bits ≡ V.count_of array.now.values }
    ensures { (test : Value → Value → Bool) (t : ColumnType) (x : Value) → nulls_of t ≡ nullability → bits ≡ map (λ y. test y x) (V.items array.now.values) → IfOk result (λ a. bool_column a ≡ tested test (plain_column V.type_of V.items array.now) (repeated t x (length (plain_column V.type_of V.items array.now).rows))) }
{
    let nulls = Validity::of_values(nullability);
    let validity = array.validity().both(alloc, &nulls, bits.len())?;
    Ok(BoolArray::new(bits, validity))
}

/// So many rows of one truth value, in a type with nulls or without.
pub fn equal_answers(
    alloc: Global,
    answer: bool,
    nullability: Nullability,
    len: usize,
) -> Result<BoolArray, AllocError>
    ensures { IfOk result (λ a. bool_column a ≡ truths nullability (replicate len (Some answer))) }
{
    let bits = equal_bits(alloc, answer, len)?;
    Ok(BoolArray::new(bits, Validity::of_values(nullability)))
}

/// So many rows of null.
pub fn null_answers(alloc: Global, len: usize) -> Result<BoolArray, AllocError>
    ensures { IfOk result (λ a. bool_column a ≡ truths Nullable (replicate len None)) }
{
    let bits = BitBuffer::new_unset(alloc, len)?;
    Ok(BoolArray::new(bits, Validity::AllInvalid))
}

// So many bits that are all this one.
fn equal_bits(alloc: Global, bit: bool, len: usize) -> Result<BitBuffer, AllocError>
    ensures { IfOk result (λ bits. bits ≡ replicate len bit) }
{
    if bit {
        Validity::AllValid.to_bits(alloc, len)
    } else {
        BitBuffer::new_unset(alloc, len)
    }
}

/// Nullable where one of two types is.
pub fn either_nullability(a: DType, b: DType) -> Nullability
    ensures { result ≡ either (nulls_of a) (nulls_of b) }
{
    if a.is_nullable() {
        Nullability::Nullable
    } else {
        b.nullability()
    }
}
