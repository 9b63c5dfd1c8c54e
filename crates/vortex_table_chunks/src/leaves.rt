// Tests of the values of a chunk.
ghost use Rattle.std.specs.Prelude.{◌≡◌, ◌≤◌, ◌+◌, IfOk, IsTrue, false, is_some, length, map, min, option_map, unwrap_or};
ghost use Rattle.vortex_array_types.specs.Row.{nullability};
ghost use Rattle.vortex_array_types.specs.Seen.{value_seen};
ghost use Rattle.vortex_array_kinds.specs.Validities.{is_as_long, nullability_of, valid_bits};
ghost use Rattle.vortex_array_kinds.specs.Kinds.{constant_column, plain_column};
ghost use Rattle.vortex_array.specs.ColumnOf.{bool_column, column_of};
ghost use Rattle.vortex_dict.specs.Answered.{tested};
ghost use Rattle.vortex_dict.specs.Decoded.{dict_column};
ghost use Rattle.vortex_decimal_byte_parts.specs.Columns.{parts_column};
ghost use Rattle.vortex_table_chunks.specs.ChunkOf.{chunk_column, questions};

use crate::chunk::Chunk;
use crate::forms::assembled;
use std::alloc::{AllocError, Global};
use vortex_array::{Array, BoolArray, ConstantArray, PlainArray, Predicate, Validity, ValueRef};
use vortex_array_kinds::Values;
use vortex_buffer::BitBuffer;
use vortex_decimal_byte_parts::DecimalByteParts;
use vortex_dict::DictArray;

/// Row by row whether the test holds of the value, and null where the row is null. It is asked once a row at most, and of a
/// dictionary once a value where these are fewer than the rows.
pub fn leaf<Q: Predicate>(alloc: Global, chunk: &Chunk, q: &mut Q) -> Result<BoolArray, AllocError>
    ensures rows { IfOk result (λ a. bool_column a ≡ tested (Q.truth q.old) (chunk_column chunk.now)) }
    ensures truths { Q.truth q.new ≡ Q.truth q.old }
    ensures count { Q.asked q.new ≤ Q.asked q.old + questions chunk.now }
{
    match chunk {
        Chunk::Plain(array) => asked_of(alloc, array, q),
        Chunk::Dict(dict) => asked_of_dict(alloc, dict, q),
        Chunk::Parts(parts) => asked_of_parts(alloc, parts, q),
    }
}

// What a test says of each row of a dictionary: of its values, or of its rows where these are fewer.
fn asked_of_dict<Q: Predicate>(
    alloc: Global,
    dict: &DictArray,
    q: &mut Q,
) -> Result<BoolArray, AllocError>
    ensures rows { IfOk result (λ a. bool_column a ≡ tested (Q.truth q.old) (dict_column dict.now)) }
    ensures truths { Q.truth q.new ≡ Q.truth q.old }
    ensures count { Q.asked q.new ≤ Q.asked q.old + min (length (column_of dict.now.values).rows) (length (dict_column dict.now).rows) }
{
    if dict.len() < dict.values().len() {
        asked_of_rows(alloc, dict, q)
    } else {
        dict.apply(alloc, q)
    }
}

// What a test says of each row of a dictionary, which is decoded.
fn asked_of_rows<Q: Predicate>(
    alloc: Global,
    dict: &DictArray,
    q: &mut Q,
) -> Result<BoolArray, AllocError>
    ensures rows { IfOk result (λ a. bool_column a ≡ tested (Q.truth q.old) (dict_column dict.now)) }
    ensures truths { Q.truth q.new ≡ Q.truth q.old }
    ensures count { Q.asked q.new ≤ Q.asked q.old + length (dict_column dict.now).rows }
{
    let rows = dict.canonicalize(alloc)?;
    let answers = asked_of(alloc, &rows, q)?;
    Ok(answers)
}

// What a test says of each row of decimals in parts.
fn asked_of_parts<Q: Predicate>(
    alloc: Global,
    parts: &DecimalByteParts,
    q: &mut Q,
) -> Result<BoolArray, AllocError>
    ensures rows { IfOk result (λ a. bool_column a ≡ tested (Q.truth q.old) (parts_column parts.now)) }
    ensures truths { Q.truth q.new ≡ Q.truth q.old }
    ensures count { Q.asked q.new ≤ Q.asked q.old + length (parts_column parts.now).rows }
{
    let rows = assembled(alloc, parts)?;
    let answers = asked_of(alloc, &rows, q)?;
    Ok(answers)
}

// What a test says of each row of an array.
fn asked_of<Q: Predicate>(alloc: Global, array: &Array, q: &mut Q) -> Result<BoolArray, AllocError>
    ensures rows { IfOk result (λ a. bool_column a ≡ tested (Q.truth q.old) (column_of array.now)) }
    ensures truths { Q.truth q.new ≡ Q.truth q.old }
    ensures count { Q.asked q.new ≤ Q.asked q.old + length (column_of array.now).rows }
{
    let bits = asked_bits(alloc, array, q)?;
    let validity = validity_of(alloc, array)?;
    Ok(BoolArray::new(bits, validity))
}

// The same, one bit for each row.
fn asked_bits<Q: Predicate>(
    alloc: Global,
    array: &Array,
    q: &mut Q,
) -> Result<BitBuffer, AllocError>
    ensures bits { IfOk result (λ bits. bits ≡ map (λ row. unwrap_or (option_map (Q.truth q.old) row) false) (column_of array.now).rows) }
    ensures long { IfOk result (λ bits. length bits ≡ length (column_of array.now).rows) }
    ensures truths { Q.truth q.new ≡ Q.truth q.old }
    ensures count { Q.asked q.new ≤ Q.asked q.old + length (column_of array.now).rows }
{
    let mut bits = BitBuffer::new_unset(alloc, 0)?;
    for i in 0..array.len() {
        bits.push(is_held(q, array.value_at(i)))?;
    }
    Ok(bits)
}

// What a test says of a row: that it does not hold, unasked, where the row is null.
fn is_held<Q: Predicate>(q: &mut Q, row: Option<ValueRef<'_>>) -> bool
    ensures answer { result ≡ unwrap_or (option_map (Q.truth q.old) (option_map value_seen row.entry)) false }
    ensures truths { Q.truth q.new ≡ Q.truth q.old }
    ensures count { Q.asked q.new ≤ Q.asked q.old + 1 }
{
    match row {
        Some(value) => q.test(value),
        None => false,
    }
}

// Which rows of an array are not null.
fn validity_of(alloc: Global, array: &Array) -> Result<Validity, AllocError>
    ensures kind { IfOk result (λ v. nullability_of v ≡ nullability (column_of array.now).dtype) }
    ensures long { IfOk result (λ v. IsTrue (is_as_long v (length (column_of array.now).rows))) }
    ensures present { IfOk result (λ v. valid_bits v (length (column_of array.now).rows) ≡ map is_some (column_of array.now).rows) }
{
    match array {
        Array::Bool(rows) => validity_in(alloc, rows),
        Array::Primitive(rows) => validity_in(alloc, rows),
        Array::Decimal(rows) => validity_in(alloc, rows),
        Array::VarBinView(rows) => validity_in(alloc, rows),
        Array::Constant(rows) => Ok(validity_of_equal(rows)),
    }
}

// Which rows of a plain array of one kind are not null.
fn validity_in<V: Values>(alloc: Global, rows: &PlainArray<V>) -> Result<Validity, AllocError>
    ensures kind { IfOk result (λ v. nullability_of v ≡ nullability (plain_column V.type_of V.items rows.now).dtype) }
    ensures long { IfOk result (λ v. IsTrue (is_as_long v (length (plain_column V.type_of V.items rows.now).rows))) }
    ensures present { IfOk result (λ v. valid_bits v (length (plain_column V.type_of V.items rows.now).rows) ≡ map is_some (plain_column V.type_of V.items rows.now).rows) }
{
    let validity = rows.validity().try_clone(alloc)?;
    Ok(validity)
}

// Which of equal rows are not null.
fn validity_of_equal(rows: &ConstantArray) -> Validity
    ensures kind { nullability_of result ≡ nullability (constant_column rows.now).dtype }
    ensures long { IsTrue (is_as_long result (length (constant_column rows.now).rows)) }
    ensures present { valid_bits result (length (constant_column rows.now).rows) ≡ map is_some (constant_column rows.now).rows }
{
    match rows.scalar().value_ref() {
        Some(_) => Validity::of_values(rows.dtype().nullability()),
        None => Validity::AllInvalid,
    }
}
