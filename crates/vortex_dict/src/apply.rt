// Tests of the values of a dictionary: each value is asked once, and its truth gathered by code.
ghost use Rattle.std.specs.Prelude.{◌≡◌, ◌≤◌, ◌+◌, IfOk, length, map, option_map, unwrap_or, false};
ghost use Rattle.vortex_array_types.specs.Seen.{value_seen};
ghost use Rattle.vortex_array_kinds.specs.Kinds.{constant_column, plain_column};
ghost use Rattle.vortex_array.specs.ColumnOf.{bool_column, column_of};
ghost use Rattle.vortex_dict.specs.Answered.{tested};
ghost use Rattle.vortex_dict.specs.Decoded.{dict_column};

use crate::dict::DictArray;
use crate::truths::truths_at;
use std::alloc::{AllocError, Global};
use vortex_array::{Array, BoolArray, ConstantArray, PlainArray, Predicate, ValueRef};
use vortex_array_compare::{equal_answers, null_answers};
use vortex_array_kinds::Values;
use vortex_buffer::BitBuffer;

impl DictArray {
    /// Row by row whether the test holds of the value, and null where the row is null. Each value is asked once at most,
    /// however many rows have it; a null value is not asked.
    pub fn apply<Q: Predicate>(&self, alloc: Global, q: &mut Q) -> Result<BoolArray, AllocError>
        ensures rows { IfOk result (λ a. bool_column a ≡ tested (Q.truth q.old) (dict_column self.now)) }
        ensures truths { Q.truth q.new ≡ Q.truth q.old }
        ensures count { Q.asked q.new ≤ Q.asked q.old + length (column_of self.now.values).rows }
    {
        let truths = value_truths(alloc, self.values(), q)?;
        let answers = truths_at(alloc, truths, self.codes())?;
        Ok(answers)
    }
}

// What a test says of each value.
fn value_truths<Q: Predicate>(
    alloc: Global,
    values: &Array,
    q: &mut Q,
) -> Result<BoolArray, AllocError>
    ensures rows { IfOk result (λ a. bool_column a ≡ tested (Q.truth q.old) (column_of values.now)) }
    ensures truths { Q.truth q.new ≡ Q.truth q.old }
    ensures count { Q.asked q.new ≤ Q.asked q.old + length (column_of values.now).rows }
{
    match values {
        Array::Bool(values) => plain_truths(alloc, values, q),
        Array::Primitive(values) => plain_truths(alloc, values, q),
        Array::Decimal(values) => plain_truths(alloc, values, q),
        Array::VarBinView(values) => plain_truths(alloc, values, q),
        Array::Constant(value) => equal_truths(alloc, value, q),
    }
}

// What a test says of each value of a plain array.
fn plain_truths<V: Values, Q: Predicate>(
    alloc: Global,
    values: &PlainArray<V>,
    q: &mut Q,
) -> Result<BoolArray, AllocError>
    ensures rows { IfOk result (λ a. bool_column a ≡ tested (Q.truth q.old) (plain_column V.type_of V.items values.now)) }
    ensures truths { Q.truth q.new ≡ Q.truth q.old }
    ensures count { Q.asked q.new ≤ Q.asked q.old + length (plain_column V.type_of V.items values.now).rows }
{
    let bits = plain_bits(alloc, values, q)?;
    let validity = values.validity().try_clone(alloc)?;
    Ok(BoolArray::new(bits, validity))
}

// What a test says of each value of a plain array, one bit for each.
fn plain_bits<V: Values, Q: Predicate>(
    alloc: Global,
    values: &PlainArray<V>,
    q: &mut Q,
) -> Result<BitBuffer, AllocError>
    ensures bits { IfOk result (λ bits. bits ≡ map (λ row. unwrap_or (option_map (Q.truth q.old) row) false) (plain_column V.type_of V.items values.now).rows) }
    ensures long { IfOk result (λ bits. length bits ≡ V.count_of values.now.values) }
    ensures truths { Q.truth q.new ≡ Q.truth q.old }
    ensures count { Q.asked q.new ≤ Q.asked q.old + length (plain_column V.type_of V.items values.now).rows }
{
    let mut bits = BitBuffer::new_unset(alloc, 0)?;
    for i in 0..values.len() {
        bits.push(is_held(q, values.value_at(i)))?;
    }
    Ok(bits)
}

// What a test says of a row: that it does not hold, unasked, where the row is null.
fn is_held<Q: Predicate>(q: &mut Q, row: Option<ValueRef<'_>>) -> bool
    ensures answer { result ≡ unwrap_or (option_map (Q.truth q.old) (option_map value_seen row.entry)) false }
    ensures truths { Q.truth q.new ≡ Q.truth q.old }
    ensures count { Q.asked q.new ≤ Q.asked q.old + 1 }
{
    match row {
        Some(value) => q.test(value),
        None => false,
    }
}

// What a test says of equal rows: it is asked once, where there is a row.
fn equal_truths<Q: Predicate>(
    alloc: Global,
    value: &ConstantArray,
    q: &mut Q,
) -> Result<BoolArray, AllocError>
    ensures rows { IfOk result (λ a. bool_column a ≡ tested (Q.truth q.old) (constant_column value.now)) }
    ensures truths { Q.truth q.new ≡ Q.truth q.old }
    ensures count { Q.asked q.new ≤ Q.asked q.old + length (constant_column value.now).rows }
{
    let nullability = value.dtype().nullability();
    let len = value.len();
    if len == 0 {
        return equal_answers(alloc, false, nullability, 0);
    }
    match value.scalar().value_ref() {
        Some(value) => equal_answers(alloc, q.test(value), nullability, len),
        None => null_answers(alloc, len),
    }
}
