// Columns whose null rows get a value, whatever their kind.
ghost use Rattle.std.specs.Prelude.{◌≡◌, ◌≤◌, ◌+◌, ◌++◌, IsTrue, IfOk, OnOk, Some, cond, length, replicate, take};
ghost use Rattle.vortex_array_types.specs.Row.{value_fits};
ghost use Rattle.vortex_array_types.specs.Seen.{value_seen};
ghost use Rattle.vortex_array_types.specs.Typed.{same_apart_from_nullability};
ghost use Rattle.vortex_array_types.specs.declared.types.Nullability.{Nullability};
ghost use Rattle.vortex_array_types.specs.declared.types.Nullability.TheVariants.{NonNullable};
ghost use Rattle.vortex_array_kinds.specs.Validities.{is_as_long, valid_bits};
ghost use Rattle.vortex_array_cast.specs.Filled.{filled, filled_in, filled_items};

use std::alloc::{AllocError, Global};
use vortex_array_kinds::{Kind, PlainArray, Validity, Values};
use vortex_array_types::{DType, ValueRef};
use vortex_buffer::{BitBuffer, Buffer};

/// Values that are filled where they are not valid.
pub trait FillValues: Values {
    /// The values, and the fill, which is of their type, at the places that are not valid.
    fn fill_values(
        &self,
        alloc: Global,
        validity: &Validity,
        fill: ValueRef<'_>,
    ) -> Result<Self, AllocError>
        requires long { IsTrue (is_as_long validity.now (Self.count_of self.now)) }
        requires fits { IsTrue (value_fits (Self.type_of self.now NonNullable) (value_seen fill)) }
        ensures same_type { IfOk result (λ made. (n : Nullability) → Self.type_of made n ≡ Self.type_of self.now n) }
        ensures ok { IfOk result (λ made. Self.items made ≡ filled_items (value_seen fill.entry) (Self.items self.now) (valid_bits validity.now (Self.count_of self.now))) };
}

/// A kind of columns whose null rows are filled.
pub trait Fill: Kind {
    /// The same rows, and the value, which fits the type, in each row that is null, of this type, which differs from the
    /// column's by its nulls alone.
    fn fill_null(
        &self,
        alloc: Global,
        dtype: DType,
        value: ValueRef<'_>,
    ) -> Result<Self, AllocError>
        requires same_type { IsTrue (same_apart_from_nullability (Self.column self.now).dtype dtype) }
        requires fits { IsTrue (value_fits dtype (value_seen value)) }
        ensures { IfOk result (λ a. Self.column a ≡ filled (record { dtype = dtype; value = Some (value_seen value.entry) }) (Self.column self.now)) };
}

impl<V: FillValues> Fill for PlainArray<V> {
    fn fill_null(
        &self,
        alloc: Global,
        dtype: DType,
        value: ValueRef<'_>,
    ) -> Result<PlainArray<V>, AllocError> {
        let filled = filled_values(alloc, self.stored(), self.validity(), value)?;
        Ok(PlainArray::new(filled, Validity::of_values(dtype.nullability())))
    }
}

// The values, and the fill at the places that are not valid: a copy where no place is null.
fn filled_values<V: FillValues>(
    alloc: Global,
    values: &V,
    validity: &Validity,
    fill: ValueRef<'_>,
) -> Result<V, AllocError>
    requires long { IsTrue (is_as_long validity.now (V.count_of values.now)) }
    requires fits { IsTrue (value_fits (V.type_of values.now NonNullable) (value_seen fill)) }
    ensures same_type { IfOk result (λ made. (n : Nullability) → V.type_of made n ≡ V.type_of values.now n) }
    ensures ok { IfOk result (λ made. V.items made ≡ filled_items (value_seen fill.entry) (V.items values.now) (valid_bits validity.now (V.count_of values.now))) }
{
    if validity.has_none() {
        values.copy(alloc)
    } else {
        values.fill_values(alloc, validity, fill)
    }
}

// The items, and the fill at the places that are not valid. The kind of validity is asked once.
pub(crate) fn fill_items<T: Copy>(
    alloc: Global,
    items: &[T],
    validity: &Validity,
    fill: T,
) -> Result<Buffer<T>, AllocError>
    requires long { IsTrue (is_as_long validity.now (length items.now)) }
    ensures { IfOk result (λ b. b ≡ filled_items fill items.now (valid_bits validity.now (length items.now))) }
{
    match validity {
        Validity::NonNullable | Validity::AllValid => {
            let same = Buffer::from_slice(alloc, items)?;
            Ok(same)
        }
        Validity::AllInvalid => equal_items(alloc, fill, items.len()),
        Validity::Bits(bits) => fill_by_words(alloc, items, bits, fill),
    }
}

// So many equal items.
#[tactic(auto, using(std::proofs::lemmas::List::replicate_more))]
fn equal_items<T: Copy>(alloc: Global, item: T, count: usize) -> Result<Buffer<T>, AllocError>
    ensures { IfOk result (λ b. b ≡ replicate count item) }
{
    let mut made = Vec::with_capacity(alloc, count)?;
    for _ in 0..count {
        made.push(item)?;
    }
    Ok(Buffer::from_vec(made))
}

// The items, and the fill where the bit is not set, by groups of 64.
fn fill_by_words<T: Copy>(
    alloc: Global,
    items: &[T],
    bits: &BitBuffer,
    fill: T,
) -> Result<Buffer<T>, AllocError>
    requires same_length { length bits.now ≡ length items.now }
    ensures { IfOk result (λ b. b ≡ filled_items fill items.now bits.now) }
{
    let mut room = Vec::from_elem(alloc, fill, 64)?;
    fill_over(alloc, items, bits, fill, &mut room)
}

// The items, and the fill where the bit is not set, by groups of 64 that are written in the room.
fn fill_over<T: Copy>(
    alloc: Global,
    items: &[T],
    bits: &BitBuffer,
    fill: T,
    room: &mut [T],
) -> Result<Buffer<T>, AllocError>
    requires same_length { length bits.now ≡ length items.now }
    requires room { length room.old ≡ 64 }
    ensures { IfOk result (λ b. b ≡ filled_items fill items.now bits.now) }
{
    let mut made = Vec::with_capacity(alloc, items.len())?;
    for k in 0..items.len().div_ceil(64) {
        let start = 64 * k;
        let end = start + (items.len() - start).min(64);
        push_group(&mut made, &items[start..end], bits.word(k), fill, room)?;
    }
    Ok(Buffer::from_vec(made))
}

// Pushes the items of a group of at most 64, and the fill where the bit of the word is not set.
#[inline(always)]
fn push_group<T: Copy>(
    made: &mut Vec<T>,
    group: &[T],
    word: u64,
    fill: T,
    room: &mut [T],
) -> Result<(), AllocError>
    requires small { length group.now ≤ 64 }
    requires room { length room.old ≡ 64 }
    ensures { OnOk result (made.new.items ≡ made.old.items ++ filled_in fill word group.now) }
{
    write_group(room, group, word, fill);
    made.extend_from_slice(&room[..group.len()])?;
    Ok(())
}

// Writes the items of a group to the front of the room, and the fill where the bit is not set.
#[inline(always)]
fn write_group<T: Copy>(room: &mut [T], group: &[T], word: u64, fill: T)
    requires small { length group.now ≤ 64 }
    requires room { length room.old ≡ 64 }
    ensures { take (length group.now) room.new ≡ filled_in fill word group.now }
{
    if group.len() == 64 {
        write_whole(room, group, word, fill);
    } else {
        write_some(room, group, word, fill);
    }
}

// The same of a group of 64, by eights: a loop of eight is unrolled.
#[inline(always)]
fn write_whole<T: Copy>(room: &mut [T], group: &[T], word: u64, fill: T)
    requires whole { length group.now ≡ 64 }
    requires room { length room.old ≡ 64 }
    ensures { take (length group.now) room.new ≡ filled_in fill word group.now }
{
    for k in 0..8 {
        write_eight(room, group, word, 8 * k, fill);
    }
}

// The eight from a place on, behind those that are written.
#[inline(always)]
fn write_eight<T: Copy>(room: &mut [T], group: &[T], word: u64, at: usize, fill: T)
    requires inside { at + 8 ≤ length group.now }
    requires whole { length group.now ≡ 64 }
    requires room { length room.old ≡ 64 }
    requires written { take at room.old ≡ take at (filled_in fill word group.now) }
    ensures { take (at + 8) room.new ≡ take (at + 8) (filled_in fill word group.now) }
{
    let bits = word >> at;
    for i in 0..8 {
        room[at + i] = item_or(group[at + i], (bits >> i) & 1 == 1, fill);
    }
}

// The same of a group of any length.
#[inline(always)]
fn write_some<T: Copy>(room: &mut [T], group: &[T], word: u64, fill: T)
    requires small { length group.now ≤ 64 }
    requires room { length room.old ≡ 64 }
    ensures { take (length group.now) room.new ≡ filled_in fill word group.now }
{
    for i in 0..group.len() {
        room[i] = item_or(group[i], (word >> i) & 1 == 1, fill);
    }
}

// The item where it is valid, else the fill.
#[inline(always)]
fn item_or<T: Copy>(item: T, valid: bool, fill: T) -> T
    ensures { result ≡ cond valid item fill }
{
    if valid { item } else { fill }
}
