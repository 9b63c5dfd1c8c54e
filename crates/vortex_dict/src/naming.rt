// Which values of a dictionary a code names. Codes are read in their own width, in one pass.
ghost use Rattle.std.specs.Prelude.{◌≡◌, ◌<◌, IfOk, IsTrue, false, if◌then◌else◌, length, map, pos, replicate, slice_index_or, slice_set, true};
ghost use Rattle.vortex_buffer.specs.Mask.{mask_bits};
ghost use Rattle.vortex_array_kinds.specs.Kinds.{constant_column, primitive_column};
ghost use Rattle.vortex_array_kinds.specs.Validities.{has_none, is_as_long};
ghost use Rattle.vortex_array_kinds.specs.declared.validity.Validity.TheVariants as validities;
ghost use Rattle.vortex_array_select.specs.Selected.{NamesRows};
ghost use Rattle.vortex_array_select.specs.SelectedParts.{PlacesBelow};
ghost use Rattle.vortex_array.specs.ColumnOf.{column_of};
ghost use Rattle.vortex_array.specs.Index.{number_column};
ghost use Rattle.vortex_dict.specs.NamedValues.{AreNamed, MarkNamed};

use crate::codes::{each_code_width, number_of};
use std::alloc::{AllocError, Global};
use vortex_array::{Array, ConstantArray, PrimitiveArray, PrimitiveBuffer, Validity};
use vortex_array_rows::RowIndex;
use vortex_buffer::{BitBuffer, Buffer, Mask};
use vortex_compute::collect_bits;

// For each of so many values whether a code names it.
pub(crate) fn named_values(alloc: Global, codes: &Array, count: usize) -> Result<Mask, AllocError>
    requires { NamesRows (column_of codes.now) count }
    ensures { IfOk result (λ mask. AreNamed (column_of codes.now).rows count (mask_bits mask)) }
{
    match codes {
        Array::Primitive(codes) => named_by_numbers(alloc, codes, count),
        Array::Constant(code) => named_by_equal(alloc, code, count),
        Array::Bool(_) => unreachable!(),
        Array::Decimal(_) => unreachable!(),
        Array::VarBinView(_) => unreachable!(),
    }
}

// The same of whole numbers.
fn named_by_numbers(alloc: Global, codes: &PrimitiveArray, count: usize) -> Result<Mask, AllocError>
    requires { NamesRows (primitive_column codes.now) count }
    ensures { IfOk result (λ mask. AreNamed (primitive_column codes.now).rows count (mask_bits mask)) }
{
    let nulls = codes.validity();
    each_code_width!(codes.values(), places => named_by_places(alloc, places, nulls, count))
}

// The same of numbers of one width.
fn named_by_places<P: RowIndex>(
    alloc: Global,
    places: &Buffer<P>,
    nulls: &Validity,
    count: usize,
) -> Result<Mask, AllocError>
    requires long { IsTrue (is_as_long nulls.now (length (map (λ p. pos (P.place p)) places.now))) }
    requires below { NamesRows (number_column nulls.now (map (λ p. pos (P.place p)) places.now)) count }
    ensures { IfOk result (λ mask. AreNamed (number_column nulls.now (map (λ p. pos (P.place p)) places.now)).rows count (mask_bits mask)) }
{
    let mut marks = vec![in alloc; false; count]?;
    mask_named(alloc, places.as_slice(), nulls, &mut marks)
}

// Marks each place that is not null, where none is marked yet, as a mask.
fn mask_named<P: RowIndex>(
    alloc: Global,
    places: &[P],
    nulls: &Validity,
    marks: &mut [bool],
) -> Result<Mask, AllocError>
    requires unmarked { marks.old ≡ replicate (length marks.old) false }
    requires below { PlacesBelow (length marks.old) nulls.now (map P.place places.now) }
    ensures { IfOk result (λ mask. (length (mask_bits mask) ≡ length marks.old) × MarkNamed nulls.now (map P.place places.now) (mask_bits mask)) }
{
    mark_places(places, nulls, marks);
    mask_of(alloc, marks)
}

// Marks each place that is not null. The kind of validity is asked once.
fn mark_places<P: RowIndex>(places: &[P], nulls: &Validity, marks: &mut [bool])
    requires unmarked { marks.old ≡ replicate (length marks.old) false }
    requires below { PlacesBelow (length marks.old) nulls.now (map P.place places.now) }
    ensures { MarkNamed nulls.now (map P.place places.now) marks.new }
{
    match nulls {
        Validity::NonNullable | Validity::AllValid => mark_all(places, nulls, marks),
        Validity::AllInvalid => {}
        Validity::Bits(bits) => mark_set(places, nulls, bits, marks),
    }
}

// Marks each place where none is null.
fn mark_all<P: RowIndex>(places: &[P], nulls: &Validity, marks: &mut [bool])
    requires unmarked { marks.old ≡ replicate (length marks.old) false }
    requires below { PlacesBelow (length marks.old) nulls.now (map P.place places.now) }
    requires full { has_none nulls.now ≡ true }
    ensures { MarkNamed nulls.now (map P.place places.now) marks.new }
{
    let _ = nulls;
    for row in 0..places.len() {
        marks[places[row].place()] = true;
    }
}

// Marks each place whose bit is set.
fn mark_set<P: RowIndex>(places: &[P], nulls: &Validity, bits: &BitBuffer, marks: &mut [bool])
    requires unmarked { marks.old ≡ replicate (length marks.old) false }
    requires below { PlacesBelow (length marks.old) nulls.now (map P.place places.now) }
    requires bits { nulls.now ≡ validities.Bits bits.now }
    ensures { MarkNamed nulls.now (map P.place places.now) marks.new }
{
    let _ = nulls;
    for row in 0..places.len() {
        mark_place(marks, places[row], is_set(bits, row));
    }
}

// Whether a bit is set: none is past the end.
#[inline(always)]
fn is_set(bits: &BitBuffer, row: usize) -> bool
    ensures { result ≡ slice_index_or bits.now row false }
{
    row < bits.len() && bits.value(row)
}

// Marks a place that is not null.
#[inline(always)]
fn mark_place<P: RowIndex>(marks: &mut [bool], place: P, valid: bool)
    requires { IsTrue valid → P.place place < length marks.old }
    ensures { marks.new ≡ (if valid then slice_set marks.old (P.place place) true else marks.old) }
{
    if !valid {
        return;
    }
    marks[place.place()] = true;
}

// The same of equal rows.
fn named_by_equal(alloc: Global, code: &ConstantArray, count: usize) -> Result<Mask, AllocError>
    requires { NamesRows (constant_column code.now) count }
    ensures { IfOk result (λ mask. AreNamed (constant_column code.now).rows count (mask_bits mask)) }
{
    if code.len() == 0 {
        return Ok(Mask::new_false(count));
    }
    match code.scalar().value_ref() {
        Some(value) => one_place(alloc, number_of(code.dtype(), value) as usize, count),
        None => Ok(Mask::new_false(count)),
    }
}

// One place of so many.
fn one_place(alloc: Global, place: usize, count: usize) -> Result<Mask, AllocError>
    requires { place < count }
    ensures { IfOk result (λ mask. mask_bits mask ≡ slice_set (replicate count false) place true) }
{
    let mut marks = vec![in alloc; false; count]?;
    marks[place] = true;
    mask_of(alloc, &marks)
}

// Marks as a mask.
fn mask_of(alloc: Global, marks: &[bool]) -> Result<Mask, AllocError>
    ensures { IfOk result (λ mask. mask_bits mask ≡ marks.now) }
{
    let bits = collect_bits(alloc, marks, |mark: bool| mark)?;
    Ok(Mask::from_buffer(bits))
}
