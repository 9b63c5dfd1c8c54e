// Which rows of a dictionary are not null: those whose code is not, nor the value there.
ghost use Rattle.std.specs.Prelude.{◌≡◌, ◌<◌, ◌↔◌, ◌&&◌, All, IfOk, IsTrue, None, false, is_some, length, map, pos, slice_index_or, true};
ghost use Rattle.vortex_buffer.specs.Mask.{mask_bits};
ghost use Rattle.vortex_array_kinds.specs.Kinds.{constant_column, primitive_column};
ghost use Rattle.vortex_array_kinds.specs.Validities.{is_as_long, valid_at};
ghost use Rattle.vortex_array_select.specs.Selected.{is_index_type};
ghost use Rattle.vortex_array_select.specs.SelectedParts.{index_column};
ghost use Rattle.vortex_array.specs.ColumnOf.{column_of};
ghost use Rattle.vortex_array.specs.Index.{number_column};
ghost use Rattle.vortex_dict.specs.Decoded.{dict_column};
ghost use Rattle.vortex_dict.specs.Presence.{names_value};

use crate::codes::{each_code_width, number_of};
use crate::dict::DictArray;
use crate::presence::{equal_presence, presence};
use std::alloc::{AllocError, Global};
use vortex_array::{Array, ConstantArray, PrimitiveArray, PrimitiveBuffer, Scalar, Validity};
use vortex_array_rows::RowIndex;
use vortex_buffer::{Buffer, Mask};
use vortex_compute::{IndexedSource, collect_lane_bits};

impl DictArray {
    /// Whether the row at a place is not null.
    pub fn is_valid(&self, i: usize) -> bool
        requires { i < length (dict_column self.now).rows }
        ensures { result ≡ is_some (slice_index_or (dict_column self.now).rows i None) }
    {
        match self.values() {
            Array::Constant(value) => names_at(self.codes(), &equal_presence(value.scalar()), i),
            _ => names_at(self.codes(), presence(self.values()), i),
        }
    }

    /// Whether no row is null.
    pub fn all_valid(&self) -> bool
        ensures { IsTrue result ↔ All (λ present. present ≡ true) (map is_some (dict_column self.now).rows) }
    {
        self.rows_are(true)
    }

    /// Whether every row is null.
    pub fn all_invalid(&self) -> bool
        ensures { IsTrue result ↔ All (λ present. present ≡ false) (map is_some (dict_column self.now).rows) }
    {
        self.rows_are(false)
    }

    // Whether each row is present, or each is null.
    fn rows_are(&self, wanted: bool) -> bool
        ensures { IsTrue result ↔ All (λ present. present ≡ wanted) (map is_some (dict_column self.now).rows) }
    {
        match self.values() {
            Array::Constant(value) => {
                all_name(self.codes(), &equal_presence(value.scalar()), wanted)
            }
            _ => all_name(self.codes(), presence(self.values()), wanted),
        }
    }

    /// For each row whether it is not null.
    pub fn validity_mask(&self, alloc: Global) -> Result<Mask, AllocError>
        ensures { IfOk result (λ mask. mask_bits mask ≡ map is_some (dict_column self.now).rows) }
    {
        match self.values() {
            Array::Constant(value) => {
                naming_mask(alloc, self.codes(), &equal_presence(value.scalar()))
            }
            _ => naming_mask(alloc, self.codes(), presence(self.values())),
        }
    }
}

// Codes of one width, as lanes: whether each is not null, nor the value there.
#[derive(Drop)]
struct Naming<'a, P: RowIndex> {
    places: &'a [P],
    nulls: &'a Validity,
    present: &'a Validity,
    ghost long: { IsTrue (is_as_long nulls.now (length places.now)) },
}

impl<P: RowIndex> IndexedSource for Naming<'_, P> {
    type Item = bool;

    ghost lanes = { λ s. map (names_value s.present.now) (index_column s.nulls.now (map P.place s.places.now)).rows };

    #[inline(always)]
    fn len(&self) -> usize {
        self.places.len()
    }

    #[inline(always)]
    fn get(&self, i: usize) -> bool {
        is_present(self.present, self.places[i].place(), self.nulls.is_valid(i))
    }
}

// Whether a code is valid and the value at its place is present.
#[inline(always)]
fn is_present(present: &Validity, place: usize, valid: bool) -> bool
    ensures { result ≡ (valid && valid_at present.now place) }
{
    valid && present.is_valid(place)
}

// Whether every lane is this one.
fn lanes_are<S: IndexedSource<Item = bool>>(lanes: &S, wanted: bool) -> bool
    ensures { IsTrue result ↔ All (λ lane. lane ≡ wanted) (S.lanes lanes.now) }
{
    for i in 0..lanes.len() {
        if lanes.get(i) != wanted {
            return false;
        }
    }
    true
}

// Whether the code in a row is not null, nor the value there.
fn names_at(codes: &Array, present: &Validity, i: usize) -> bool
    requires kind { IsTrue (is_index_type (column_of codes.now).dtype) }
    requires inside { i < length (column_of codes.now).rows }
    ensures { result ≡ names_value present.now (slice_index_or (column_of codes.now).rows i None) }
{
    match codes {
        Array::Primitive(codes) => number_names_at(codes, present, i),
        Array::Constant(code) => equal_code_names(code.scalar(), present),
        Array::Bool(_) => unreachable!(),
        Array::Decimal(_) => unreachable!(),
        Array::VarBinView(_) => unreachable!(),
    }
}

// The same of whole numbers.
fn number_names_at(codes: &PrimitiveArray, present: &Validity, i: usize) -> bool
    requires kind { IsTrue (is_index_type (primitive_column codes.now).dtype) }
    requires inside { i < length (primitive_column codes.now).rows }
    ensures { result ≡ names_value present.now (slice_index_or (primitive_column codes.now).rows i None) }
{
    let nulls = codes.validity();
    each_code_width!(codes.values(), places => place_names_at(places, nulls, present, i))
}

// The same of numbers of one width.
fn place_names_at<P: RowIndex>(
    places: &Buffer<P>,
    nulls: &Validity,
    present: &Validity,
    i: usize,
) -> bool
    requires long { IsTrue (is_as_long nulls.now (length (map (λ p. pos (P.place p)) places.now))) }
    requires inside { i < length (number_column nulls.now (map (λ p. pos (P.place p)) places.now)).rows }
    ensures { result ≡ names_value present.now (slice_index_or (number_column nulls.now (map (λ p. pos (P.place p)) places.now)).rows i None) }
{
    let lanes = Naming {
        places: places.as_slice(),
        nulls,
        present,
    };
    lanes.get(i)
}

// Whether the code of equal rows is not null, nor the value there.
fn equal_code_names(code: &Scalar, present: &Validity) -> bool
    requires { IsTrue (is_index_type code.now.dtype) }
    ensures { result ≡ names_value present.now code.now.value }
{
    match code.value_ref() {
        Some(value) => present.is_valid(number_of(code.dtype(), value) as usize),
        None => false,
    }
}

// Whether every code names a value that is present, or none does.
fn all_name(codes: &Array, present: &Validity, wanted: bool) -> bool
    requires { IsTrue (is_index_type (column_of codes.now).dtype) }
    ensures { IsTrue result ↔ All (λ lane. lane ≡ wanted) (map (names_value present.now) (column_of codes.now).rows) }
{
    match codes {
        Array::Primitive(codes) => all_numbers_name(codes, present, wanted),
        Array::Constant(code) => all_equal_name(code, present, wanted),
        Array::Bool(_) => unreachable!(),
        Array::Decimal(_) => unreachable!(),
        Array::VarBinView(_) => unreachable!(),
    }
}

// The same of whole numbers.
fn all_numbers_name(codes: &PrimitiveArray, present: &Validity, wanted: bool) -> bool
    requires { IsTrue (is_index_type (primitive_column codes.now).dtype) }
    ensures { IsTrue result ↔ All (λ lane. lane ≡ wanted) (map (names_value present.now) (primitive_column codes.now).rows) }
{
    let nulls = codes.validity();
    each_code_width!(codes.values(), places => all_places_name(places, nulls, present, wanted))
}

// The same of numbers of one width.
fn all_places_name<P: RowIndex>(
    places: &Buffer<P>,
    nulls: &Validity,
    present: &Validity,
    wanted: bool,
) -> bool
    requires { IsTrue (is_as_long nulls.now (length (map (λ p. pos (P.place p)) places.now))) }
    ensures { IsTrue result ↔ All (λ lane. lane ≡ wanted) (map (names_value present.now) (number_column nulls.now (map (λ p. pos (P.place p)) places.now)).rows) }
{
    let lanes = Naming {
        places: places.as_slice(),
        nulls,
        present,
    };
    lanes_are(&lanes, wanted)
}

// The same of equal rows.
fn all_equal_name(code: &ConstantArray, present: &Validity, wanted: bool) -> bool
    requires { IsTrue (is_index_type (constant_column code.now).dtype) }
    ensures { IsTrue result ↔ All (λ lane. lane ≡ wanted) (map (names_value present.now) (constant_column code.now).rows) }
{
    if code.len() == 0 {
        return true;
    }
    equal_code_names(code.scalar(), present) == wanted
}

// For each code whether it is not null, nor the value there.
fn naming_mask(alloc: Global, codes: &Array, present: &Validity) -> Result<Mask, AllocError>
    requires { IsTrue (is_index_type (column_of codes.now).dtype) }
    ensures { IfOk result (λ mask. mask_bits mask ≡ map (names_value present.now) (column_of codes.now).rows) }
{
    match codes {
        Array::Primitive(codes) => naming_numbers(alloc, codes, present),
        Array::Constant(code) => Ok(naming_equal(code, present)),
        Array::Bool(_) => unreachable!(),
        Array::Decimal(_) => unreachable!(),
        Array::VarBinView(_) => unreachable!(),
    }
}

// The same of whole numbers.
fn naming_numbers(
    alloc: Global,
    codes: &PrimitiveArray,
    present: &Validity,
) -> Result<Mask, AllocError>
    requires { IsTrue (is_index_type (primitive_column codes.now).dtype) }
    ensures { IfOk result (λ mask. mask_bits mask ≡ map (names_value present.now) (primitive_column codes.now).rows) }
{
    let nulls = codes.validity();
    each_code_width!(codes.values(), places => naming_places(alloc, places, nulls, present))
}

// The same of numbers of one width.
fn naming_places<P: RowIndex>(
    alloc: Global,
    places: &Buffer<P>,
    nulls: &Validity,
    present: &Validity,
) -> Result<Mask, AllocError>
    requires { IsTrue (is_as_long nulls.now (length (map (λ p. pos (P.place p)) places.now))) }
    ensures { IfOk result (λ mask. mask_bits mask ≡ map (names_value present.now) (number_column nulls.now (map (λ p. pos (P.place p)) places.now)).rows) }
{
    let lanes = Naming {
        places: places.as_slice(),
        nulls,
        present,
    };
    let bits = collect_lane_bits(alloc, &lanes, |lane: bool| lane)?;
    Ok(Mask::from_buffer(bits))
}

// The same of equal rows.
fn naming_equal(code: &ConstantArray, present: &Validity) -> Mask
    requires { IsTrue (is_index_type (constant_column code.now).dtype) }
    ensures { mask_bits result ≡ map (names_value present.now) (constant_column code.now).rows }
{
    if equal_code_names(code.scalar(), present) {
        Mask::new_true(code.len())
    } else {
        Mask::new_false(code.len())
    }
}
