// Entries that are whole numbers, found by a hashed map from each to its place.
ghost use Rattle.std.specs.Prelude.{◌≡◌, ◌<◌, ◌++◌, ◌∷◌, [], IfNone, IfOk, IfSome, IsTrue, OnErr, OnOk, Some, cond, false, length, pos, slice_index_or, true};
ghost use Rattle.std.specs.HashMap.{get, spare};
ghost use Rattle.vortex_array_types.specs.declared.types.DType.TheVariants as dtypes;
ghost use Rattle.vortex_array_types.specs.declared.types.Nullability.TheVariants.{Nullable};
ghost use Rattle.vortex_array_kinds.specs.Validities.{is_as_long, nullability_of};
ghost use Rattle.vortex_array_kinds.specs.Pushed.{Grows, with_row};
ghost use Rattle.vortex_array_kinds.specs.Kinds.{len_of, numbers_of, ptype_of};
ghost use Rattle.vortex_array.specs.ColumnOf.{column_of};
ghost use Rattle.vortex_dict_builders.specs.Indexed.{AllPresent, IsItem, IsNullAt, NoItem};
ghost use Rattle.vortex_dict_builders.specs.KeptColumns.{number_entries};

use crate::builder::DictBuilder;
use crate::constraints::DictConstraints;
use crate::entries::Entries;
use crate::validities::{number_of_place, of_no_row, push_entry};
use std::alloc::{AllocError, Global};
use std::collections::HashMap;
use std::marker::Model;
use vortex_array::{
    Array, CodeType, DType, NativeValue, Nullability, PlainArray, PrimitiveArray, PrimitiveBuffer,
    Validity,
};
use vortex_array_kinds::PrimitiveWidth;
use vortex_buffer::Buffer;

/// Whole numbers of one width as entries. Contracts see the numbers and which entries are not null.
pub struct PrimitiveEntries<T: PrimitiveWidth> {
    items: Vec<T>,
    validity: Validity,
    null_place: Option<usize>,
    // By item, the place of its entry. Places take 32 bits, so that more of the map lies in caches.
    places: HashMap<T, u32>,
}

impl<T: PrimitiveWidth> Drop for PrimitiveEntries<T> {
    fn drop(self) {
        let PrimitiveEntries {
            items: _items,
            validity: _validity,
            null_place: _null_place,
            places: _places,
        } = self;
    }
}

impl<T: PrimitiveWidth> Model for PrimitiveEntries<T> {
    ghost use Rattle.std.specs.Prelude.{List};
    ghost use Rattle.std.specs.HashMap.{get};
    ghost use Rattle.vortex_array_kinds.specs.Parts.{PlainParts};
    ghost use Rattle.vortex_dict_builders.specs.Indexed.{FindsItems, HasNull};

    ghost Value = { PlainParts (List T) };

    ghost view = { λ e. record { values = e.items.items; validity = e.validity } };

    ghost invariant = { λ e. HasNull e.items.items e.validity e.null_place × FindsItems T.eq e.items.items e.validity (get T.eq e.places) };
}

impl<T: PrimitiveWidth> PrimitiveEntries<T> {
    // No entry yet.
    pub(crate) fn none_yet(alloc: Global, nullability: Nullability) -> Self
        ensures { number_entries T.width T.number result ≡ record { dtype = dtypes.Primitive T.width nullability; rows = [] } }
    {
        PrimitiveEntries {
            items: Vec::new(alloc),
            validity: of_no_row(alloc, nullability),
            null_place: None,
            places: HashMap::new(alloc),
        }
    }

    // How many entries there are: as many as the validity tells of.
    #[inline(always)]
    fn count(&self) -> usize
        ensures count { result ≡ length self.now.values }
        ensures grows { Grows self.now.validity (length self.now.values) }
    {
        self.items.len()
    }

    // The place of an item, or none where it is no entry.
    #[inline(always)]
    fn place_of_item(&self, item: T) -> Option<usize>
        ensures none { IfNone result (NoItem T.eq self.now.values self.now.validity item) }
        ensures some { IfSome result (IsItem T.eq self.now.values self.now.validity item) }
    {
        match self.places.get(&item) {
            Some(place) => Some(*place as usize),
            None => None,
        }
    }

    // The place of the null entry, or none where null is no entry.
    #[inline(always)]
    fn place_of_null(&self) -> Option<usize>
        ensures none { IfNone result (AllPresent self.now.values self.now.validity) }
        ensures some { IfSome result (IsNullAt self.now.values self.now.validity) }
    {
        self.null_place
    }

    // Puts an item that is no entry behind the others.
    fn push_item(&mut self, item: T) -> Result<(), AllocError>
        requires { NoItem T.eq self.old.values self.old.validity item }
        ensures ok { OnOk result (self.new ≡ record { values = self.old.values ++ item ∷ []; validity = with_row true self.old.validity }) }
        ensures err { OnErr result (self.new ≡ self.old) }
    {
        let place = place_with_room(&mut self.places, self.items.len())?;
        push_entry(&mut self.items, &mut self.validity, item, true)?;
        put_place(&mut self.places, item, place);
        Ok(())
    }

    // Puts null behind the others, which are values. Any item stands for it.
    fn push_null(&mut self, item: T) -> Result<(), AllocError>
        requires nullable { nullability_of self.old.validity ≡ Nullable }
        requires absent { AllPresent self.old.values self.old.validity }
        ensures ok { OnOk result (self.new ≡ record { values = self.old.values ++ item ∷ []; validity = with_row false self.old.validity }) }
        ensures err { OnErr result (self.new ≡ self.old) }
    {
        let place = self.items.len();
        push_entry(&mut self.items, &mut self.validity, item, false)?;
        self.null_place = Some(place);
        Ok(())
    }
}

// A place as a number, and room for it in a map, which finds what it found.
fn place_with_room<T: PrimitiveWidth>(
    places: &mut HashMap<T, u32>,
    place: usize,
) -> Result<u32, AllocError>
    ensures number { IfOk result (λ number. number ≡ place) }
    ensures room { OnOk result (0 < spare places.new) }
    ensures same { (x : T) → get T.eq places.new x ≡ get T.eq places.old x }
{
    let number = number_of_place(place)?;
    places.reserve(1)?;
    Ok(number)
}

// A place of an item, for which there is room.
#[inline(always)]
fn put_place<T: PrimitiveWidth>(places: &mut HashMap<T, u32>, item: T, place: u32)
    requires { 0 < spare places.old }
    ensures { (x : T) → get T.eq places.new x ≡ cond (T.eq item x) (Some place) (get T.eq places.old x) }
{
    let _ = places.insert(item, place);
}

// The item at a place of numbers of this width.
#[inline(always)]
fn item_at<T: PrimitiveWidth>(rows: &PrimitiveArray, i: usize) -> T
    requires width { ptype_of rows.now.values ≡ T.width }
    requires inside { i < len_of rows.now.values }
    ensures { T.number result ≡ slice_index_or (numbers_of rows.now.values) i (pos 0) }
{
    T::items(rows.values()).get(i)
}

impl<T: PrimitiveWidth> Entries for PrimitiveEntries<T> {
    type Stored = PrimitiveBuffer;

    ghost kept = { number_entries T.width T.number };

    fn dtype(&self) -> DType {
        DType::Primitive(T::ptype(), self.validity.nullability())
    }

    fn len(&self) -> usize {
        self.items.len()
    }

    fn of_array<'a>(&self, array: &'a Array) -> &'a PlainArray<PrimitiveBuffer> {
        match array {
            Array::Primitive(rows) => rows,
            _ => unreachable!(),
        }
    }

    #[inline(always)]
    fn place_of(&self, rows: &PlainArray<PrimitiveBuffer>, i: usize) -> Option<usize> {
        let _ = self.count();
        if rows.validity().is_valid(i) {
            self.place_of_item(item_at(rows, i))
        } else {
            self.place_of_null()
        }
    }

    fn bytes_of(&self, rows: &PlainArray<PrimitiveBuffer>, i: usize) -> usize {
        let _ = rows;
        let _ = i;
        T::ptype().byte_width()
    }

    fn push(&mut self, rows: &PlainArray<PrimitiveBuffer>, i: usize) -> Result<(), AllocError> {
        let _ = self.count();
        if rows.validity().is_valid(i) {
            self.push_item(item_at(rows, i))
        } else {
            self.push_null(item_at(rows, i))
        }
    }

    fn to_array(&self, alloc: Global) -> Result<Array, AllocError> {
        copied_array(alloc, &self.items, &self.validity)
    }
}

// A copy of numbers under a validity as an array.
fn copied_array<T: PrimitiveWidth>(
    alloc: Global,
    items: &[T],
    validity: &Validity,
) -> Result<Array, AllocError>
    requires { IsTrue (is_as_long validity.now (length items.now)) }
    ensures { IfOk result (λ a. column_of a ≡ number_entries T.width T.number (record { values = items.now; validity = validity.now })) }
{
    let items = Buffer::from_slice(alloc, items)?;
    let validity = validity.try_clone(alloc)?;
    Ok(number_array(items, validity))
}

// Numbers under a validity as an array.
fn number_array<T: PrimitiveWidth>(items: Buffer<T>, validity: Validity) -> Array
    requires { IsTrue (is_as_long validity (length items)) }
    ensures { column_of result ≡ number_entries T.width T.number (record { values = items; validity = validity }) }
{
    Array::Primitive(PrimitiveArray::new(T::into_buffer(items), validity))
}

/// A builder of dictionaries of whole numbers, with codes of one width.
pub type PrimitiveDictBuilder<T, Code> = DictBuilder<PrimitiveEntries<T>, Code>;

impl<T: PrimitiveWidth, Code: CodeType> DictBuilder<PrimitiveEntries<T>, Code> {
    /// A builder that has no entry yet, for rows of this width, with nulls or without.
    pub fn new(alloc: Global, nullability: Nullability, constraints: &DictConstraints) -> Self
        ensures { result ≡ record { dtype = dtypes.Primitive T.width nullability; entries = []; limits = constraints.now; width = Code.width } }
    {
        DictBuilder::over(
            alloc,
            PrimitiveEntries::none_yet(alloc, nullability),
            *constraints,
        )
    }
}
