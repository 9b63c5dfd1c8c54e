// Entries that are texts or lists of bytes, each kept once: a hashed map goes from the hash of a list to the newest entry that
// has it, and from each entry a chain leads to the older ones of its hash. So the map has no list of its own.
ghost use Rattle.std.specs.Prelude.{◌≡◌, ℕ, ◌<◌, ◌++◌, ◌∷◌, [], IfNone, IfOk, IfSome, IsTrue, OnErr, OnOk, Some, cond, false, length, nat_eq, slice_index_or, true, vec_capacity};
ghost use Rattle.std.specs.HashMap.{get, spare};
ghost use Rattle.vortex_array_types.specs.declared.types.Nullability.TheVariants.{Nullable};
ghost use Rattle.vortex_array_kinds.specs.Kinds.{string_column, string_type};
ghost use Rattle.vortex_array_kinds.specs.Pushed.{Grows, with_row};
ghost use Rattle.vortex_array_kinds.specs.StringValues.{IsString, is_string_type};
ghost use Rattle.vortex_array_kinds.specs.Validities.{nullability_of};
ghost use Rattle.vortex_dict_builders.specs.Encoder.{list_bytes};
ghost use Rattle.vortex_dict_builders.specs.Indexed.{AllPresent, IsAt, IsNullAt, NowhereAt, hash_number, number_of, with_string};

use crate::builder::DictBuilder;
use crate::constraints::DictConstraints;
use crate::entries::Entries;
use crate::validities::{number_of_place, of_no_row};
use std::alloc::{AllocError, Global};
use std::collections::HashMap;
use std::hash::{FoldHasher, Hasher};
use std::marker::Model;
use vortex_array::{
    Array, CodeType, DType, Nullability, PlainArray, StringKind, Strings, Validity,
};
use vortex_array_kinds::Values;
use vortex_array_lists::ByteLists;
use vortex_buffer::BitBuffer;

/// Texts or lists of bytes as entries. Contracts see the lists and which entries are not null.
pub struct StringEntries {
    strings: Strings,
    validity: Validity,
    null_place: Option<usize>,
    hasher: FoldHasher,
    // By hash, the place of the newest entry that has it. Places take 32 bits, so that more of the map lies in caches.
    newest: HashMap<u64, u32>,
    // For each entry that is a list, one more than the place of the next older one of its hash, or 0 where there is none.
    older: Vec<usize>,
}

impl Drop for StringEntries {
    fn drop(self) {
        let StringEntries {
            strings: _strings,
            validity: _validity,
            null_place: _null_place,
            hasher: _hasher,
            newest: _newest,
            older: _older,
        } = self;
    }
}

impl Model for StringEntries {
    ghost use Rattle.std.specs.Prelude.{nat_eq};
    ghost use Rattle.std.specs.HashMap.{get};
    ghost use Rattle.vortex_array_kinds.specs.Parts.{PlainParts, StringParts};
    ghost use Rattle.vortex_dict_builders.specs.Indexed.{Chained, HasNull, ListsDiffer, hash_number};

    ghost Value = { PlainParts StringParts };

    ghost view = { λ e. record { values = e.strings; validity = e.validity } };

    ghost invariant = { λ e. HasNull e.strings.lists e.validity e.null_place × ListsDiffer e.strings.lists e.validity × Chained (hash_number e.hasher) e.strings.lists e.validity (get nat_eq e.newest) e.older.items };
}

// The hash of a list of bytes.
#[inline(always)]
fn hash_of(hasher: FoldHasher, bytes: &[u8]) -> u64
    ensures { result ≡ hash_number hasher bytes.now }
{
    let mut state = hasher;
    state.write(bytes);
    state.finish()
}

impl StringEntries {
    // No entry yet, of a type of texts or of bytes.
    pub(crate) fn none_yet(alloc: Global, dtype: DType) -> StringEntries
        requires { IsTrue (is_string_type dtype) }
        ensures { string_column result ≡ record { dtype = dtype; rows = [] } }
    {
        match dtype {
            DType::Utf8(nullability) => StringEntries::of_kind(
                alloc,
                StringKind::Utf8,
                nullability,
            ),
            DType::Binary(nullability) => {
                StringEntries::of_kind(alloc, StringKind::Binary, nullability)
            }
            _ => unreachable!(),
        }
    }

    // No entry yet, of a kind.
    fn of_kind(alloc: Global, kind: StringKind, nullability: Nullability) -> StringEntries
        ensures { string_column result ≡ record { dtype = string_type kind nullability; rows = [] } }
    {
        StringEntries {
            strings: Strings::new(kind, ByteLists::new(alloc)),
            validity: of_no_row(alloc, nullability),
            null_place: None,
            hasher: FoldHasher::default(),
            newest: HashMap::new(alloc),
            older: Vec::new(alloc),
        }
    }

    // How many entries there are: as many as the validity tells of.
    #[inline(always)]
    fn count(&self) -> usize
        ensures count { result ≡ length self.now.values.lists }
        ensures grows { Grows self.now.validity (length self.now.values.lists) }
    {
        self.strings.count()
    }

    // The place of a list, or none where it is no entry. The entries of its hash are looked at, the newest first.
    #[inline(always)]
    fn place_of_list(&self, bytes: &[u8]) -> Option<usize>
        ensures none { IfNone result (NowhereAt self.now.values.lists self.now.validity bytes.now) }
        ensures some { IfSome result (IsAt self.now.values.lists self.now.validity bytes.now) }
    {
        let mut next = newest_of(&self.newest, hash_of(self.hasher, bytes), self.older.len());
        while next > 0 {
            let place = next - 1;
            if self.strings.lists().get(place) == bytes {
                return Some(place);
            }
            next = self.older[place];
        }
        None
    }

    // The place of the null entry, or none where null is no entry.
    #[inline(always)]
    fn place_of_null(&self) -> Option<usize>
        ensures none { IfNone result (AllPresent self.now.values.lists self.now.validity) }
        ensures some { IfSome result (IsNullAt self.now.values.lists self.now.validity) }
    {
        self.null_place
    }

    // Puts a list that is no entry behind the others.
    fn push_list(&mut self, bytes: &[u8]) -> Result<(), AllocError>
        requires string { IsString self.old.values.kind bytes.now }
        requires absent { NowhereAt self.old.values.lists self.old.validity bytes.now }
        ensures ok { OnOk result (self.new ≡ with_string self.old bytes.now true) }
        ensures err { OnErr result (self.new ≡ self.old) }
    {
        let hash = hash_of(self.hasher, bytes);
        let next = newest_of(&self.newest, hash, self.older.len());
        let place = place_with_room(&mut self.newest, &mut self.older)?;
        push_string(&mut self.strings, &mut self.validity, bytes, true)?;
        put_newest(&mut self.newest, hash, place);
        let _ = self.older.push(next);
        Ok(())
    }

    // Puts null behind the others, which are lists. The list without bytes stands for it.
    fn push_null(&mut self) -> Result<(), AllocError>
        requires nullable { nullability_of self.old.validity ≡ Nullable }
        requires absent { AllPresent self.old.values.lists self.old.validity }
        ensures ok { OnOk result (self.new ≡ with_string self.old [] false) }
        ensures err { OnErr result (self.new ≡ self.old) }
    {
        let place = self.older.len();
        self.older.reserve(1)?;
        push_string(&mut self.strings, &mut self.validity, &[], false)?;
        let _ = self.older.push(0);
        self.null_place = Some(place);
        Ok(())
    }
}

// One more than the place that a map has for a hash, or 0 where it has none. Places are below a bound.
#[inline(always)]
fn newest_of(newest: &HashMap<u64, u32>, hash: u64, bound: usize) -> usize
    requires { IfSome (get nat_eq newest.now hash) (λ place. place < bound) }
    ensures { result ≡ number_of (get nat_eq newest.now hash) }
{
    let _ = bound;
    match newest.get(&hash) {
        Some(place) => *place as usize + 1,
        None => 0,
    }
}

// The place of the next entry as a number, and room for it: the map finds what it found.
fn place_with_room(
    newest: &mut HashMap<u64, u32>,
    older: &mut Vec<usize>,
) -> Result<u32, AllocError>
    ensures number { IfOk result (λ number. number ≡ length older.old.items) }
    ensures room { OnOk result (0 < spare newest.new) }
    ensures behind { OnOk result (length older.new.items < vec_capacity older.new) }
    ensures same { (h : ℕ) → get nat_eq newest.new h ≡ get nat_eq newest.old h }
    ensures kept { older.new.items ≡ older.old.items }
{
    let number = number_of_place(older.len())?;
    older.reserve(1)?;
    newest.reserve(1)?;
    Ok(number)
}

// The place of the newest entry of a hash, for which there is room.
#[inline(always)]
fn put_newest(newest: &mut HashMap<u64, u32>, hash: u64, place: u32)
    requires { 0 < spare newest.old }
    ensures { (h : ℕ) → get nat_eq newest.new h ≡ cond (nat_eq hash h) (Some place) (get nat_eq newest.old h) }
{
    let _ = newest.insert(hash, place);
}

// One more list, which is an entry or stands for null. Where memory is wanting, both stay.
fn push_string(
    strings: &mut Strings,
    validity: &mut Validity,
    bytes: &[u8],
    present: bool,
) -> Result<(), AllocError>
    requires grows { Grows validity.old (length strings.old.lists) }
    requires string { IsString strings.old.kind bytes.now }
    ensures strings { OnOk result (strings.new ≡ record strings.old { lists = strings.old.lists ++ bytes.now ∷ [] }) }
    ensures validity { OnOk result (validity.new ≡ with_row present validity.old) }
    ensures strings_kept { OnErr result (strings.new ≡ strings.old) }
    ensures validity_kept { OnErr result (validity.new ≡ validity.old) }
{
    match validity {
        Validity::NonNullable => strings.push(bytes),
        Validity::Bits(bits) => push_both(strings, bits, bytes, present),
        Validity::AllValid | Validity::AllInvalid => unreachable!(),
    }
}

// One more list and one more bit. Where memory is wanting, both stay.
fn push_both(
    strings: &mut Strings,
    bits: &mut BitBuffer,
    bytes: &[u8],
    bit: bool,
) -> Result<(), AllocError>
    requires string { IsString strings.old.kind bytes.now }
    ensures strings { OnOk result (strings.new ≡ record strings.old { lists = strings.old.lists ++ bytes.now ∷ [] }) }
    ensures bits { OnOk result (bits.new ≡ bits.old ++ bit ∷ []) }
    ensures strings_kept { OnErr result (strings.new ≡ strings.old) }
    ensures bits_kept { OnErr result (bits.new ≡ bits.old) }
{
    let count = bits.len();
    bits.push(bit)?;
    match strings.push(bytes) {
        Ok(()) => Ok(()),
        Err(error) => {
            bits.truncate(count);
            Err(error)
        }
    }
}

// What a list of bytes costs.
fn bytes_in(bytes: &[u8]) -> usize
    ensures { result ≡ list_bytes (length bytes.now) }
{
    if bytes.len() > 12 {
        16 + bytes.len()
    } else {
        16
    }
}

// The list at a place of a column of texts or bytes.
#[inline(always)]
fn list_at(rows: &PlainArray<Strings>, i: usize) -> &[u8]
    requires { i < length rows.now.values.lists }
    ensures value { result.now ≡ slice_index_or rows.now.values.lists i [] }
    ensures string { IsString rows.now.values.kind result.now }
{
    rows.stored().lists().get(i)
}

impl Entries for StringEntries {
    type Stored = Strings;

    ghost kept = { string_column };

    fn dtype(&self) -> DType {
        self.strings.kind().type_with(self.validity.nullability())
    }

    fn len(&self) -> usize {
        self.strings.count()
    }

    fn of_array<'a>(&self, array: &'a Array) -> &'a PlainArray<Strings> {
        match array {
            Array::VarBinView(rows) => rows,
            _ => unreachable!(),
        }
    }

    #[inline(always)]
    fn place_of(&self, rows: &PlainArray<Strings>, i: usize) -> Option<usize> {
        let _ = self.count();
        if rows.validity().is_valid(i) {
            self.place_of_list(list_at(rows, i))
        } else {
            self.place_of_null()
        }
    }

    fn bytes_of(&self, rows: &PlainArray<Strings>, i: usize) -> usize {
        if rows.validity().is_valid(i) {
            bytes_in(list_at(rows, i))
        } else {
            16
        }
    }

    fn push(&mut self, rows: &PlainArray<Strings>, i: usize) -> Result<(), AllocError> {
        let _ = self.count();
        if rows.validity().is_valid(i) {
            self.push_list(list_at(rows, i))
        } else {
            self.push_null()
        }
    }

    fn to_array(&self, alloc: Global) -> Result<Array, AllocError> {
        let strings = self.strings.copy(alloc)?;
        let validity = self.validity.try_clone(alloc)?;
        Ok(Array::VarBinView(PlainArray::new(strings, validity)))
    }
}

/// A builder of dictionaries of texts or of bytes, with codes of one width.
pub type BytesDictBuilder<Code> = DictBuilder<StringEntries, Code>;

impl<Code: CodeType> DictBuilder<StringEntries, Code> {
    /// A builder that has no entry yet, for rows of this type, which is one of texts or of bytes.
    pub fn new(alloc: Global, dtype: DType, constraints: &DictConstraints) -> Self
        requires { IsTrue (is_string_type dtype) }
        ensures { result ≡ record { dtype = dtype; entries = []; limits = constraints.now; width = Code.width } }
    {
        DictBuilder::over(alloc, StringEntries::none_yet(alloc, dtype), *constraints)
    }
}
