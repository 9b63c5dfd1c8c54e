// A builder of dictionaries, whatever the kind of its rows and the width of its codes: one loop over the rows.
ghost use Rattle.std.specs.Prelude.{◌≡◌, ◌≢◌, ◌<◌, ◌++◌, ◌∷◌, [], IfNone, IfOk, IfSome, IsFalse, IsTrue, None, OnErr, OnOk, is_some, length, map, pos, slice_index_or};
ghost use Rattle.vortex_array_kinds.specs.Kinds.{plain_column, primitive_column};
ghost use Rattle.vortex_array.specs.ColumnOf.{column_of, is_plain};
ghost use Rattle.vortex_dict_builders.specs.Building.{EncodesRow, EncodesTo, LeavesRow, code_column};
ghost use Rattle.vortex_dict_builders.specs.Encoder.{entry_bytes, lets_be as is_let, room_for, with_entries};
ghost use Rattle.vortex_dict_builders.specs.Encodes.{Encodes, EncodesSome};
ghost use Rattle.vortex_dict_builders.specs.Firsts.{has_row};

use crate::constraints::DictConstraints;
use crate::encoder::DictEncoder;
use crate::entries::Entries;
use crate::errors::EncodeError;
use crate::repeated::plain_copy;
use std::alloc::{AllocError, Global};
use std::marker::{Model, PhantomData};
use vortex_array::{Array, CodeType, PlainArray, PrimitiveArray, Validity};
use vortex_array_kinds::PrimitiveWidth;
use vortex_buffer::Buffer;

/// A builder of dictionaries over entries of one kind, whose codes are of one width. Contracts see an `Encoder`.
pub struct DictBuilder<E: Entries, Code: CodeType> {
    alloc: Global,
    entries: E,
    // What all entries cost, or the greatest number where that is less.
    total: usize,
    limits: DictConstraints,
    code: PhantomData<Code>,
}

impl<E: Entries, Code: CodeType> Drop for DictBuilder<E, Code> {
    fn drop(self) {
        let DictBuilder {
            alloc: _alloc,
            entries: _entries,
            total: _total,
            limits: _limits,
            code: _code,
        } = self;
    }
}

impl<E: Entries, Code: CodeType> Model for DictBuilder<E, Code> {
    ghost use Rattle.vortex_dict_builders.specs.Building.{Keeps};
    ghost use Rattle.vortex_dict_builders.specs.Encoder.{Encoder};

    ghost Value = { Encoder };

    ghost view = { λ b. record { dtype = (E.kept b.entries).dtype; entries = (E.kept b.entries).rows; limits = b.limits; width = Code.width } };

    ghost invariant = { λ b. Keeps (E.kept b.entries) b.total Code.width };
}

// Whether a limit lets so much be: the greatest number lets all be.
#[inline(always)]
fn lets_be(limit: usize, amount: usize) -> bool
    ensures { result ≡ is_let limit amount }
{
    amount <= limit || limit == 18446744073709551615
}

impl<E: Entries, Code: CodeType> DictBuilder<E, Code> {
    // A builder over entries that are none yet.
    pub(crate) fn over(alloc: Global, entries: E, limits: DictConstraints) -> Self
        requires { (E.kept entries).rows ≡ [] }
        ensures { result ≡ record { dtype = (E.kept entries).dtype; entries = []; limits = limits; width = Code.width } }
    {
        DictBuilder {
            alloc,
            entries,
            total: 0,
            limits,
            code: PhantomData,
        }
    }

    // The code of one more entry that costs so much, or none where it is not let in.
    fn next_code(&self, cost: usize) -> Option<Code>
        ensures room { is_some result ≡ room_for self.now cost }
        ensures code { IfSome result (λ code. Code.number code ≡ pos (length self.now.entries)) }
    {
        let place = self.entries.len();
        let fits = place < self.limits.max_len || self.limits.max_len == 18446744073709551615;
        if fits && lets_be(self.limits.max_bytes, self.total.saturating_add(cost)) {
            Code::from_place(place)
        } else {
            None
        }
    }

    // The code of an entry.
    #[inline(always)]
    fn code_at(&self, place: usize) -> Code
        requires { place < length self.now.entries }
        ensures { Code.number result ≡ pos place }
    {
        let _ = &self.total;
        match Code::from_place(place) {
            Some(code) => code,
            None => unreachable!(),
        }
    }

    // The code of a row that is no entry, and is one then, or none where it is not let in.
    fn add_row(
        &mut self,
        rows: &PlainArray<E::Stored>,
        i: usize,
    ) -> Result<Option<Code>, AllocError>
        requires same_type { (plain_column E.Stored.type_of E.Stored.items rows.now).dtype ≡ self.old.dtype }
        requires inside { i < length (plain_column E.Stored.type_of E.Stored.items rows.now).rows }
        requires absent { IsFalse (has_row self.old.entries (slice_index_or (plain_column E.Stored.type_of E.Stored.items rows.now).rows i None)) }
        ensures taken { IfOk result (λ found. IfSome found (λ code. EncodesRow self.old (slice_index_or (plain_column E.Stored.type_of E.Stored.items rows.now).rows i None) (Code.number code) self.new)) }
        ensures left { IfOk result (λ found. IfNone found (LeavesRow self.old (slice_index_or (plain_column E.Stored.type_of E.Stored.items rows.now).rows i None) self.new)) }
        ensures err { OnErr result (self.new ≡ self.old) }
    {
        let cost = self.entries.bytes_of(rows, i);
        match self.next_code(cost) {
            None => Ok(None),
            Some(code) => {
                self.push_row(rows, i, cost)?;
                Ok(Some(code))
            }
        }
    }

    // Puts a row that is no entry and is let in behind the others, at what it costs.
    fn push_row(
        &mut self,
        rows: &PlainArray<E::Stored>,
        i: usize,
        cost: usize,
    ) -> Result<(), AllocError>
        requires same_type { (plain_column E.Stored.type_of E.Stored.items rows.now).dtype ≡ self.old.dtype }
        requires inside { i < length (plain_column E.Stored.type_of E.Stored.items rows.now).rows }
        requires absent { IsFalse (has_row self.old.entries (slice_index_or (plain_column E.Stored.type_of E.Stored.items rows.now).rows i None)) }
        requires cost { cost ≡ entry_bytes self.old.dtype (slice_index_or (plain_column E.Stored.type_of E.Stored.items rows.now).rows i None) }
        requires room { IsTrue (room_for self.old cost) }
        ensures ok { OnOk result (self.new ≡ with_entries (self.old.entries ++ slice_index_or (plain_column E.Stored.type_of E.Stored.items rows.now).rows i None ∷ []) self.old) }
        ensures err { OnErr result (self.new ≡ self.old) }
    {
        self.entries.push(rows, i)?;
        self.total = self.total.saturating_add(cost);
        Ok(())
    }

    // The code of a row, which is an entry then, or none where it is no entry and is not let in.
    #[inline(always)]
    fn code_of(
        &mut self,
        rows: &PlainArray<E::Stored>,
        i: usize,
    ) -> Result<Option<Code>, AllocError>
        requires same_type { (plain_column E.Stored.type_of E.Stored.items rows.now).dtype ≡ self.old.dtype }
        requires inside { i < length (plain_column E.Stored.type_of E.Stored.items rows.now).rows }
        ensures taken { IfOk result (λ found. IfSome found (λ code. EncodesRow self.old (slice_index_or (plain_column E.Stored.type_of E.Stored.items rows.now).rows i None) (Code.number code) self.new)) }
        ensures left { IfOk result (λ found. IfNone found (LeavesRow self.old (slice_index_or (plain_column E.Stored.type_of E.Stored.items rows.now).rows i None) self.new)) }
        ensures err { OnErr result (self.new ≡ self.old) }
    {
        match self.entries.place_of(rows, i) {
            Some(place) => Ok(Some(self.code_at(place))),
            None => self.add_row(rows, i),
        }
    }

    // The codes of the first rows, behind none.
    fn push_codes(
        &mut self,
        rows: &PlainArray<E::Stored>,
        codes: &mut Vec<Code>,
    ) -> Result<(), AllocError>
        requires same_type { (plain_column E.Stored.type_of E.Stored.items rows.now).dtype ≡ self.old.dtype }
        requires none { codes.old.items ≡ [] }
        ensures ok { OnOk result (EncodesTo self.old (plain_column E.Stored.type_of E.Stored.items rows.now).rows (map Code.number codes.new.items) self.new) }
        ensures err { OnErr result (EncodesSome self.old (plain_column E.Stored.type_of E.Stored.items rows.now).rows self.new) }
    {
        for i in 0..rows.len() {
            match self.code_of(rows, i)? {
                Some(code) => codes.push(code)?,
                None => return Ok(()),
            }
        }
        Ok(())
    }
}

impl<E: Entries, Code: CodeType + PrimitiveWidth> DictBuilder<E, Code> {
    // The codes of the first rows of what the kind keeps, as numbers.
    fn codes_of(&mut self, rows: &PlainArray<E::Stored>) -> Result<Vec<Code>, AllocError>
        requires same_type { (plain_column E.Stored.type_of E.Stored.items rows.now).dtype ≡ self.old.dtype }
        ensures ok { IfOk result (λ codes. EncodesTo self.old (plain_column E.Stored.type_of E.Stored.items rows.now).rows (map Code.number codes.items) self.new) }
        ensures err { OnErr result (EncodesSome self.old (plain_column E.Stored.type_of E.Stored.items rows.now).rows self.new) }
        ensures width { self.old.width ≡ Code.width }
    {
        let room = Vec::with_capacity(self.alloc, rows.len())?;
        self.codes_in(rows, room)
    }

    // The same in this room, which is for as many.
    fn codes_in(
        &mut self,
        rows: &PlainArray<E::Stored>,
        room: Vec<Code>,
    ) -> Result<Vec<Code>, AllocError>
        requires same_type { (plain_column E.Stored.type_of E.Stored.items rows.now).dtype ≡ self.old.dtype }
        requires none { room.items ≡ [] }
        ensures ok { IfOk result (λ codes. EncodesTo self.old (plain_column E.Stored.type_of E.Stored.items rows.now).rows (map Code.number codes.items) self.new) }
        ensures err { OnErr result (EncodesSome self.old (plain_column E.Stored.type_of E.Stored.items rows.now).rows self.new) }
    {
        let mut codes = room;
        self.push_codes(rows, &mut codes)?;
        Ok(codes)
    }

    // The codes of the first rows of what the kind keeps.
    fn encode_stored(&mut self, rows: &PlainArray<E::Stored>) -> Result<PrimitiveArray, AllocError>
        requires same_type { (plain_column E.Stored.type_of E.Stored.items rows.now).dtype ≡ self.old.dtype }
        ensures ok { IfOk result (λ codes. Encodes self.old (plain_column E.Stored.type_of E.Stored.items rows.now).rows (primitive_column codes) self.new) }
        ensures err { OnErr result (EncodesSome self.old (plain_column E.Stored.type_of E.Stored.items rows.now).rows self.new) }
    {
        let codes = self.codes_of(rows)?;
        Ok(code_array(codes))
    }

    // The codes of the first rows of a plain array.
    fn encode_plain(&mut self, array: &Array) -> Result<PrimitiveArray, AllocError>
        requires plain { IsTrue (is_plain array.now) }
        requires same_type { (column_of array.now).dtype ≡ self.old.dtype }
        ensures ok { IfOk result (λ codes. Encodes self.old (column_of array.now).rows (primitive_column codes) self.new) }
        ensures err { OnErr result (EncodesSome self.old (column_of array.now).rows self.new) }
    {
        let rows = self.entries.of_array(array);
        self.encode_stored(rows)
    }

    // Whether an array is of the type of the rows.
    fn takes_type(&self, array: &Array) -> bool
        ensures yes { IsTrue result → (column_of array.now).dtype ≡ self.now.dtype }
        ensures no { IsFalse result → (column_of array.now).dtype ≢ self.now.dtype }
    {
        array.dtype() == self.entries.dtype()
    }

    // The codes of the first rows of any array.
    fn encode_rows(&mut self, array: &Array) -> Result<PrimitiveArray, AllocError>
        requires same_type { (column_of array.now).dtype ≡ self.old.dtype }
        ensures ok { IfOk result (λ codes. Encodes self.old (column_of array.now).rows (primitive_column codes) self.new) }
        ensures err { OnErr result (EncodesSome self.old (column_of array.now).rows self.new) }
    {
        match array {
            Array::Constant(_) => self.encode_equal(array),
            _ => self.encode_plain(array),
        }
    }

    // The codes of the first rows of any array, from a plain copy.
    fn encode_equal(&mut self, array: &Array) -> Result<PrimitiveArray, AllocError>
        requires same_type { (column_of array.now).dtype ≡ self.old.dtype }
        ensures ok { IfOk result (λ codes. Encodes self.old (column_of array.now).rows (primitive_column codes) self.new) }
        ensures err { OnErr result (EncodesSome self.old (column_of array.now).rows self.new) }
    {
        let plain = plain_copy(self.alloc, array)?;
        self.encode_plain(&plain)
    }
}

// Codes as a column without nulls.
fn code_array<Code: CodeType + PrimitiveWidth>(codes: Vec<Code>) -> PrimitiveArray
    ensures { primitive_column result ≡ code_column Code.width (map Code.number codes.items) }
{
    PrimitiveArray::new(
        Code::into_buffer(Buffer::from_vec(codes)),
        Validity::NonNullable,
    )
}

impl<E: Entries, Code: CodeType + PrimitiveWidth> DictEncoder for DictBuilder<E, Code> {
    ghost encoder = { λ b. b };

    fn encode(&mut self, array: &Array) -> Result<PrimitiveArray, EncodeError> {
        if !self.takes_type(array) {
            return Err(EncodeError::WrongType);
        }
        match self.encode_rows(array) {
            Ok(codes) => Ok(codes),
            Err(_) => Err(EncodeError::OutOfMemory),
        }
    }

    fn values(&mut self) -> Result<Array, AllocError> {
        let _ = self.entries.len();
        self.entries.to_array(self.alloc)
    }
}
