// Columns of texts and of bytes that are made row by row.
ghost use Rattle.std.specs.Prelude.{◌≡◌, ◌++◌, ◌∷◌, [], IsTrue, IfErr, OnOk, OnErr, None, Some, false, length, option_copied, option_map, true};
ghost use Rattle.vortex_array_kinds.specs.Kinds.{string_column};
ghost use Rattle.vortex_array_kinds.specs.Pushed.{Admits, Grows, Refuses, no_row, with_row};
ghost use Rattle.vortex_array_kinds.specs.StringValues.{IsString, bytes_value, is_string_type, string_type};
ghost use Rattle.vortex_array_kinds.specs.declared.builder.PushError.TheVariants as errors;

use crate::plain::PlainArray;
use crate::strings::{StringKind, Strings, VarBinViewArray};
use crate::validity::Validity;
use std::alloc::{AllocError, Global};
use std::marker::Model;
use thiserror::Error;
use vortex_array_lists::ByteLists;
use vortex_array_types::{DType, Nullability};
use vortex_buffer::{BitBuffer, Buffer};

/// Why a row was not taken.
#[derive(Clone, Copy, Debug, PartialEq, Eq, Error)]
pub enum PushError {
    /// Null in a column without nulls.
    #[error("null in a column without nulls")]
    WrongType,
    /// A text that is not UTF-8.
    #[error("the text is not UTF-8")]
    NotUtf8,
    /// Memory is wanting.
    #[error("out of memory")]
    OutOfMemory,
}

/// A column of texts or of bytes that is made row by row. Contracts see the column so far.
pub struct VarBinViewBuilder {
    strings: Strings,
    validity: Validity,
}

impl Drop for VarBinViewBuilder {
    fn drop(self) {
        let VarBinViewBuilder {
            strings: _strings,
            validity: _validity,
        } = self;
    }
}

impl Model for VarBinViewBuilder {
    ghost use Rattle.std.specs.Prelude.{length};
    ghost use Rattle.vortex_array_types.specs.Row.{Column};
    ghost use Rattle.vortex_array_kinds.specs.Kinds.{string_column};
    ghost use Rattle.vortex_array_kinds.specs.Pushed.{Grows};

    ghost Value = { Column };

    ghost view = { λ b. string_column (record { values = b.strings; validity = b.validity }) };

    ghost invariant = { λ b. Grows b.validity (length b.strings.lists) };
}

impl VarBinViewBuilder {
    /// A column of this type, one of texts or of bytes, that has no row yet.
    pub fn new(alloc: Global, dtype: DType) -> VarBinViewBuilder
        requires { IsTrue (is_string_type dtype) }
        ensures { result ≡ record { dtype = dtype; rows = [] } }
    {
        match dtype {
            DType::Utf8(nullability) => empty_builder(alloc, StringKind::Utf8, nullability),
            DType::Binary(nullability) => empty_builder(alloc, StringKind::Binary, nullability),
            _ => unreachable!(),
        }
    }

    /// One more row: bytes, or null. It is refused exactly where null meets a type without nulls, and where a text is not
    /// UTF-8; else memory alone can be wanting. After a refusal the column is as it was.
    pub fn push(&mut self, value: Option<&[u8]>) -> Result<(), PushError>
        ensures ok { OnOk result (self.new ≡ record self.old { rows = self.old.rows ++ option_map (bytes_value self.old.dtype) (option_copied value.entry) ∷ [] }) }
        ensures admitted { OnOk result (Admits self.old.dtype (option_copied value.entry)) }
        ensures err { IfErr result (Refuses self.old.dtype (option_copied value.entry)) }
        ensures kept { OnErr result (self.new ≡ self.old) }
    {
        match value {
            None => self.push_null(),
            Some(bytes) => self.push_bytes(bytes),
        }
    }

    // One more row, of null.
    fn push_null(&mut self) -> Result<(), PushError>
        ensures ok { OnOk result (self.new ≡ record self.old { rows = self.old.rows ++ None ∷ [] }) }
        ensures admitted { OnOk result (Admits self.old.dtype None) }
        ensures err { IfErr result (Refuses self.old.dtype None) }
        ensures kept { OnErr result (self.new ≡ self.old) }
    {
        match self.validity.nullability() {
            Nullability::NonNullable => Err(PushError::WrongType),
            Nullability::Nullable => push_row(&mut self.strings, &mut self.validity, &[], false),
        }
    }

    // One more row, of bytes.
    fn push_bytes(&mut self, bytes: &[u8]) -> Result<(), PushError>
        ensures ok { OnOk result (self.new ≡ record self.old { rows = self.old.rows ++ Some (bytes_value self.old.dtype bytes.now) ∷ [] }) }
        ensures admitted { OnOk result (Admits self.old.dtype (Some bytes.now)) }
        ensures err { IfErr result (Refuses self.old.dtype (Some bytes.now)) }
        ensures kept { OnErr result (self.new ≡ self.old) }
    {
        if !self.strings.kind().holds(bytes) {
            return Err(PushError::NotUtf8);
        }
        push_row(&mut self.strings, &mut self.validity, bytes, true)
    }

    /// The column. It takes no memory.
    pub fn finish(self) -> VarBinViewArray
        ensures { string_column result ≡ self }
    {
        let VarBinViewBuilder { strings, validity } = self;
        PlainArray::new(strings, validity)
    }
}

// No row of a kind, in a type with nulls or without.
fn empty_builder(alloc: Global, kind: StringKind, nullability: Nullability) -> VarBinViewBuilder
    ensures { result ≡ record { dtype = string_type kind nullability; rows = [] } }
{
    VarBinViewBuilder {
        strings: Strings::new(kind, ByteLists::new(alloc)),
        validity: of_no_row(alloc, nullability),
    }
}

// The validity of no row, in a type with nulls or without.
fn of_no_row(alloc: Global, nullability: Nullability) -> Validity
    ensures { result ≡ no_row nullability }
{
    match nullability {
        Nullability::NonNullable => Validity::NonNullable,
        Nullability::Nullable => {
            Validity::Bits(BitBuffer::from_words(Buffer::from_vec(Vec::new(alloc)), 0))
        }
    }
}

// One more list of bytes and, in a type with nulls, whether it is present. Where memory is wanting both stay.
fn push_row(
    strings: &mut Strings,
    validity: &mut Validity,
    bytes: &[u8],
    is_present: bool,
) -> Result<(), PushError>
    requires grows { Grows validity.old (length strings.old.lists) }
    requires text { IsString strings.old.kind bytes.now }
    ensures strings { OnOk result (strings.new ≡ record strings.old { lists = strings.old.lists ++ bytes.now ∷ [] }) }
    ensures validity { OnOk result (validity.new ≡ with_row is_present validity.old) }
    ensures err { IfErr result (λ e. e ≡ errors.OutOfMemory) }
    ensures strings_kept { OnErr result (strings.new ≡ strings.old) }
    ensures validity_kept { OnErr result (validity.new ≡ validity.old) }
{
    let pushed = match validity {
        Validity::NonNullable => strings.push(bytes),
        Validity::Bits(bits) => push_both(strings, bits, bytes, is_present),
        Validity::AllValid | Validity::AllInvalid => unreachable!(),
    };
    match pushed {
        Ok(()) => Ok(()),
        Err(_) => Err(PushError::OutOfMemory),
    }
}

// One more list of bytes and one more bit. Where memory is wanting both stay.
fn push_both(
    strings: &mut Strings,
    bits: &mut BitBuffer,
    bytes: &[u8],
    bit: bool,
) -> Result<(), AllocError>
    requires text { IsString strings.old.kind bytes.now }
    ensures strings { OnOk result (strings.new ≡ record strings.old { lists = strings.old.lists ++ bytes.now ∷ [] }) }
    ensures bits { OnOk result (bits.new ≡ bits.old ++ bit ∷ []) }
    ensures strings_kept { OnErr result (strings.new ≡ strings.old) }
    ensures bits_kept { OnErr result (bits.new ≡ bits.old) }
{
    let count = bits.len();
    bits.push(bit)?;
    match strings.push(bytes) {
        Ok(()) => Ok(()),
        Err(error) => {
            bits.truncate(count);
            Err(error)
        }
    }
}
