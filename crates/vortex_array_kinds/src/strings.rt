// Columns of texts and of bytes, which are kept as lists of bytes.
ghost use Rattle.std.specs.Prelude.{◌≡◌, ◌<◌, ◌++◌, ◌∷◌, [], IsTrue, IsFalse, IsUtf8, IfOk, OnOk, OnErr, length};
ghost use Rattle.vortex_array_types.specs.Row.{value_fits};
ghost use Rattle.vortex_array_types.specs.Seen.{value_seen};
ghost use Rattle.vortex_array_types.specs.declared.types.Nullability.TheVariants.{NonNullable};
ghost use Rattle.vortex_array_kinds.specs.StringValues.{AreStrings, IsString, string_type, string_value, strings_of};
ghost use Rattle.vortex_array_kinds.specs.StringTypes.{same_kind};
ghost use Rattle.vortex_array_kinds.specs.Validities.{is_as_long};

use crate::plain::PlainArray;
use crate::values::Values;
use std::alloc::{AllocError, Global};
use std::marker::Model;
use vortex_array_lists::ByteLists;
use vortex_array_types::{DType, Nullability, ValueRef};

/// Whether lists of bytes are texts.
#[derive(Clone, Copy, Debug, PartialEq, Eq)]
pub enum StringKind {
    /// Texts, each of them UTF-8.
    Utf8,
    /// Bytes of any kind.
    Binary,
}

impl StringKind {
    /// The type of rows of this kind, with nulls or without.
    pub fn type_with(self, nullability: Nullability) -> DType
        ensures { result ≡ string_type self nullability }
    {
        match self {
            StringKind::Utf8 => DType::Utf8(nullability),
            StringKind::Binary => DType::Binary(nullability),
        }
    }

    /// Whether the bytes are a string of this kind: those of a text are UTF-8.
    pub fn holds(self, bytes: &[u8]) -> bool
        ensures yes { IsTrue result → IsString self bytes.now }
        ensures no { IsFalse result → ¬ IsString self bytes.now }
    {
        match self {
            StringKind::Utf8 => std::str::from_utf8(bytes).is_ok(),
            StringKind::Binary => true,
        }
    }

    /// The bytes of a value of this kind.
    pub fn bytes_in(self, value: ValueRef<'_>) -> &[u8]
        requires { IsTrue (value_fits (string_type self NonNullable) (value_seen value)) }
        ensures value { string_value self result.now ≡ value_seen value.entry }
        ensures text { IsString self result.now }
    {
        match self {
            StringKind::Utf8 => match value {
                ValueRef::Utf8(text) => text.as_bytes(),
                _ => unreachable!(),
            },
            StringKind::Binary => match value {
                ValueRef::Binary(bytes) => bytes,
                _ => unreachable!(),
            },
        }
    }

    // The bytes as a value of this kind.
    #[inline]
    fn lend(self, bytes: &[u8]) -> ValueRef<'_>
        requires { IsString self bytes.now }
        ensures { value_seen result ≡ string_value self bytes.now }
    {
        match self {
            StringKind::Utf8 => ValueRef::Utf8(as_text(bytes)),
            StringKind::Binary => ValueRef::Binary(bytes),
        }
    }
}

// Bytes that are UTF-8, as text.
#[inline]
fn as_text(bytes: &[u8]) -> &str
    requires { IsUtf8 bytes.now }
    ensures { result.now ≡ bytes.now }
{
    match std::str::from_utf8(bytes) {
        Ok(text) => text,
        Err(_) => unreachable!(),
    }
}

/// Lists of bytes, all of them texts or none. Contracts see the lists and which of the two they are.
pub struct Strings {
    kind: StringKind,
    lists: ByteLists,
}

impl Drop for Strings {
    fn drop(self) {
        let Strings {
            kind: _kind,
            lists: _lists,
        } = self;
    }
}

impl Model for Strings {
    ghost use Rattle.vortex_array_kinds.specs.Parts.{StringParts};
    ghost use Rattle.vortex_array_kinds.specs.StringValues.{AreStrings};

    ghost Value = { StringParts };

    ghost view = { λ s. record { kind = s.kind; lists = s.lists } };

    ghost invariant = { λ s. AreStrings s.kind s.lists };
}

impl Strings {
    /// These lists of bytes, which are texts where the kind is that of texts.
    pub fn new(kind: StringKind, lists: ByteLists) -> Strings
        requires { AreStrings kind lists }
        ensures { result ≡ record { kind = kind; lists = lists } }
    {
        Strings { kind, lists }
    }

    /// Whether they are texts.
    pub fn kind(&self) -> StringKind
        ensures { result ≡ self.now.kind }
    {
        self.kind
    }

    /// The lists of bytes.
    pub fn lists(&self) -> &ByteLists
        ensures value { result.now ≡ self.now.lists }
        ensures texts { AreStrings self.now.kind self.now.lists }
    {
        &self.lists
    }

    /// Puts a list of bytes behind the others. Where memory is wanting, nothing has changed.
    pub fn push(&mut self, bytes: &[u8]) -> Result<(), AllocError>
        requires { IsString self.old.kind bytes.now }
        ensures pushed { OnOk result (self.new ≡ record self.old { lists = self.old.lists ++ bytes.now ∷ [] }) }
        ensures kept { OnErr result (self.new ≡ self.old) }
    {
        self.lists.push(bytes)
    }
}

impl Values for Strings {
    ghost use Rattle.std.proofs.lemmas.List.{length-map};

    ghost type_of = { λ s n. string_type s.kind n };

    ghost items = { strings_of };

    ghost count_of = { λ s. length s.lists };

    ghost counted = { λ s. length-map s.lists (string_value s.kind) };

    ghost alike = { λ s. same_kind s.kind };

    fn count(&self) -> usize {
        self.lists.len()
    }

    fn type_with(&self, nullability: Nullability) -> DType {
        self.kind.type_with(nullability)
    }

    #[inline]
    fn lend(&self, i: usize) -> ValueRef<'_> {
        self.kind.lend(self.lists.get(i))
    }

    fn copy(&self, alloc: Global) -> Result<Strings, AllocError> {
        Ok(Strings {
            kind: self.kind,
            lists: self.lists.try_clone(alloc)?,
        })
    }
}

/// A column of texts or of bytes. The list at a place is the row there where that row is not null.
pub type VarBinViewArray = PlainArray<Strings>;

impl PlainArray<Strings> {
    /// The lists of bytes, and whether they are texts.
    pub fn strings(&self) -> &Strings
        ensures value { result.now ≡ self.now.values }
        ensures fits { IsTrue (is_as_long self.now.validity (length self.now.values.lists)) }
    {
        self.stored()
    }
}
