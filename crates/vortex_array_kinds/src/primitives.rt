// Columns of whole numbers, which are kept in their native width.
ghost use Rattle.std.specs.Prelude.{◌≡◌, ◌<◌, ◌==◌, IsTrue, IsFalse, IfOk, OnOk, OnErr, length, map, pos, refl, slice_index_or};
ghost use Rattle.vortex_array_types.specs.Row.{in_width};
ghost use Rattle.vortex_array_types.specs.declared.scalar.Value.TheVariants as value;
ghost use Rattle.vortex_array_types.specs.declared.types.DType.TheVariants as dtype;
ghost use Rattle.vortex_array_kinds.specs.Kinds.{len_of, numbers_of, ptype_of};
ghost use Rattle.vortex_array_kinds.specs.Validities.{is_as_long};

use crate::plain::PlainArray;
use crate::validity::{LengthMismatch, Validity};
use crate::values::Values;
use std::alloc::{AllocError, Global};
use vortex_array_types::{DType, NativeValue, Nullability, PType, ValueRef};
use vortex_buffer::Buffer;

/// Whole numbers of one width.
pub enum PrimitiveBuffer {
    /// Numbers of the width `u8`.
    U8(Buffer<u8>),
    /// Numbers of the width `u16`.
    U16(Buffer<u16>),
    /// Numbers of the width `u32`.
    U32(Buffer<u32>),
    /// Numbers of the width `u64`.
    U64(Buffer<u64>),
    /// Numbers of the width `i8`.
    I8(Buffer<i8>),
    /// Numbers of the width `i16`.
    I16(Buffer<i16>),
    /// Numbers of the width `i32`.
    I32(Buffer<i32>),
    /// Numbers of the width `i64`.
    I64(Buffer<i64>),
}

impl Drop for PrimitiveBuffer {
    fn drop(self) {
        match self {
            PrimitiveBuffer::U8(_part) => {}
            PrimitiveBuffer::U16(_part) => {}
            PrimitiveBuffer::U32(_part) => {}
            PrimitiveBuffer::U64(_part) => {}
            PrimitiveBuffer::I8(_part) => {}
            PrimitiveBuffer::I16(_part) => {}
            PrimitiveBuffer::I32(_part) => {}
            PrimitiveBuffer::I64(_part) => {}
        }
    }
}

/// What the expression is for the items of a buffer of whole numbers, whatever their width.
#[macro_export]
macro_rules! each_width {
    ($values:expr, $items:ident => $answer:expr) => {
        match $values {
            $crate::PrimitiveBuffer::U8($items) => $answer,
            $crate::PrimitiveBuffer::U16($items) => $answer,
            $crate::PrimitiveBuffer::U32($items) => $answer,
            $crate::PrimitiveBuffer::U64($items) => $answer,
            $crate::PrimitiveBuffer::I8($items) => $answer,
            $crate::PrimitiveBuffer::I16($items) => $answer,
            $crate::PrimitiveBuffer::I32($items) => $answer,
            $crate::PrimitiveBuffer::I64($items) => $answer,
        }
    };
}

// How many items there are.
fn len_in<T: NativeValue>(items: &Buffer<T>) -> usize
    ensures { result ≡ length (map T.number items.now) }
{
    items.len()
}

// The number of the item at a place, which lies in the width.
#[inline]
fn number_in<T: NativeValue>(items: &Buffer<T>, i: usize) -> i128
    requires { i < length (map T.number items.now) }
    ensures value { result ≡ slice_index_or (map T.number items.now) i (pos 0) }
    ensures within { IsTrue (in_width T.width result) }
{
    items.get(i).value()
}

impl PrimitiveBuffer {
    /// How many numbers there are.
    pub fn len(&self) -> usize
        ensures { result ≡ len_of self.now }
    {
        each_width!(self, values => len_in(values))
    }

    /// Whether there is no number.
    pub fn is_empty(&self) -> bool
        ensures { result ≡ (len_of self.now == 0) }
    {
        self.len() == 0
    }

    /// The width of the numbers.
    pub fn ptype(&self) -> PType
        ensures { result ≡ ptype_of self.now }
    {
        match self {
            PrimitiveBuffer::U8(_) => PType::U8,
            PrimitiveBuffer::U16(_) => PType::U16,
            PrimitiveBuffer::U32(_) => PType::U32,
            PrimitiveBuffer::U64(_) => PType::U64,
            PrimitiveBuffer::I8(_) => PType::I8,
            PrimitiveBuffer::I16(_) => PType::I16,
            PrimitiveBuffer::I32(_) => PType::I32,
            PrimitiveBuffer::I64(_) => PType::I64,
        }
    }

    /// The number at a place, which lies in the width.
    #[inline]
    pub fn number_at(&self, i: usize) -> i128
        requires { i < len_of self.now }
        ensures value { result ≡ slice_index_or (numbers_of self.now) i (pos 0) }
        ensures within { IsTrue (in_width (ptype_of self.now) result) }
    {
        each_width!(self, values => number_in(values, i))
    }

    /// Second numbers that are equal.
    pub fn try_clone(&self, alloc: Global) -> Result<PrimitiveBuffer, AllocError>
        ensures { IfOk result (λ b. b ≡ self.now) }
    {
        match self {
            PrimitiveBuffer::U8(values) => values.try_clone(alloc).map(PrimitiveBuffer::U8),
            PrimitiveBuffer::U16(values) => values.try_clone(alloc).map(PrimitiveBuffer::U16),
            PrimitiveBuffer::U32(values) => values.try_clone(alloc).map(PrimitiveBuffer::U32),
            PrimitiveBuffer::U64(values) => values.try_clone(alloc).map(PrimitiveBuffer::U64),
            PrimitiveBuffer::I8(values) => values.try_clone(alloc).map(PrimitiveBuffer::I8),
            PrimitiveBuffer::I16(values) => values.try_clone(alloc).map(PrimitiveBuffer::I16),
            PrimitiveBuffer::I32(values) => values.try_clone(alloc).map(PrimitiveBuffer::I32),
            PrimitiveBuffer::I64(values) => values.try_clone(alloc).map(PrimitiveBuffer::I64),
        }
    }
}

impl Values for PrimitiveBuffer {
    ghost use Rattle.std.proofs.lemmas.List.{length-map};

    ghost type_of = { λ values n. dtype.Primitive (ptype_of values) n };

    ghost items = { λ values. map (λ n. value.Int n) (numbers_of values) };

    ghost count_of = { len_of };

    ghost counted = { λ values. length-map (numbers_of values) (λ n. value.Int n) };

    ghost alike = { λ values m n. refl };

    fn count(&self) -> usize {
        self.len()
    }

    fn type_with(&self, nullability: Nullability) -> DType {
        DType::Primitive(self.ptype(), nullability)
    }

    #[inline]
    fn lend(&self, i: usize) -> ValueRef<'_> {
        ValueRef::Int(self.number_at(i))
    }

    fn copy(&self, alloc: Global) -> Result<PrimitiveBuffer, AllocError> {
        self.try_clone(alloc)
    }
}

/// A column of whole numbers. The number at a place is the row there where that row is not null.
pub type PrimitiveArray = PlainArray<PrimitiveBuffer>;

impl PlainArray<PrimitiveBuffer> {
    /// A column of these numbers. It is refused exactly where the validity has bits of another length.
    pub fn try_new(
        values: PrimitiveBuffer,
        validity: Validity,
    ) -> Result<PrimitiveArray, LengthMismatch>
        ensures ok { IfOk result (λ a. a ≡ record { values = values; validity = validity }) }
        ensures fits { OnOk result (IsTrue (is_as_long validity (len_of values))) }
        ensures err { OnErr result (IsFalse (is_as_long validity (len_of values))) }
    {
        PlainArray::checked(values, validity)
    }

    /// The numbers.
    pub fn values(&self) -> &PrimitiveBuffer
        ensures value { result.now ≡ self.now.values }
        ensures fits { IsTrue (is_as_long self.now.validity (len_of self.now.values)) }
    {
        self.stored()
    }
}
