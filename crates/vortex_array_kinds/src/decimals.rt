// Columns of decimals, which are kept by their unscaled numbers.
ghost use Rattle.std.specs.Prelude.{◌≡◌, ◌<◌, ◌==◌, IsTrue, IsFalse, IfOk, OnOk, OnErr, ℤ, length, map, pos, refl, slice_index_or};
ghost use Rattle.std.specs.Ordering.{int_cmp};
ghost use Rattle.vortex_array_types.specs.NumberOrder.{integers_ordered};
ghost use Rattle.vortex_array_types.specs.declared.scalar.Value.TheVariants as value;
ghost use Rattle.vortex_array_types.specs.declared.types.DType.TheVariants as dtype;
ghost use Rattle.vortex_array_kinds.specs.Kinds.{unscaled_of};
ghost use Rattle.vortex_array_kinds.specs.Validities.{is_as_long};

use crate::plain::PlainArray;
use crate::validity::{LengthMismatch, Validity};
use crate::values::Values;
use std::alloc::{AllocError, Global};
use vortex_array_types::{DType, DecimalDType, Nullability, ValueRef};
use vortex_buffer::Buffer;

/// A native type in which decimals are kept by their unscaled numbers. Its meaning is that number, its order is that of the
/// numbers, and its items are a buffer.
pub trait DecimalWidth: Copy + Ord {
    ghost unscaled: { Self → ℤ };

    /// The unscaled number.
    fn unscaled_value(self) -> i128
        ensures { result ≡ unscaled self };

    /// The buffer of these numbers. It takes no memory.
    fn into_buffer(items: Buffer<Self>) -> DecimalBuffer
        ensures { unscaled_of result ≡ map unscaled items };

    ghost ordered: { (x y : Self) → Self.cmp x y ≡ int_cmp (unscaled x) (unscaled y) };
}

impl DecimalWidth for i8 {
    ghost unscaled = { λ x. x };

    ghost ordered = { integers_ordered };

    #[inline(always)]
    fn unscaled_value(self) -> i128 {
        self as i128
    }

    fn into_buffer(items: Buffer<i8>) -> DecimalBuffer
        ensures { unscaled_of result ≡ map (λ x. x) items }
    {
        DecimalBuffer::I8(items)
    }
}

impl DecimalWidth for i16 {
    ghost unscaled = { λ x. x };

    ghost ordered = { integers_ordered };

    #[inline(always)]
    fn unscaled_value(self) -> i128 {
        self as i128
    }

    fn into_buffer(items: Buffer<i16>) -> DecimalBuffer
        ensures { unscaled_of result ≡ map (λ x. x) items }
    {
        DecimalBuffer::I16(items)
    }
}

impl DecimalWidth for i32 {
    ghost unscaled = { λ x. x };

    ghost ordered = { integers_ordered };

    #[inline(always)]
    fn unscaled_value(self) -> i128 {
        self as i128
    }

    fn into_buffer(items: Buffer<i32>) -> DecimalBuffer
        ensures { unscaled_of result ≡ map (λ x. x) items }
    {
        DecimalBuffer::I32(items)
    }
}

impl DecimalWidth for i64 {
    ghost unscaled = { λ x. x };

    ghost ordered = { integers_ordered };

    #[inline(always)]
    fn unscaled_value(self) -> i128 {
        self as i128
    }

    fn into_buffer(items: Buffer<i64>) -> DecimalBuffer
        ensures { unscaled_of result ≡ map (λ x. x) items }
    {
        DecimalBuffer::I64(items)
    }
}

impl DecimalWidth for i128 {
    ghost unscaled = { λ x. x };

    ghost ordered = { integers_ordered };

    #[inline(always)]
    fn unscaled_value(self) -> i128 {
        self
    }

    fn into_buffer(items: Buffer<i128>) -> DecimalBuffer
        ensures { unscaled_of result ≡ map (λ x. x) items }
    {
        DecimalBuffer::I128(items)
    }
}

/// Unscaled numbers of decimals, in one width.
pub enum DecimalBuffer {
    /// Numbers of the width `i8`.
    I8(Buffer<i8>),
    /// Numbers of the width `i16`.
    I16(Buffer<i16>),
    /// Numbers of the width `i32`.
    I32(Buffer<i32>),
    /// Numbers of the width `i64`.
    I64(Buffer<i64>),
    /// Numbers of the width `i128`.
    I128(Buffer<i128>),
}

impl Drop for DecimalBuffer {
    fn drop(self) {
        match self {
            DecimalBuffer::I8(_part) => {}
            DecimalBuffer::I16(_part) => {}
            DecimalBuffer::I32(_part) => {}
            DecimalBuffer::I64(_part) => {}
            DecimalBuffer::I128(_part) => {}
        }
    }
}

/// What the expression is for the items of a buffer of unscaled numbers, whatever their width.
#[macro_export]
macro_rules! each_decimal_width {
    ($numbers:expr, $items:ident => $answer:expr) => {
        match $numbers {
            $crate::DecimalBuffer::I8($items) => $answer,
            $crate::DecimalBuffer::I16($items) => $answer,
            $crate::DecimalBuffer::I32($items) => $answer,
            $crate::DecimalBuffer::I64($items) => $answer,
            $crate::DecimalBuffer::I128($items) => $answer,
        }
    };
}

// How many items there are.
fn len_in<T: DecimalWidth>(items: &Buffer<T>) -> usize
    ensures { result ≡ length (map T.unscaled items.now) }
{
    items.len()
}

// The unscaled number of the item at a place.
#[inline]
fn number_in<T: DecimalWidth>(items: &Buffer<T>, i: usize) -> i128
    requires { i < length (map T.unscaled items.now) }
    ensures { result ≡ slice_index_or (map T.unscaled items.now) i (pos 0) }
{
    items.get(i).unscaled_value()
}

impl DecimalBuffer {
    /// How many numbers there are.
    pub fn len(&self) -> usize
        ensures { result ≡ length (unscaled_of self.now) }
    {
        each_decimal_width!(self, values => len_in(values))
    }

    /// Whether there is no number.
    pub fn is_empty(&self) -> bool
        ensures { result ≡ (length (unscaled_of self.now) == 0) }
    {
        self.len() == 0
    }

    /// The unscaled number at a place.
    #[inline]
    pub fn number_at(&self, i: usize) -> i128
        requires { i < length (unscaled_of self.now) }
        ensures { result ≡ slice_index_or (unscaled_of self.now) i (pos 0) }
    {
        each_decimal_width!(self, values => number_in(values, i))
    }

    /// Second numbers that are equal.
    pub fn try_clone(&self, alloc: Global) -> Result<DecimalBuffer, AllocError>
        ensures { IfOk result (λ b. b ≡ self.now) }
    {
        match self {
            DecimalBuffer::I8(values) => values.try_clone(alloc).map(DecimalBuffer::I8),
            DecimalBuffer::I16(values) => values.try_clone(alloc).map(DecimalBuffer::I16),
            DecimalBuffer::I32(values) => values.try_clone(alloc).map(DecimalBuffer::I32),
            DecimalBuffer::I64(values) => values.try_clone(alloc).map(DecimalBuffer::I64),
            DecimalBuffer::I128(values) => values.try_clone(alloc).map(DecimalBuffer::I128),
        }
    }
}

/// Decimals: their unscaled numbers, and how many digits they have.
pub struct Decimals {
    pub numbers: DecimalBuffer,
    pub digits: DecimalDType,
}

impl Drop for Decimals {
    fn drop(self) {
        let Decimals {
            numbers: _numbers,
            digits: _digits,
        } = self;
    }
}

impl Values for Decimals {
    ghost use Rattle.std.proofs.lemmas.List.{length-map};

    ghost type_of = { λ values n. dtype.Decimal values.digits n };

    ghost items = { λ values. map (λ n. value.Decimal n) (unscaled_of values.numbers) };

    ghost count_of = { λ values. length (unscaled_of values.numbers) };

    ghost counted = { λ values. length-map (unscaled_of values.numbers) (λ n. value.Decimal n) };

    ghost alike = { λ values m n. refl };

    fn count(&self) -> usize {
        self.numbers.len()
    }

    fn type_with(&self, nullability: Nullability) -> DType {
        DType::Decimal(self.digits, nullability)
    }

    #[inline]
    fn lend(&self, i: usize) -> ValueRef<'_> {
        ValueRef::Decimal(self.numbers.number_at(i))
    }

    fn copy(&self, alloc: Global) -> Result<Decimals, AllocError> {
        Ok(Decimals {
            numbers: self.numbers.try_clone(alloc)?,
            digits: self.digits,
        })
    }
}

/// A column of decimals. The unscaled number at a place is the row there where that row is not null.
pub type DecimalArray = PlainArray<Decimals>;

impl PlainArray<Decimals> {
    /// A column of these unscaled numbers. It is refused exactly where the validity has bits of another length.
    pub fn try_new(
        values: DecimalBuffer,
        decimal_dtype: DecimalDType,
        validity: Validity,
    ) -> Result<DecimalArray, LengthMismatch>
        ensures ok { IfOk result (λ a. a ≡ record { values = record { numbers = values; digits = decimal_dtype }; validity = validity }) }
        ensures fits { OnOk result (IsTrue (is_as_long validity (length (unscaled_of values)))) }
        ensures err { OnErr result (IsFalse (is_as_long validity (length (unscaled_of values)))) }
    {
        let decimals = Decimals {
            numbers: values,
            digits: decimal_dtype,
        };
        PlainArray::checked(decimals, validity)
    }

    /// The unscaled numbers.
    pub fn values(&self) -> &DecimalBuffer
        ensures value { result.now ≡ self.now.values.numbers }
        ensures fits { IsTrue (is_as_long self.now.validity (length (unscaled_of self.now.values.numbers))) }
    {
        &self.stored().numbers
    }

    /// How many digits the decimals have.
    pub fn decimal_dtype(&self) -> DecimalDType
        ensures { result ≡ self.now.values.digits }
    {
        self.stored().digits
    }
}
