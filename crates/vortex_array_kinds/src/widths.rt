// The native types in which whole numbers are kept, one trait for the eight widths.
ghost use Rattle.std.specs.Prelude.{◌≡◌, pos, IfSome, is_some, map};
ghost use Rattle.std.specs.Ordering.{int_cmp};
ghost use Rattle.vortex_array_types.specs.NumberOrder.{integers_ordered, naturals_ordered};
ghost use Rattle.vortex_array_types.specs.Row.{in_width};
ghost use Rattle.vortex_array_types.specs.declared.types.PType.TheVariants as widths;
ghost use Rattle.vortex_array_kinds.specs.Kinds.{numbers_of, ptype_of};
ghost use Rattle.vortex_array_kinds.specs.Numbers.{wide_number};

use crate::primitives::PrimitiveBuffer;
use vortex_array_types::{NativeValue, item_if};
use vortex_buffer::Buffer;

/// A number of 64 bits, with a sign or without: one of any width stands in it.
#[derive(Clone, Copy)]
pub enum WideNumber {
    /// A number with a sign.
    Signed(i64),
    /// A number from 0 on.
    Unsigned(u64),
}

/// A native type of whole numbers as columns use it: its order is that of its numbers, its items are a buffer of its width,
/// and each is written in another width by native instructions. A number of any width but `u64` goes out as an `i64`, which
/// holds it; one of `u64` as it is. So the eight widths need two ways in and one way out each.
pub trait PrimitiveWidth: NativeValue + Ord {
    /// The numbers of a buffer of this width.
    fn items(buffer: &PrimitiveBuffer) -> &Buffer<Self>
        requires { ptype_of buffer.now ≡ Self.width }
        ensures { numbers_of buffer.now ≡ map Self.number result.now };

    /// The buffer of these numbers. It takes no memory.
    fn into_buffer(items: Buffer<Self>) -> PrimitiveBuffer
        ensures numbers { numbers_of result ≡ map Self.number items }
        ensures width { ptype_of result ≡ Self.width };

    /// The item of a number, or none exactly where it is outside the width.
    fn from_signed(number: i64) -> Option<Self>
        ensures value { IfSome result (λ x. Self.number x ≡ number) }
        ensures within { is_some result ≡ in_width Self.width number };

    /// The item of a number, or none exactly where it is outside the width.
    fn from_unsigned(number: u64) -> Option<Self>
        ensures value { IfSome result (λ x. Self.number x ≡ pos number) }
        ensures within { is_some result ≡ in_width Self.width (pos number) };

    /// The number of an item.
    fn wide(self) -> WideNumber
        ensures { wide_number result ≡ Self.number self };

    ghost ordered: { (x y : Self) → Self.cmp x y ≡ int_cmp (Self.number x) (Self.number y) };
}

/// The item of the same number in another width, or none exactly where it is outside. Where the new width holds all numbers
/// of the old one, no test is left once a pair of widths is compiled.
#[inline(always)]
pub fn convert<T: PrimitiveWidth, U: PrimitiveWidth>(item: T) -> Option<U>
    ensures value { IfSome result (λ x. U.number x ≡ T.number item) }
    ensures within { is_some result ≡ in_width U.width (T.number item) }
{
    match item.wide() {
        WideNumber::Signed(number) => U::from_signed(number),
        WideNumber::Unsigned(number) => U::from_unsigned(number),
    }
}

impl PrimitiveWidth for u8 {
    ghost ordered = { naturals_ordered };

    fn items(buffer: &PrimitiveBuffer) -> &Buffer<u8> {
        match buffer {
            PrimitiveBuffer::U8(items) => items,
            _ => unreachable!(),
        }
    }

    fn into_buffer(items: Buffer<u8>) -> PrimitiveBuffer
        ensures numbers { numbers_of result ≡ map (λ x. pos x) items }
        ensures width { ptype_of result ≡ widths.U8 }
    {
        PrimitiveBuffer::U8(items)
    }

    #[inline(always)]
    fn from_signed(number: i64) -> Option<u8> {
        item_if!(number >= 0 && number < 256, number as u8)
    }

    #[inline(always)]
    fn from_unsigned(number: u64) -> Option<u8> {
        item_if!(number < 256, number as u8)
    }

    #[inline(always)]
    fn wide(self) -> WideNumber {
        WideNumber::Signed(self as i64)
    }
}

impl PrimitiveWidth for u16 {
    ghost ordered = { naturals_ordered };

    fn items(buffer: &PrimitiveBuffer) -> &Buffer<u16> {
        match buffer {
            PrimitiveBuffer::U16(items) => items,
            _ => unreachable!(),
        }
    }

    fn into_buffer(items: Buffer<u16>) -> PrimitiveBuffer
        ensures numbers { numbers_of result ≡ map (λ x. pos x) items }
        ensures width { ptype_of result ≡ widths.U16 }
    {
        PrimitiveBuffer::U16(items)
    }

    #[inline(always)]
    fn from_signed(number: i64) -> Option<u16> {
        item_if!(number >= 0 && number < 65536, number as u16)
    }

    #[inline(always)]
    fn from_unsigned(number: u64) -> Option<u16> {
        item_if!(number < 65536, number as u16)
    }

    #[inline(always)]
    fn wide(self) -> WideNumber {
        WideNumber::Signed(self as i64)
    }
}

impl PrimitiveWidth for u32 {
    ghost ordered = { naturals_ordered };

    fn items(buffer: &PrimitiveBuffer) -> &Buffer<u32> {
        match buffer {
            PrimitiveBuffer::U32(items) => items,
            _ => unreachable!(),
        }
    }

    fn into_buffer(items: Buffer<u32>) -> PrimitiveBuffer
        ensures numbers { numbers_of result ≡ map (λ x. pos x) items }
        ensures width { ptype_of result ≡ widths.U32 }
    {
        PrimitiveBuffer::U32(items)
    }

    #[inline(always)]
    fn from_signed(number: i64) -> Option<u32> {
        item_if!(number >= 0 && number < 4294967296, number as u32)
    }

    #[inline(always)]
    fn from_unsigned(number: u64) -> Option<u32> {
        item_if!(number < 4294967296, number as u32)
    }

    #[inline(always)]
    fn wide(self) -> WideNumber {
        WideNumber::Signed(self as i64)
    }
}

impl PrimitiveWidth for u64 {
    ghost ordered = { naturals_ordered };

    fn items(buffer: &PrimitiveBuffer) -> &Buffer<u64> {
        match buffer {
            PrimitiveBuffer::U64(items) => items,
            _ => unreachable!(),
        }
    }

    fn into_buffer(items: Buffer<u64>) -> PrimitiveBuffer
        ensures numbers { numbers_of result ≡ map (λ x. pos x) items }
        ensures width { ptype_of result ≡ widths.U64 }
    {
        PrimitiveBuffer::U64(items)
    }

    #[inline(always)]
    fn from_signed(number: i64) -> Option<u64> {
        item_if!(number >= 0, number as u64)
    }

    #[inline(always)]
    fn from_unsigned(number: u64) -> Option<u64> {
        Some(number)
    }

    #[inline(always)]
    fn wide(self) -> WideNumber {
        WideNumber::Unsigned(self)
    }
}

impl PrimitiveWidth for i8 {
    ghost ordered = { integers_ordered };

    fn items(buffer: &PrimitiveBuffer) -> &Buffer<i8> {
        match buffer {
            PrimitiveBuffer::I8(items) => items,
            _ => unreachable!(),
        }
    }

    fn into_buffer(items: Buffer<i8>) -> PrimitiveBuffer
        ensures numbers { numbers_of result ≡ map (λ x. x) items }
        ensures width { ptype_of result ≡ widths.I8 }
    {
        PrimitiveBuffer::I8(items)
    }

    #[inline(always)]
    fn from_signed(number: i64) -> Option<i8> {
        item_if!(number >= -128 && number < 128, number as i8)
    }

    #[inline(always)]
    fn from_unsigned(number: u64) -> Option<i8> {
        item_if!(number < 128, number as i8)
    }

    #[inline(always)]
    fn wide(self) -> WideNumber {
        WideNumber::Signed(self as i64)
    }
}

impl PrimitiveWidth for i16 {
    ghost ordered = { integers_ordered };

    fn items(buffer: &PrimitiveBuffer) -> &Buffer<i16> {
        match buffer {
            PrimitiveBuffer::I16(items) => items,
            _ => unreachable!(),
        }
    }

    fn into_buffer(items: Buffer<i16>) -> PrimitiveBuffer
        ensures numbers { numbers_of result ≡ map (λ x. x) items }
        ensures width { ptype_of result ≡ widths.I16 }
    {
        PrimitiveBuffer::I16(items)
    }

    #[inline(always)]
    fn from_signed(number: i64) -> Option<i16> {
        item_if!(number >= -32768 && number < 32768, number as i16)
    }

    #[inline(always)]
    fn from_unsigned(number: u64) -> Option<i16> {
        item_if!(number < 32768, number as i16)
    }

    #[inline(always)]
    fn wide(self) -> WideNumber {
        WideNumber::Signed(self as i64)
    }
}

impl PrimitiveWidth for i32 {
    ghost ordered = { integers_ordered };

    fn items(buffer: &PrimitiveBuffer) -> &Buffer<i32> {
        match buffer {
            PrimitiveBuffer::I32(items) => items,
            _ => unreachable!(),
        }
    }

    fn into_buffer(items: Buffer<i32>) -> PrimitiveBuffer
        ensures numbers { numbers_of result ≡ map (λ x. x) items }
        ensures width { ptype_of result ≡ widths.I32 }
    {
        PrimitiveBuffer::I32(items)
    }

    #[inline(always)]
    fn from_signed(number: i64) -> Option<i32> {
        item_if!(number >= -2147483648 && number < 2147483648, number as i32)
    }

    #[inline(always)]
    fn from_unsigned(number: u64) -> Option<i32> {
        item_if!(number < 2147483648, number as i32)
    }

    #[inline(always)]
    fn wide(self) -> WideNumber {
        WideNumber::Signed(self as i64)
    }
}

impl PrimitiveWidth for i64 {
    ghost ordered = { integers_ordered };

    fn items(buffer: &PrimitiveBuffer) -> &Buffer<i64> {
        match buffer {
            PrimitiveBuffer::I64(items) => items,
            _ => unreachable!(),
        }
    }

    fn into_buffer(items: Buffer<i64>) -> PrimitiveBuffer
        ensures numbers { numbers_of result ≡ map (λ x. x) items }
        ensures width { ptype_of result ≡ widths.I64 }
    {
        PrimitiveBuffer::I64(items)
    }

    #[inline(always)]
    fn from_signed(number: i64) -> Option<i64> {
        Some(number)
    }

    #[inline(always)]
    fn from_unsigned(number: u64) -> Option<i64> {
        item_if!(number < 9223372036854775808, number as i64)
    }

    #[inline(always)]
    fn wide(self) -> WideNumber {
        WideNumber::Signed(self)
    }
}
