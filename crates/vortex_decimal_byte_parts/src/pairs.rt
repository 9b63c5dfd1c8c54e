// The numbers of two parts, one beside the other. Nothing is kept of a pair: each is made where it is asked for.
ghost use Rattle.std.specs.Prelude.{◌≡◌, ◌<◌, ℤ, IfOk, IsTrue, List, false, length, map, pos, replicate, slice_index_or, true};
ghost use Rattle.std.specs.Simd.Lanes.{zip2};
ghost use Rattle.vortex_array_types.specs.Row.{in_width};
ghost use Rattle.vortex_array_types.specs.Widths.{has_no_sign};
ghost use Rattle.vortex_array_types.specs.declared.types.PType.{PType};
ghost use Rattle.vortex_array.specs.ColumnOf.{constant_column};
ghost use Rattle.vortex_array.specs.Single.{number_held};
ghost use Rattle.vortex_decimal_byte_parts.specs.Checked.{is_lower_type, is_msp_type};
ghost use Rattle.vortex_decimal_byte_parts.specs.Held.{wide};

use crate::numbers::number_in;
use std::alloc::{AllocError, Global};
use vortex_array::{ConstantArray, NativeValue};
use vortex_array_kinds::PrimitiveWidth;
use vortex_compute::IndexedSource;

// The numbers of a part, one for each row, all of one width.
pub(crate) trait PartNumbers: Copy {
    ghost numbers: { Self → List ℤ };

    ghost its_width: { PType };

    // How many there are.
    fn count(&self) -> usize
        ensures { result ≡ length (numbers self.now) };

    // The number at a place.
    fn number(&self, i: usize) -> i128
        requires { i < length (numbers self.now) }
        ensures value { result ≡ slice_index_or (numbers self.now) i (pos 0) }
        ensures within { IsTrue (in_width its_width result) };
}

// Items of a native type.
#[derive(Clone, Copy)]
pub(crate) struct Items<'a, T: PrimitiveWidth> {
    items: &'a [T],
}

impl<'a, T: PrimitiveWidth> Items<'a, T> {
    #[inline(always)]
    pub(crate) fn new(items: &'a [T]) -> Self
        ensures { result.items ≡ items.entry }
    {
        Items { items }
    }
}

impl<T: PrimitiveWidth> PartNumbers for Items<'_, T> {
    ghost numbers = { λ s. map T.number s.items.now };

    ghost its_width = { T.width };

    #[inline(always)]
    fn count(&self) -> usize {
        self.items.len()
    }

    #[inline(always)]
    fn number(&self, i: usize) -> i128 {
        self.items[i].value()
    }
}

// One item of a native type, so many times.
#[derive(Clone, Copy)]
pub(crate) struct Same<T: PrimitiveWidth> {
    item: T,
    len: usize,
}

impl<T: PrimitiveWidth> Same<T> {
    #[inline(always)]
    pub(crate) fn new(item: T, len: usize) -> Self
        ensures item { result.item ≡ item }
        ensures len { result.len ≡ len }
    {
        Same { item, len }
    }
}

impl<T: PrimitiveWidth> PartNumbers for Same<T> {
    ghost numbers = { λ s. replicate s.len (T.number s.item) };

    ghost its_width = { T.width };

    #[inline(always)]
    fn count(&self) -> usize {
        self.len
    }

    #[inline(always)]
    fn number(&self, _i: usize) -> i128 {
        self.item.value()
    }
}

// The numbers of two parts of as many rows.
#[derive(Drop)]
pub(crate) struct Pairs<A: PartNumbers, B: PartNumbers> {
    pub msp: A,
    pub lower: B,
    ghost same_length: { length (A.numbers msp) ≡ length (B.numbers lower) },
    ghost signed: { has_no_sign A.its_width ≡ false },
    ghost unsigned: { has_no_sign B.its_width ≡ true },
}

impl<A: PartNumbers, B: PartNumbers> IndexedSource for Pairs<A, B> {
    type Item = i128;

    ghost lanes = { λ s. zip2 wide (A.numbers s.msp) (B.numbers s.lower) };

    #[inline(always)]
    fn len(&self) -> usize {
        self.msp.count()
    }

    #[inline(always)]
    fn get(&self, i: usize) -> i128 {
        self.msp.number(i) * 18446744073709551616 + self.lower.number(i)
    }
}

// The lanes of a source, as a vector.
pub(crate) fn collect_lanes<S: IndexedSource<Item = i128>>(
    alloc: Global,
    source: &S,
) -> Result<Vec<i128>, AllocError>
    ensures { IfOk result (λ lanes. lanes.items ≡ S.lanes source.now) }
{
    let mut lanes = Vec::with_capacity(alloc, source.len())?;
    for i in 0..source.len() {
        lanes.push(source.get(i))?;
    }
    Ok(lanes)
}

// What the expression is for the numbers of a most significant part, whatever its width.
macro_rules! each_msp {
    ($part:expr, $numbers:ident => $answer:expr) => {
        match $part {
            Array::Primitive(plain) => match plain.values() {
                PrimitiveBuffer::I8(items) => {
                    let $numbers = Items::new(items.as_slice());
                    $answer
                }
                PrimitiveBuffer::I16(items) => {
                    let $numbers = Items::new(items.as_slice());
                    $answer
                }
                PrimitiveBuffer::I32(items) => {
                    let $numbers = Items::new(items.as_slice());
                    $answer
                }
                PrimitiveBuffer::I64(items) => {
                    let $numbers = Items::new(items.as_slice());
                    $answer
                }
                _ => unreachable!(),
            },
            Array::Constant(constant) => {
                let $numbers = same_signed(constant);
                $answer
            }
            _ => unreachable!(),
        }
    };
}

// The same for those of a lower part.
macro_rules! each_lower {
    ($part:expr, $numbers:ident => $answer:expr) => {
        match $part {
            Array::Primitive(plain) => match plain.values() {
                PrimitiveBuffer::U8(items) => {
                    let $numbers = Items::new(items.as_slice());
                    $answer
                }
                PrimitiveBuffer::U16(items) => {
                    let $numbers = Items::new(items.as_slice());
                    $answer
                }
                PrimitiveBuffer::U32(items) => {
                    let $numbers = Items::new(items.as_slice());
                    $answer
                }
                PrimitiveBuffer::U64(items) => {
                    let $numbers = Items::new(items.as_slice());
                    $answer
                }
                _ => unreachable!(),
            },
            Array::Constant(constant) => {
                let $numbers = same_unsigned(constant);
                $answer
            }
            _ => unreachable!(),
        }
    };
}

pub(crate) use each_lower;
pub(crate) use each_msp;

// The equal numbers of a most significant part.
pub(crate) fn same_signed(constant: &ConstantArray) -> Same<i64>
    requires { IsTrue (is_msp_type (constant_column constant.now).dtype) }
    ensures { replicate result.len result.item ≡ replicate constant.now.len (number_held constant.now.scalar.value) }
{
    match i64::from_value(number_in(constant.scalar())) {
        Some(item) => Same::new(item, constant.len()),
        None => unreachable!(),
    }
}

// The equal numbers of a lower part.
pub(crate) fn same_unsigned(constant: &ConstantArray) -> Same<u64>
    requires { IsTrue (is_lower_type (constant_column constant.now).dtype) }
    ensures { replicate result.len (pos result.item) ≡ replicate constant.now.len (number_held constant.now.scalar.value) }
{
    match u64::from_value(number_in(constant.scalar())) {
        Some(item) => Same::new(item, constant.len()),
        None => unreachable!(),
    }
}
