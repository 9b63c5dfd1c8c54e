// For each place whether the number of parts lies in an interval. The widths are looked at once, outside the loops.
ghost use Rattle.std.specs.Prelude.{◌≡◌, IfOk, IsTrue, false, length, map, true};
ghost use Rattle.std.specs.Simd.Lanes.{zip2};
ghost use Rattle.vortex_array_types.specs.Row.{in_width};
ghost use Rattle.vortex_array_types.specs.Widths.{has_no_sign};
ghost use Rattle.vortex_array.specs.ColumnOf.{column_of};
ghost use Rattle.vortex_decimal_byte_parts.specs.Checked.{is_lower_type, is_msp_type};
ghost use Rattle.vortex_decimal_byte_parts.specs.Held.{lies_in, part_numbers, wide, within};

use crate::answers::equal_bits;
use crate::interval::{Interval, is_in};
use crate::numbers::{items_fit, number_in};
use crate::pairs::{Items, Pairs, PartNumbers, each_lower, each_msp, same_signed, same_unsigned};
use std::alloc::{AllocError, Global};
use vortex_array::{Array, NativeValue, PrimitiveBuffer};
use vortex_array_kinds::{PrimitiveWidth, each_width};
use vortex_buffer::BitBuffer;
use vortex_compute::{collect_bits, collect_lane_bits};

// Whether the numbers of two parts lie in an interval.
pub(crate) fn wide_bits(
    alloc: Global,
    msp: &Array,
    lower: &Array,
    interval: Interval,
) -> Result<BitBuffer, AllocError>
    requires msp { IsTrue (is_msp_type (column_of msp.now).dtype) }
    requires lower { IsTrue (is_lower_type (column_of lower.now).dtype) }
    requires same_length { length (part_numbers msp.now) ≡ length (part_numbers lower.now) }
    ensures { IfOk result (λ bits. bits ≡ map (lies_in interval) (zip2 wide (part_numbers msp.now) (part_numbers lower.now))) }
{
    each_msp!(msp, numbers => bits_beside(alloc, numbers, lower, interval))
}

// The same, where the numbers of the most significant part are at hand.
fn bits_beside<A: PartNumbers>(
    alloc: Global,
    msp: A,
    lower: &Array,
    interval: Interval,
) -> Result<BitBuffer, AllocError>
    requires signed { has_no_sign A.its_width ≡ false }
    requires lower { IsTrue (is_lower_type (column_of lower.now).dtype) }
    requires same_length { length (A.numbers msp) ≡ length (part_numbers lower.now) }
    ensures { IfOk result (λ bits. bits ≡ map (lies_in interval) (zip2 wide (A.numbers msp) (part_numbers lower.now))) }
{
    each_lower!(lower, numbers => bits_of_pairs(alloc, msp, numbers, interval))
}

// The same, where the numbers of both parts are.
fn bits_of_pairs<A: PartNumbers, B: PartNumbers>(
    alloc: Global,
    msp: A,
    lower: B,
    interval: Interval,
) -> Result<BitBuffer, AllocError>
    requires signed { has_no_sign A.its_width ≡ false }
    requires unsigned { has_no_sign B.its_width ≡ true }
    requires same_length { length (A.numbers msp) ≡ length (B.numbers lower) }
    ensures { IfOk result (λ bits. bits ≡ map (lies_in interval) (zip2 wide (A.numbers msp) (B.numbers lower))) }
{
    let pairs = Pairs { msp, lower };
    let bits = collect_lane_bits(alloc, &pairs, |number: i128| is_in(interval, number))?;
    Ok(bits)
}

// Whether the numbers of a most significant part alone lie in an interval.
pub(crate) fn narrow_bits(
    alloc: Global,
    msp: &Array,
    interval: Interval,
) -> Result<BitBuffer, AllocError>
    requires msp { IsTrue (is_msp_type (column_of msp.now).dtype) }
    requires inside { interval.outside ≡ false }
    ensures { IfOk result (λ bits. bits ≡ map (lies_in interval) (part_numbers msp.now)) }
{
    match msp {
        Array::Primitive(plain) => {
            each_width!(plain.values(), items => items_in(alloc, items.as_slice(), interval))
        }
        Array::Constant(constant) => {
            let bit = is_in(interval, number_in(constant.scalar()));
            let bits = equal_bits(alloc, bit, constant.len())?;
            Ok(bits)
        }
        _ => unreachable!(),
    }
}

// Whether items lie in an interval. Where the interval has all numbers of the width or none, no item is read.
fn items_in<T: PrimitiveWidth>(
    alloc: Global,
    items: &[T],
    interval: Interval,
) -> Result<BitBuffer, AllocError>
    requires inside { interval.outside ≡ false }
    ensures { IfOk result (λ bits. bits ≡ map (lies_in interval) (map T.number items.now)) }
{
    items_fit(items);
    let width = T::ptype();
    let least = interval.least.max(width.min_value());
    let greatest = interval.greatest.min(width.max_value());
    if least > greatest {
        let bits = equal_bits(alloc, false, items.len())?;
        return Ok(bits);
    }
    if least == width.min_value() && greatest == width.max_value() {
        let bits = equal_bits(alloc, true, items.len())?;
        return Ok(bits);
    }
    let bits = items_within(alloc, items, least, greatest)?;
    Ok(bits)
}

// Whether items lie between two numbers of their width.
fn items_within<T: PrimitiveWidth>(
    alloc: Global,
    items: &[T],
    least: i128,
    greatest: i128,
) -> Result<BitBuffer, AllocError>
    requires least { IsTrue (in_width T.width least) }
    requires greatest { IsTrue (in_width T.width greatest) }
    ensures { IfOk result (λ bits. bits ≡ map (within least greatest) (map T.number items.now)) }
{
    match (T::from_value(least), T::from_value(greatest)) {
        (Some(least), Some(greatest)) => items_between(alloc, items, least, greatest),
        _ => unreachable!(),
    }
}

// Whether items lie between two items.
#[inline]
fn items_between<T: PrimitiveWidth>(
    alloc: Global,
    items: &[T],
    least: T,
    greatest: T,
) -> Result<BitBuffer, AllocError>
    ensures { IfOk result (λ bits. bits ≡ map (within (T.number least) (T.number greatest)) (map T.number items.now)) }
{
    let bits = collect_bits(alloc, items, |item: T| is_between(item, least, greatest))?;
    Ok(bits)
}

// Whether an item lies between two items.
#[inline(always)]
fn is_between<T: PrimitiveWidth>(item: T, least: T, greatest: T) -> bool
    ensures { result ≡ within (T.number least) (T.number greatest) (T.number item) }
{
    item.cmp(&least).is_ge() && item.cmp(&greatest).is_le()
}
