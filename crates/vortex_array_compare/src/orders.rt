// How pairs of lanes stand, and whether an operator holds of them.
ghost use Rattle.std.specs.Prelude.{◌≡◌, IfOk, length, map};
ghost use Rattle.std.specs.Ordering.{is_eq};
ghost use Rattle.std.specs.Simd.Lanes.{zip2};
ghost use Rattle.vortex_array_types.specs.Order.{accepts};

use std::alloc::{AllocError, Global};
use std::cmp::Ordering;
use vortex_buffer::BitBuffer;
use vortex_compute::{CompareOperator, IndexedSource, collect_lane_bits};

// Bits of which bit `i` is whether the operator holds of two values that stand as lane `i` says. The operator is looked
// at once, outside the loop.
#[inline]
pub(crate) fn compare_orders<S: IndexedSource<Item = Ordering>>(
    alloc: Global,
    orders: &S,
    operator: CompareOperator,
) -> Result<BitBuffer, AllocError>
    ensures { IfOk result (λ bits. bits ≡ map (accepts operator) (S.lanes orders.now)) }
{
    match operator {
        CompareOperator::Eq => collect_lane_bits(alloc, orders, |order: Ordering| order.is_eq()),
        CompareOperator::NotEq => collect_lane_bits(alloc, orders, |order: Ordering| order.is_ne()),
        CompareOperator::Gt => collect_lane_bits(alloc, orders, |order: Ordering| order.is_gt()),
        CompareOperator::Gte => collect_lane_bits(alloc, orders, |order: Ordering| order.is_ge()),
        CompareOperator::Lt => collect_lane_bits(alloc, orders, |order: Ordering| order.is_lt()),
        CompareOperator::Lte => collect_lane_bits(alloc, orders, |order: Ordering| order.is_le()),
    }
}

// Bits that are the truths of a source.
#[inline]
pub(crate) fn truth_bits<S: IndexedSource<Item = bool>>(
    alloc: Global,
    truths: &S,
) -> Result<BitBuffer, AllocError>
    ensures { IfOk result (λ bits. bits ≡ S.lanes truths.now) }
{
    let bits = collect_lane_bits(alloc, truths, |truth: bool| truth)?;
    Ok(bits)
}

// The bits of `compare_orders`, where whether two values are equal is told sooner than how they stand.
pub(crate) fn compare_equal_or_orders<
    E: IndexedSource<Item = bool>,
    S: IndexedSource<Item = Ordering>,
>(alloc: Global, equal: &E, orders: &S, operator: CompareOperator) -> Result<BitBuffer, AllocError>
    requires equal { E.lanes equal.now ≡ map is_eq (S.lanes orders.now) }
    ensures { IfOk result (λ bits. bits ≡ map (accepts operator) (S.lanes orders.now)) }
{
    match operator {
        CompareOperator::Eq => truth_bits(alloc, equal),
        CompareOperator::NotEq => {
            let same = truth_bits(alloc, equal)?;
            same.not(alloc)
        }
        _ => compare_orders(alloc, orders, operator),
    }
}

// Two sources of one length: how their lanes at each place stand.
#[derive(Drop)]
struct Pairs<A: IndexedSource + Copy, B: IndexedSource + Copy> {
    left: A,
    right: B,
    ghost same_length: { length (A.lanes left) ≡ length (B.lanes right) },
}

impl<
    T: Ord + Copy,
    A: IndexedSource<Item = T> + Copy,
    B: IndexedSource<Item = T> + Copy,
> IndexedSource for Pairs<A, B> {
    type Item = Ordering;

    ghost lanes = { λ s. zip2 T.cmp (A.lanes s.left) (B.lanes s.right) };

    #[inline(always)]
    fn len(&self) -> usize {
        self.left.len()
    }

    #[inline(always)]
    fn get(&self, i: usize) -> Ordering {
        self.left.get(i).cmp(&self.right.get(i))
    }
}

// Bits of which bit `i` is whether the operator holds of the lanes `i` of two sources of one length.
#[inline]
pub(crate) fn compare_lanes<
    T: Ord + Copy,
    A: IndexedSource<Item = T> + Copy,
    B: IndexedSource<Item = T> + Copy,
>(alloc: Global, left: A, right: B, operator: CompareOperator) -> Result<BitBuffer, AllocError>
    requires same_length { length (A.lanes left) ≡ length (B.lanes right) }
    ensures { IfOk result (λ bits. bits ≡ map (accepts operator) (zip2 T.cmp (A.lanes left) (B.lanes right))) }
{
    let bits = compare_orders(alloc, &Pairs { left, right }, operator)?;
    Ok(bits)
}
