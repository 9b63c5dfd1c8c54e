// Texts and bytes compared by their bytes, which are lent.
ghost use Rattle.std.specs.Prelude.{◌≡◌, length, map};
ghost use Rattle.std.specs.Cmp.Lexicographic.{slice_cmp};
ghost use Rattle.std.specs.Ordering.{is_eq, nat_cmp};
ghost use Rattle.std.specs.Simd.Lanes.{zip2};
ghost use Rattle.vortex_array_lists.specs.Fronts.{front_number};

use crate::compare::CompareValues;
use crate::orders::compare_equal_or_orders;
use std::alloc::{AllocError, Global};
use std::cmp::Ordering;
use vortex_array_kinds::Strings;
use vortex_array_lists::{ByteLists, front_of};
use vortex_array_types::{CompareOperator, ValueRef};
use vortex_buffer::BitBuffer;
use vortex_compute::IndexedSource;

// Strings, as many on both sides: how those at each place stand.
#[derive(Clone, Copy)]
struct StringPairs<'a> {
    left: &'a ByteLists,
    right: &'a ByteLists,
    ghost same_length: { length left.now ≡ length right.now },
}

impl IndexedSource for StringPairs<'_> {
    type Item = Ordering;

    ghost lanes = { λ s. zip2 (slice_cmp nat_cmp) s.left.now s.right.now };

    #[inline(always)]
    fn len(&self) -> usize {
        self.left.len()
    }

    #[inline(always)]
    fn get(&self, i: usize) -> Ordering {
        self.left.compare(i, self.right, i)
    }
}

// Strings and one more: how each of them stands to it. Most are settled by their fronts, without a look at further bytes.
#[derive(Clone, Copy)]
struct StringsBeside<'a> {
    lists: &'a ByteLists,
    constant: &'a [u8],
    front: u64,
    ghost front_is: { front ≡ front_number constant.now },
}

impl IndexedSource for StringsBeside<'_> {
    type Item = Ordering;

    ghost lanes = { λ s. map (λ x. slice_cmp nat_cmp x s.constant.now) s.lists.now };

    #[inline(always)]
    fn len(&self) -> usize {
        self.lists.len()
    }

    #[inline(always)]
    fn get(&self, i: usize) -> Ordering {
        self.lists.compare_with(i, self.constant, self.front)
    }
}

// Strings, as many on both sides: whether those at each place are equal. Their lengths are asked first.
#[derive(Clone, Copy)]
struct EqualPairs<'a> {
    left: &'a ByteLists,
    right: &'a ByteLists,
    ghost same_length: { length left.now ≡ length right.now },
}

impl IndexedSource for EqualPairs<'_> {
    type Item = bool;

    ghost lanes = { λ s. zip2 (λ x y. is_eq (slice_cmp nat_cmp x y)) s.left.now s.right.now };

    #[inline(always)]
    fn len(&self) -> usize {
        self.left.len()
    }

    #[inline(always)]
    fn get(&self, i: usize) -> bool {
        self.left.equals(i, self.right, i)
    }
}

// Strings and one more: whether each of them is that one. Their lengths are asked first.
#[derive(Clone, Copy)]
struct EqualBeside<'a> {
    lists: &'a ByteLists,
    constant: &'a [u8],
    front: u64,
    ghost front_is: { front ≡ front_number constant.now },
}

impl IndexedSource for EqualBeside<'_> {
    type Item = bool;

    ghost lanes = { λ s. map (λ x. is_eq (slice_cmp nat_cmp x s.constant.now)) s.lists.now };

    #[inline(always)]
    fn len(&self) -> usize {
        self.lists.len()
    }

    #[inline(always)]
    fn get(&self, i: usize) -> bool {
        self.lists.equals_with(i, self.constant, self.front)
    }
}

impl CompareValues for Strings {
    fn compare_each(
        &self,
        alloc: Global,
        other: &Strings,
        operator: CompareOperator,
    ) -> Result<BitBuffer, AllocError> {
        let (left, right) = (self.lists(), other.lists());
        let equal = EqualPairs { left, right };
        let orders = StringPairs { left, right };
        let bits = compare_equal_or_orders(alloc, &equal, &orders, operator)?;
        Ok(bits)
    }

    fn compare_with(
        &self,
        alloc: Global,
        value: ValueRef<'_>,
        operator: CompareOperator,
    ) -> Result<BitBuffer, AllocError> {
        let lists = self.lists();
        let constant = self.kind().bytes_in(value);
        let front = front_of(constant);
        let equal = EqualBeside {
            lists,
            constant,
            front,
        };
        let orders = StringsBeside {
            lists,
            constant,
            front,
        };
        let bits = compare_equal_or_orders(alloc, &equal, &orders, operator)?;
        Ok(bits)
    }
}
