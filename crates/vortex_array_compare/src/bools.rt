// Truth values compared: false is below true.

use crate::compare::CompareValues;
use crate::orders::compare_lanes;
use std::alloc::{AllocError, Global};
use vortex_array_types::{CompareOperator, ValueRef};
use vortex_buffer::BitBuffer;
use vortex_compute::{IndexedSource, Repeat};

// The bits of a buffer, as lanes.
#[derive(Clone, Copy)]
struct BitLanes<'a> {
    bits: &'a BitBuffer,
}

impl IndexedSource for BitLanes<'_> {
    type Item = bool;

    ghost lanes = { λ s. s.bits.now };

    #[inline(always)]
    fn len(&self) -> usize {
        self.bits.len()
    }

    #[inline(always)]
    fn get(&self, i: usize) -> bool {
        self.bits.value(i)
    }
}

impl CompareValues for BitBuffer {
    fn compare_each(
        &self,
        alloc: Global,
        other: &BitBuffer,
        operator: CompareOperator,
    ) -> Result<BitBuffer, AllocError> {
        let bits = compare_lanes(
            alloc,
            BitLanes { bits: self },
            BitLanes { bits: other },
            operator,
        )?;
        Ok(bits)
    }

    fn compare_with(
        &self,
        alloc: Global,
        value: ValueRef<'_>,
        operator: CompareOperator,
    ) -> Result<BitBuffer, AllocError> {
        match value {
            ValueRef::Bool(bit) => {
                let same = Repeat::new(bit, self.len());
                let bits = compare_lanes(alloc, BitLanes { bits: self }, same, operator)?;
                Ok(bits)
            }
            _ => unreachable!(),
        }
    }
}
