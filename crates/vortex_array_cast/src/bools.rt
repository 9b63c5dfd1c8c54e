// Truth values cast and filled, word by word.
ghost use Rattle.std.specs.Prelude.{◌≡◌, IsTrue, IfOk, length};
ghost use Rattle.vortex_array_kinds.specs.Validities.{is_as_long, valid_bits};
ghost use Rattle.vortex_array_cast.specs.Filled.{filled_items};

use crate::cast::{CastValues, cast_same};
use crate::fill::FillValues;
use std::alloc::{AllocError, Global};
use vortex_array_kinds::Validity;
use vortex_array_types::{DType, ValueRef};
use vortex_buffer::BitBuffer;

impl CastValues for BitBuffer {
    fn cast_values(&self, alloc: Global, dtype: &DType) -> Result<(BitBuffer, bool), AllocError> {
        cast_same(alloc, self, dtype)
    }
}

impl FillValues for BitBuffer {
    fn fill_values(
        &self,
        alloc: Global,
        validity: &Validity,
        fill: ValueRef<'_>,
    ) -> Result<BitBuffer, AllocError> {
        match fill {
            ValueRef::Bool(bit) => {
                let filled = fill_bits(alloc, self, validity, bit)?;
                Ok(filled)
            }
            _ => unreachable!(),
        }
    }
}

// The bits, and the fill at the places that are not valid.
fn fill_bits(
    alloc: Global,
    bits: &BitBuffer,
    validity: &Validity,
    fill: bool,
) -> Result<BitBuffer, AllocError>
    requires long { IsTrue (is_as_long validity.now (length bits.now)) }
    ensures { IfOk result (λ b. b ≡ filled_items fill bits.now (valid_bits validity.now (length bits.now))) }
{
    let valid = validity.to_bits(alloc, bits.len())?;
    if fill {
        let filled = valid.not(alloc)?;
        bits.or(alloc, &filled)
    } else {
        bits.and(alloc, &valid)
    }
}
