// Columns of truth values, which are kept as bits.
ghost use Rattle.std.specs.Prelude.{◌≡◌, IsTrue, IsFalse, IfOk, OnOk, OnErr, length, map, refl};
ghost use Rattle.vortex_array_types.specs.declared.scalar.Value.TheVariants as value;
ghost use Rattle.vortex_array_types.specs.declared.types.DType.TheVariants as dtype;
ghost use Rattle.vortex_array_kinds.specs.Validities.{is_as_long};

use crate::plain::PlainArray;
use crate::validity::{LengthMismatch, Validity};
use crate::values::Values;
use std::alloc::{AllocError, Global};
use vortex_array_types::{DType, Nullability, ValueRef};
use vortex_buffer::BitBuffer;

impl Values for BitBuffer {
    ghost use Rattle.std.proofs.lemmas.List.{length-map};

    ghost type_of = { λ bits n. dtype.Bool n };

    ghost items = { λ bits. map (λ b. value.Bool b) bits };

    ghost count_of = { λ bits. length bits };

    ghost counted = { λ bits. length-map bits (λ b. value.Bool b) };

    ghost alike = { λ bits m n. refl };

    fn count(&self) -> usize {
        self.len()
    }

    fn type_with(&self, nullability: Nullability) -> DType {
        DType::Bool(nullability)
    }

    #[inline]
    fn lend(&self, i: usize) -> ValueRef<'_> {
        ValueRef::Bool(self.value(i))
    }

    fn copy(&self, alloc: Global) -> Result<BitBuffer, AllocError> {
        self.try_clone(alloc)
    }
}

/// A column of truth values. The bit at a place is the row there where that row is not null.
pub type BoolArray = PlainArray<BitBuffer>;

impl PlainArray<BitBuffer> {
    /// A column of these bits. It is refused exactly where the validity has bits of another length.
    pub fn try_new(bits: BitBuffer, validity: Validity) -> Result<BoolArray, LengthMismatch>
        ensures ok { IfOk result (λ a. a ≡ record { values = bits; validity = validity }) }
        ensures fits { OnOk result (IsTrue (is_as_long validity (length bits))) }
        ensures err { OnErr result (IsFalse (is_as_long validity (length bits))) }
    {
        PlainArray::checked(bits, validity)
    }

    /// The bits.
    pub fn bits(&self) -> &BitBuffer
        ensures value { result.now ≡ self.now.values }
        ensures fits { IsTrue (is_as_long self.now.validity (length self.now.values)) }
    {
        self.stored()
    }
}
