// Which rows of a column are not null.
ghost use Rattle.std.specs.Prelude.{◌≡◌, IfOk, option_map};
ghost use Rattle.vortex_buffer.specs.Mask.{mask_bits};
ghost use Rattle.vortex_array_kinds.specs.Validities.{has_none, is_as_long, nullability_of, nullable_validity, row_of, valid_at, valid_bits};
ghost use Rattle.vortex_array_types.specs.Seen.{value_seen};

use std::alloc::{AllocError, Global};
use thiserror::Error;
use vortex_array_types::{Nullability, ValueRef};
use vortex_buffer::{BitBuffer, Mask};

/// An array and its validity have different lengths.
#[derive(Clone, Copy, Debug, PartialEq, Eq, Error)]
#[error("the lengths differ")]
pub struct LengthMismatch;

/// Which rows are not null. All but the first make a nullable type.
pub enum Validity {
    /// Every row is a value, and the type has no nulls.
    NonNullable,
    /// Every row is a value.
    AllValid,
    /// Every row is null.
    AllInvalid,
    /// The rows whose bit is set are values.
    Bits(BitBuffer),
}

impl Drop for Validity {
    fn drop(self) {
        match self {
            Validity::NonNullable => {}
            Validity::AllValid => {}
            Validity::AllInvalid => {}
            Validity::Bits(_part) => {}
        }
    }
}

impl Validity {
    /// Whether the type that it makes has nulls.
    pub fn nullability(&self) -> Nullability
        ensures { result ≡ nullability_of self.now }
    {
        match self {
            Validity::NonNullable => Nullability::NonNullable,
            Validity::AllValid | Validity::AllInvalid | Validity::Bits(_) => Nullability::Nullable,
        }
    }

    /// Whether it speaks of so many rows: bits have a length of their own, and all else speaks of any number.
    pub fn is_as_long(&self, len: usize) -> bool
        ensures { result ≡ is_as_long self.now len }
    {
        match self {
            Validity::NonNullable | Validity::AllValid | Validity::AllInvalid => true,
            Validity::Bits(bits) => bits.len() == len,
        }
    }

    /// Whether it says of no row, however many there are, that it is null. Bits may say so, and are not looked at.
    pub fn has_none(&self) -> bool
        ensures { result ≡ has_none self.now }
    {
        match self {
            Validity::NonNullable | Validity::AllValid => true,
            Validity::AllInvalid | Validity::Bits(_) => false,
        }
    }

    /// Whether the row at a place is not null. Past the end of bits no row is.
    #[inline]
    pub fn is_valid(&self, i: usize) -> bool
        ensures { result ≡ valid_at self.now i }
    {
        match self {
            Validity::NonNullable | Validity::AllValid => true,
            Validity::AllInvalid => false,
            Validity::Bits(bits) => i < bits.len() && bits.value(i),
        }
    }

    /// For each of so many rows whether it is not null. Bits have that length.
    pub fn mask(&self, alloc: Global, len: usize) -> Result<Mask, AllocError>
        ensures { IfOk result (λ mask. mask_bits mask ≡ valid_bits self.now len) }
    {
        match self {
            Validity::NonNullable | Validity::AllValid => Ok(Mask::new_true(len)),
            Validity::AllInvalid => Ok(Mask::new_false(len)),
            Validity::Bits(bits) => Ok(Mask::from_buffer(bits.try_clone(alloc)?)),
        }
    }

    /// The same rows are not null, of a nullable type.
    pub fn into_nullable(self) -> Validity
        ensures { result ≡ nullable_validity self }
    {
        match self {
            Validity::NonNullable | Validity::AllValid => Validity::AllValid,
            Validity::AllInvalid => Validity::AllInvalid,
            Validity::Bits(bits) => Validity::Bits(bits),
        }
    }

    /// A second validity that is equal.
    pub fn try_clone(&self, alloc: Global) -> Result<Validity, AllocError>
        ensures { IfOk result (λ validity. validity ≡ self.now) }
    {
        match self {
            Validity::NonNullable => Ok(Validity::NonNullable),
            Validity::AllValid => Ok(Validity::AllValid),
            Validity::AllInvalid => Ok(Validity::AllInvalid),
            Validity::Bits(bits) => Ok(Validity::Bits(bits.try_clone(alloc)?)),
        }
    }
}

/// The value where it is present, else null.
#[inline]
pub(crate) fn row_if<'a>(present: bool, value: ValueRef<'a>) -> Option<ValueRef<'a>>
    ensures { option_map value_seen result ≡ row_of (value_seen value.entry) present }
{
    if present { Some(value) } else { None }
}
