// Truth values joined in three values, word by word.
ghost use Rattle.std.specs.Prelude.{◌≡◌, ℕ, IfOk, IsTrue, false, length, map, replicate, true};
ghost use Rattle.vortex_buffer.specs.Mask.{mask_bits};
ghost use Rattle.vortex_array_types.specs.declared.types.Nullability.TheVariants.{Nullable};
ghost use Rattle.vortex_array_kinds.specs.Kinds.{bool_column};
ghost use Rattle.vortex_array_kinds.specs.Known.{KnownWhere, known};
ghost use Rattle.vortex_array_kinds.specs.Truths.{answers, either, is_true, joined_by_and, joined_by_or, joined_strictly, negated};
ghost use Rattle.vortex_array_kinds.specs.Validities.{is_as_long, nullability_of, valid_bits};

use crate::bools::BoolArray;
use crate::plain::PlainArray;
use crate::validity::Validity;
use std::alloc::{AllocError, Global};
use vortex_buffer::{BitBuffer, Mask};

impl PlainArray<BitBuffer> {
    /// Row by row the conjunction in three values: false where a row is false, else null where a row is null, else true.
    pub fn kleene_and(&self, alloc: Global, other: &BoolArray) -> Result<BoolArray, AllocError>
        requires same_length { length (bool_column self.now).rows ≡ length (bool_column other.now).rows }
        ensures { IfOk result (λ a. bool_column a ≡ joined_by_and (bool_column self.now) (bool_column other.now)) }
    {
        let left = self.validity();
        let right = other.validity();
        let left_decides = self.bits().not(alloc)?;
        let right_decides = other.bits().not(alloc)?;
        let validity = known_where(alloc, left, &left_decides, right, &right_decides)?;
        let bits = self.bits().and(alloc, other.bits())?;
        Ok(PlainArray::new(bits, validity))
    }

    /// Row by row the disjunction in three values: true where a row is true, else null where a row is null, else false.
    pub fn kleene_or(&self, alloc: Global, other: &BoolArray) -> Result<BoolArray, AllocError>
        requires same_length { length (bool_column self.now).rows ≡ length (bool_column other.now).rows }
        ensures { IfOk result (λ a. bool_column a ≡ joined_by_or (bool_column self.now) (bool_column other.now)) }
    {
        let left = self.validity();
        let right = other.validity();
        let validity = known_where(alloc, left, self.bits(), right, other.bits())?;
        let bits = self.bits().or(alloc, other.bits())?;
        Ok(PlainArray::new(bits, validity))
    }

    /// Row by row whether both are true, and null where a row is null, be the other false or not.
    pub fn both_true(&self, alloc: Global, other: &BoolArray) -> Result<BoolArray, AllocError>
        requires same_length { length (bool_column self.now).rows ≡ length (bool_column other.now).rows }
        ensures { IfOk result (λ a. bool_column a ≡ joined_strictly (bool_column self.now) (bool_column other.now)) }
    {
        let left = self.validity();
        let right = other.validity();
        let validity = left.both(alloc, right, self.bits().len())?;
        let bits = self.bits().and(alloc, other.bits())?;
        Ok(PlainArray::new(bits, validity))
    }

    /// Row by row the negation. Null stays null.
    pub fn negate(&self, alloc: Global) -> Result<BoolArray, AllocError>
        ensures { IfOk result (λ a. bool_column a ≡ negated (bool_column self.now)) }
    {
        let validity = self.validity().try_clone(alloc)?;
        let bits = self.bits().not(alloc)?;
        Ok(PlainArray::new(bits, validity))
    }

    /// The rows that are true, and not null.
    pub fn true_mask(&self, alloc: Global) -> Result<Mask, AllocError>
        ensures { IfOk result (λ mask. mask_bits mask ≡ map is_true (answers (bool_column self.now))) }
    {
        let valid = self.validity().to_bits(alloc, self.bits().len())?;
        let bits = self.bits().and(alloc, &valid)?;
        Ok(Mask::from_buffer(bits))
    }
}

// Whether no row is null.
fn is_full(validity: &Validity) -> bool
    ensures full { result ≡ true → (n : ℕ) → valid_bits validity.now n ≡ replicate n true }
    ensures nulls { result ≡ false → nullability_of validity.now ≡ Nullable }
{
    match validity {
        Validity::NonNullable | Validity::AllValid => true,
        Validity::AllInvalid | Validity::Bits(_) => false,
    }
}

// Whether no row of two columns is null.
fn are_full(left: &Validity, right: &Validity) -> bool
    ensures left { result ≡ true → (n : ℕ) → valid_bits left.now n ≡ replicate n true }
    ensures right { result ≡ true → (n : ℕ) → valid_bits right.now n ≡ replicate n true }
    ensures nulls { result ≡ false → either (nullability_of left.now) (nullability_of right.now) ≡ Nullable }
{
    if is_full(left) { is_full(right) } else { false }
}

// Which answers are known: those of two rows that are not null, and those that one such row decides.
fn known_where(
    alloc: Global,
    left: &Validity,
    left_decides: &BitBuffer,
    right: &Validity,
    right_decides: &BitBuffer,
) -> Result<Validity, AllocError>
    requires left_long { IsTrue (is_as_long left.now (length left_decides.now)) }
    requires right_long { IsTrue (is_as_long right.now (length right_decides.now)) }
    requires same_length { length left_decides.now ≡ length right_decides.now }
    ensures { IfOk result (λ v. KnownWhere (length left_decides.now) left.now left_decides.now right.now right_decides.now v) }
{
    let len = left_decides.len();
    if are_full(left, right) {
        let both = left.both(alloc, right, len)?;
        return Ok(both);
    }
    let left_valid = left.to_bits(alloc, len)?;
    let right_valid = right.to_bits(alloc, len)?;
    let bits = known_bits(
        alloc,
        &left_valid,
        left_decides,
        &right_valid,
        right_decides,
    )?;
    Ok(Validity::Bits(bits))
}

// The same by bits.
fn known_bits(
    alloc: Global,
    left: &BitBuffer,
    left_decides: &BitBuffer,
    right: &BitBuffer,
    right_decides: &BitBuffer,
) -> Result<BitBuffer, AllocError>
    requires left { length left.now ≡ length left_decides.now }
    requires right { length right.now ≡ length left_decides.now }
    requires right_decides { length right_decides.now ≡ length left_decides.now }
    ensures { IfOk result (λ bits. bits ≡ known left.now left_decides.now right.now right_decides.now) }
{
    let both = left.and(alloc, right)?;
    let by_left = left.and(alloc, left_decides)?;
    let by_right = right.and(alloc, right_decides)?;
    let by_left = both.or(alloc, &by_left)?;
    let bits = by_left.or(alloc, &by_right)?;
    Ok(bits)
}
