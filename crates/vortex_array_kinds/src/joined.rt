// Which rows are not null, of two columns together.
ghost use Rattle.std.specs.Prelude.{◌≡◌, ℕ, IfOk, IsTrue, replicate, true};
ghost use Rattle.vortex_array_kinds.specs.Truths.{BothValid};
ghost use Rattle.vortex_array_kinds.specs.Validities.{is_as_long, nullability_of, present_in_both, valid_bits};

use crate::validity::Validity;
use std::alloc::{AllocError, Global};
use vortex_array_types::Nullability;
use vortex_buffer::BitBuffer;

impl Validity {
    /// That of rows that are all values, in a type with nulls or without.
    pub fn of_values(nullability: Nullability) -> Validity
        ensures kind { nullability_of result ≡ nullability }
        ensures present { (n : ℕ) → valid_bits result n ≡ replicate n true }
        ensures long { (n : ℕ) → IsTrue (is_as_long result n) }
    {
        match nullability {
            Nullability::NonNullable => Validity::NonNullable,
            Nullability::Nullable => Validity::AllValid,
        }
    }

    /// For each of so many rows whether it is not null, as bits. Bits have that length.
    pub fn to_bits(&self, alloc: Global, len: usize) -> Result<BitBuffer, AllocError>
        ensures { IfOk result (λ bits. bits ≡ valid_bits self.now len) }
    {
        match self {
            Validity::NonNullable | Validity::AllValid => all_set(alloc, len),
            Validity::AllInvalid => BitBuffer::new_unset(alloc, len),
            Validity::Bits(bits) => bits.try_clone(alloc),
        }
    }

    /// That of rows which are null where a row of one of two columns is, each of so many rows.
    pub fn both(&self, alloc: Global, other: &Validity, len: usize) -> Result<Validity, AllocError>
        requires self_long { IsTrue (is_as_long self.now len) }
        requires other_long { IsTrue (is_as_long other.now len) }
        ensures { IfOk result (λ v. BothValid len self.now other.now v) }
    {
        let both = both_present(alloc, self, other, len)?;
        Ok(both)
    }
}

// So many bits, all of them set.
fn all_set(alloc: Global, len: usize) -> Result<BitBuffer, AllocError>
    ensures { IfOk result (λ bits. bits ≡ replicate len true) }
{
    let none = BitBuffer::new_unset(alloc, len)?;
    let all = none.not(alloc)?;
    Ok(all)
}

// Of so many rows those that are present in both columns.
fn both_present(
    alloc: Global,
    left: &Validity,
    right: &Validity,
    len: usize,
) -> Result<Validity, AllocError>
    requires left_long { IsTrue (is_as_long left.now len) }
    requires right_long { IsTrue (is_as_long right.now len) }
    ensures { IfOk result (λ v. v ≡ present_in_both left.now right.now) }
{
    let _ = len;
    match (left, right) {
        (Validity::NonNullable, _) => right.try_clone(alloc),
        (Validity::AllValid, _) => right.try_clone(alloc).map(Validity::into_nullable),
        (Validity::AllInvalid, _) | (Validity::Bits(_), Validity::AllInvalid) => Ok(
            Validity::AllInvalid,
        ),
        (Validity::Bits(_), Validity::NonNullable | Validity::AllValid) => left.try_clone(alloc),
        (Validity::Bits(own), Validity::Bits(bits)) => own.and(alloc, bits).map(Validity::Bits),
    }
}
