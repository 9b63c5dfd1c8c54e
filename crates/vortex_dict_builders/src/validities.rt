// The validity of entries, which are added one by one.
ghost use Rattle.std.specs.Prelude.{◌≡◌, ◌++◌, ◌∷◌, [], IfOk, OnErr, OnOk, length};
ghost use Rattle.vortex_array_kinds.specs.Pushed.{Grows, no_row, with_row};

use std::alloc::{AllocError, Global};
use vortex_array::{Nullability, Validity};
use vortex_buffer::{BitBuffer, Buffer};

// The validity of no row, in a type with nulls or without.
pub(crate) fn of_no_row(alloc: Global, nullability: Nullability) -> Validity
    ensures { result ≡ no_row nullability }
{
    match nullability {
        Nullability::NonNullable => Validity::NonNullable,
        Nullability::Nullable => {
            Validity::Bits(BitBuffer::from_words(Buffer::from_vec(Vec::new(alloc)), 0))
        }
    }
}

// One more row, which is a value or null. Where memory is wanting, nothing has changed.
pub(crate) fn push_row(
    validity: &mut Validity,
    count: usize,
    present: bool,
) -> Result<(), AllocError>
    requires { Grows validity.old count }
    ensures ok { OnOk result (validity.new ≡ with_row present validity.old) }
    ensures err { OnErr result (validity.new ≡ validity.old) }
{
    let _ = count;
    match validity {
        Validity::NonNullable => Ok(()),
        Validity::Bits(bits) => bits.push(present),
        Validity::AllValid | Validity::AllInvalid => unreachable!(),
    }
}

// One more item, which is an entry or stands for null. Where memory is wanting, both stay.
#[inline]
pub(crate) fn push_entry<T: Copy>(
    items: &mut Vec<T>,
    validity: &mut Validity,
    item: T,
    present: bool,
) -> Result<(), AllocError>
    requires { Grows validity.old (length items.old.items) }
    ensures items { OnOk result (items.new.items ≡ items.old.items ++ item ∷ []) }
    ensures validity { OnOk result (validity.new ≡ with_row present validity.old) }
    ensures items_kept { OnErr result (items.new.items ≡ items.old.items) }
    ensures validity_kept { OnErr result (validity.new ≡ validity.old) }
{
    let count = items.len();
    items.reserve(1)?;
    push_row(validity, count, present)?;
    let _ = items.push(item);
    Ok(())
}

// A place as its number in 32 bits. A map has no room for more entries than that, so that memory is wanting before.
#[inline(always)]
pub(crate) fn number_of_place(place: usize) -> Result<u32, AllocError>
    ensures { IfOk result (λ number. number ≡ place) }
{
    if place > 4294967295 {
        return Err(AllocError);
    }
    Ok(place as u32)
}
