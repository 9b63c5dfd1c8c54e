// The numbers that a message tells in one of its fields, one after another.
ghost use Rattle.std.specs.Prelude.{◌≡◌, ◌<◌, ◌≤◌, ◌++◌, ℕ, List, length, slice_range, option_to_list, map, true, IfOk, IsErrOf, OnOk, OnErr};
ghost use Rattle.vortex_wire.specs.Grammar.{LiesWithin, SpellsField, field_of};
ghost use Rattle.vortex_wire.specs.Messages.{Reads, latest, signed};
ghost use Rattle.vortex_wire.specs.Places.{Follows, later};
ghost use Rattle.vortex_wire.specs.declared.messages.MetadataError.TheVariants as MetadataError;

use crate::{BadMetadata, MetadataError, WireField, WirePayload, next_field, next_varint};
use std::alloc::{AllocError, Global};

/// A place in the bytes of a message: in a run that ends at `run_end`, or before a field where both are one.
#[derive(Clone, Copy)]
pub(crate) struct Place {
    pub(crate) at: usize,
    pub(crate) run_end: usize,
}

/// What stands at a place: no field, the end of the bytes, or a field or a number of a run. That tells a number, or none,
/// and another place is behind it.
#[derive(Clone, Copy)]
pub(crate) enum Step {
    Bad,
    End,
    Next(Option<u64>, Place),
}

/// The last number that the bytes tell in the field of this number, where they tell any. It takes no memory.
pub(crate) fn last_number(bytes: &[u8], number: u32, runs: bool) -> Result<Option<u64>, BadMetadata>
    ensures found { IfOk result (λ last. (numbers : List ℕ) × Reads runs number bytes.now numbers × (last ≡ latest numbers)) }
    ensures bad { OnErr result ((numbers : List ℕ) → Reads runs number bytes.now numbers → ⊥) }
{
    let mut place = Place { at: 0, run_end: 0 };
    let mut last = None;
    loop {
        match next_number(bytes, place, number, runs) {
            Step::Bad => return Err(BadMetadata),
            Step::End => return Ok(last),
            Step::Next(told, after) => {
                last = later_of(last, told);
                place = after;
            }
        }
    }
}

// The later of two numbers, where one is told.
fn later_of(last: Option<u64>, told: Option<u64>) -> Option<u64>
    ensures { result ≡ later last told }
{
    match told {
        Some(number) => Some(number),
        None => last,
    }
}

/// All numbers that the bytes tell in the field of this number, each as a number with a sign.
pub(crate) fn integers(alloc: Global, bytes: &[u8], number: u32) -> Result<Vec<i32>, MetadataError>
    ensures found { IfOk result (λ v. (numbers : List ℕ) × Reads true number bytes.now numbers × (v.items ≡ map signed numbers)) }
    ensures bad { IsErrOf result MetadataError.BadMetadata → (numbers : List ℕ) → Reads true number bytes.now numbers → ⊥ }
{
    let mut integers = Vec::new(alloc);
    let mut place = Place { at: 0, run_end: 0 };
    loop {
        match next_number(bytes, place, number, true) {
            Step::Bad => return Err(MetadataError::BadMetadata),
            Step::End => return Ok(integers),
            Step::Next(told, after) => {
                let Ok(()) = add_told(&mut integers, told) else {
                    return Err(MetadataError::OutOfMemory);
                };
                place = after;
            }
        }
    }
}

// Adds the number that was told, if one was.
fn add_told(integers: &mut Vec<i32>, told: Option<u64>) -> Result<(), AllocError>
    ensures { OnOk result (integers.new.items ≡ integers.old.items ++ map signed (option_to_list told)) }
{
    let Some(number) = told else {
        return Ok(());
    };
    if integers.push(signed_of(number)).is_err() {
        return Err(AllocError);
    }
    Ok(())
}

/// The low 32 bits as a number with a sign.
pub(crate) fn signed_of(number: u64) -> i32
    ensures { result ≡ signed number }
{
    ((number % (1 << 32)) as u32).cast_signed()
}

// What stands at a place, for the field of this number.
fn next_number(bytes: &[u8], place: Place, number: u32, runs: bool) -> Step
    requires order { place.at ≤ place.run_end }
    requires inside { place.run_end ≤ length bytes.now }
    ensures { Follows runs number bytes.now place result }
{
    if place.at < place.run_end {
        return next_of_run(bytes, place, number, runs);
    }
    match next_field(bytes, place.at) {
        Err(_) => Step::Bad,
        Ok(None) => Step::End,
        Ok(Some(field)) => told_at(bytes, place, field, number, runs),
    }
}

// The next number of the run at a place.
fn next_of_run(bytes: &[u8], place: Place, number: u32, runs: bool) -> Step
    requires order { place.at < place.run_end }
    requires inside { place.run_end ≤ length bytes.now }
    ensures { Follows runs number bytes.now place result }
{
    let Ok((told, at)) = next_varint(bytes, place.at, place.run_end) else {
        return Step::Bad;
    };
    let after = Place {
        at,
        run_end: place.run_end,
    };
    Step::Next(Some(told), after)
}

// What the field at a place tells: nothing where it has another number.
fn told_at(bytes: &[u8], place: Place, field: WireField, number: u32, runs: bool) -> Step
    requires order { place.at ≡ place.run_end }
    requires found { (place.at < field.end) × (field.end ≤ length bytes.now) × SpellsField (field_of bytes.now field) (slice_range bytes.now place.at field.end) × LiesWithin place.at field.end field.payload }
    ensures { Follows runs number bytes.now place result }
{
    if field.number != number {
        let after = Place {
            at: field.end,
            run_end: field.end,
        };
        return Step::Next(None, after);
    }
    told_by(bytes, place, field, runs)
}

// What a field of the number that is looked for tells at once: its number, or that its run comes next.
fn told_by(bytes: &[u8], place: Place, field: WireField, runs: bool) -> Step
    requires order { place.at ≡ place.run_end }
    requires found { (place.at < field.end) × (field.end ≤ length bytes.now) × SpellsField (field_of bytes.now field) (slice_range bytes.now place.at field.end) × LiesWithin place.at field.end field.payload }
    ensures { Follows runs field.number bytes.now place result }
{
    match field.payload {
        WirePayload::Varint(told) => {
            let after = Place {
                at: field.end,
                run_end: field.end,
            };
            Step::Next(Some(told), after)
        }
        WirePayload::Run { start, end } => {
            if !runs {
                return Step::Bad;
            }
            let inside = Place {
                at: start,
                run_end: end,
            };
            Step::Next(None, inside)
        }
        WirePayload::Eight => Step::Bad,
        WirePayload::Four => Step::Bad,
    }
}
