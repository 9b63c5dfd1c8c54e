// Bits at codes. A byte is made for each bit first, since a byte is looked up in fewer steps, and most are more than once.
ghost use Rattle.std.specs.Prelude.{◌≡◌, ◌<◌, All, IfOk, IsTrue, cond, false, length, map, slice_index_or, true};
ghost use Rattle.vortex_array_rows.specs.Taken.{SetPlacesBelow, taken_or};
ghost use Rattle.vortex_array_kinds.specs.Validities.{is_as_long};
ghost use Rattle.vortex_array_select.specs.SelectedParts.{PlacesBelow, taken_values};

use std::alloc::{AllocError, Global};
use vortex_array::Validity;
use vortex_array_rows::RowIndex;
use vortex_buffer::BitBuffer;
use vortex_compute::{IndexedSource, collect_lane_bits};

// The truths at codes, as lanes.
#[derive(Drop)]
struct TruthsAt<'a, P: RowIndex> {
    truths: &'a [bool],
    codes: &'a [P],
    ghost within: { All (λ place. place < length truths.now) (map P.place codes.now) },
}

impl<P: RowIndex> IndexedSource for TruthsAt<'_, P> {
    type Item = bool;

    ghost lanes = { λ s. map (λ place. slice_index_or s.truths.now place false) (map P.place s.codes.now) };

    #[inline(always)]
    fn len(&self) -> usize {
        self.codes.len()
    }

    #[inline(always)]
    fn get(&self, i: usize) -> bool {
        let code = self.codes[i];
        self.truths[code.place()]
    }
}

// The truths at the codes whose bit is set, as lanes. Any other lane is not true.
#[derive(Drop)]
struct TruthsAtOr<'a, P: RowIndex> {
    truths: &'a [bool],
    codes: &'a [P],
    valid: &'a BitBuffer,
    ghost same_length: { length codes.now ≡ length valid.now },
    ghost within: { SetPlacesBelow (length truths.now) (map P.place codes.now) valid.now },
}

impl<P: RowIndex> IndexedSource for TruthsAtOr<'_, P> {
    type Item = bool;

    ghost lanes = { λ s. taken_or false s.truths.now (map P.place s.codes.now) s.valid.now };

    #[inline(always)]
    fn len(&self) -> usize {
        self.codes.len()
    }

    #[inline(always)]
    fn get(&self, i: usize) -> bool {
        truth_or_false(self.truths, self.codes[i], self.valid.value(i))
    }
}

// The truth at a code that is valid, else one that does not hold.
#[inline(always)]
fn truth_or_false<P: RowIndex>(truths: &[bool], code: P, valid: bool) -> bool
    requires within { valid ≡ true → P.place code < length truths.now }
    ensures { result ≡ cond valid (slice_index_or truths.now (P.place code) false) false }
{
    valid && truths[code.place()]
}

// A byte for each bit.
fn bytes_of(alloc: Global, bits: &BitBuffer) -> Result<Vec<bool>, AllocError>
    ensures { IfOk result (λ bytes. bytes.items ≡ bits.now) }
{
    let len = bits.len();
    let mut bytes = Vec::with_capacity(alloc, len)?;
    for i in 0..len {
        bytes.push(bits.value(i))?;
    }
    Ok(bytes)
}

// The truths at codes, as bits.
fn truths_at_all<P: RowIndex>(
    alloc: Global,
    truths: &[bool],
    codes: &[P],
) -> Result<BitBuffer, AllocError>
    requires { All (λ place. place < length truths.now) (map P.place codes.now) }
    ensures { IfOk result (λ taken. taken ≡ map (λ place. slice_index_or truths.now place false) (map P.place codes.now)) }
{
    let taken = collect_lane_bits(alloc, &TruthsAt { truths, codes }, |truth: bool| truth)?;
    Ok(taken)
}

// The truths at the codes whose bit is set, as bits. The others' are not set.
fn truths_at_set<P: RowIndex>(
    alloc: Global,
    truths: &[bool],
    codes: &[P],
    valid: &BitBuffer,
) -> Result<BitBuffer, AllocError>
    requires same_length { length codes.now ≡ length valid.now }
    requires within { SetPlacesBelow (length truths.now) (map P.place codes.now) valid.now }
    ensures { IfOk result (λ taken. taken ≡ taken_or false truths.now (map P.place codes.now) valid.now) }
{
    let lanes = TruthsAtOr {
        truths,
        codes,
        valid,
    };
    let taken = collect_lane_bits(alloc, &lanes, |truth: bool| truth)?;
    Ok(taken)
}

// The truths at codes, as bits, not set where a code is null.
fn truths_under<P: RowIndex>(
    alloc: Global,
    truths: &[bool],
    codes: &[P],
    nulls: &Validity,
) -> Result<BitBuffer, AllocError>
    requires long { IsTrue (is_as_long nulls.now (length codes.now)) }
    requires within { PlacesBelow (length truths.now) nulls.now (map P.place codes.now) }
    ensures { IfOk result (λ taken. taken ≡ taken_values false nulls.now truths.now (map P.place codes.now)) }
{
    match nulls {
        Validity::NonNullable | Validity::AllValid => truths_at_all(alloc, truths, codes),
        Validity::AllInvalid => {
            let unset = BitBuffer::new_unset(alloc, codes.len())?;
            truths_at_set(alloc, truths, codes, &unset)
        }
        Validity::Bits(set) => truths_at_set(alloc, truths, codes, set),
    }
}

// The bits at codes, not set where a code is null.
pub(crate) fn bits_at<P: RowIndex>(
    alloc: Global,
    bits: &BitBuffer,
    codes: &[P],
    nulls: &Validity,
) -> Result<BitBuffer, AllocError>
    requires long { IsTrue (is_as_long nulls.now (length codes.now)) }
    requires within { PlacesBelow (length bits.now) nulls.now (map P.place codes.now) }
    ensures { IfOk result (λ taken. taken ≡ taken_values false nulls.now bits.now (map P.place codes.now)) }
{
    let truths = bytes_of(alloc, bits)?;
    let taken = truths_under(alloc, &truths, codes, nulls)?;
    Ok(taken)
}
