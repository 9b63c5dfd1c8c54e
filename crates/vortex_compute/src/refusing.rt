// Kernels that refuse: the first lane that fails is found at the end of its group of 64 lanes, so that the loop over
// a group has no branch per lane.
ghost use Rattle.std.specs.Prelude.{◌≡◌, ◌≢◌, ◌<◌, ◌≤◌, ◌+◌, ◌*◌, ◌^◌, All, Some, IfErr, OnOk, length, take, drop};
ghost use Rattle.std.specs.Int.{trailing_zeros, w64};
ghost use Rattle.std.specs.List.{AllZip};
ghost use Rattle.vortex_compute.specs.Answers.{MapsLanes, FailsFirst, all_valid};
ghost use Rattle.vortex_compute.specs.Groups.{TriedGroup};

use crate::lane_default::LaneDefault;
use crate::source::IndexedSource;
use vortex_buffer::BitBuffer;

// Maps the lanes from `base` on, at most 64 of them, and says by a word which answers are none.
#[inline(always)]
fn try_group<S: IndexedSource, R: LaneDefault, F: Fn(S::Item) -> Option<R>>(
    values: &S,
    out: &mut [R],
    f: &F,
    base: usize,
    count: usize,
) -> u64
    requires callable { All (F.pre f.now) (S.lanes values.now) }
    requires within { base + count ≤ length (S.lanes values.now) }
    requires room { base + count ≤ length out.old }
    requires small { count ≤ 64 }
    requires fits { base + count < 2 ^ 64 }
    ensures { TriedGroup (F.post f.now) R.its_default (take count (drop base (S.lanes values.now))) base count out.old out.new result }
{
    let mut failed = 0u64;
    for bit in 0..count {
        let answer = f(values.get(base + bit));
        failed |= (answer.is_none() as u64) << bit;
        out[base + bit] = answer.unwrap_or(R::lane_default());
    }
    failed
}

// The first lane of a group of 64 that a word of failures names.
#[inline(always)]
pub(crate) fn failed_lane(group: usize, failed: u64) -> usize
    requires within { 64 * group < 2 ^ 64 }
    requires some { failed ≢ 0 }
    ensures { result ≡ 64 * group + trailing_zeros w64 failed }
{
    64 * group + failed.trailing_zeros() as usize
}

/// `out[i]` becomes the value for lane `i`. Refused exactly where an answer is none, with the first lane that failed.
/// Each lane is asked at most once.
/// After a refusal the contents of `out` may be anything.
#[inline]
pub fn try_map_into<S: IndexedSource, R: LaneDefault, F: Fn(S::Item) -> Option<R>>(
    values: &S,
    out: &mut [R],
    f: F,
) -> Result<(), usize>
    requires callable { All (F.pre f) (S.lanes values.now) }
    requires room { length out.old ≡ length (S.lanes values.now) }
    ensures ok { OnOk result (AllZip (λ lane value. F.post f lane (Some value)) (S.lanes values.now) out.new) }
    ensures err { IfErr result (FailsFirst (F.post f) (S.lanes values.now) (all_valid (S.lanes values.now))) }
{
    let len = values.len();
    let whole = len / 64;
    for k in 0..whole {
        let failed = try_group(values, out, &f, 64 * k, 64);
        if failed != 0 {
            return Err(64 * k + failed.trailing_zeros() as usize);
        }
    }
    let rest = len % 64;
    if rest == 0 {
        return Ok(());
    }
    let failed = try_group(values, out, &f, 64 * whole, rest);
    if failed != 0 {
        return Err(64 * whole + failed.trailing_zeros() as usize);
    }
    Ok(())
}

/// `out[i]` becomes the value for lane `i`, in null lanes too, and the default where the answer is none.
/// Refused exactly where a valid lane's answer is none, with the first such lane; null lanes never refuse.
/// Each lane is asked at most once.
/// After a refusal the contents of `out` may be anything.
#[inline]
pub fn try_map_masked_into<S: IndexedSource, R: LaneDefault, F: Fn(S::Item) -> Option<R>>(
    values: &S,
    mask: &BitBuffer,
    out: &mut [R],
    f: F,
) -> Result<(), usize>
    requires callable { All (F.pre f) (S.lanes values.now) }
    requires masked { length mask.now ≡ length (S.lanes values.now) }
    requires room { length out.old ≡ length (S.lanes values.now) }
    ensures ok { OnOk result (MapsLanes (F.post f) R.its_default (S.lanes values.now) mask.now out.new) }
    ensures err { IfErr result (FailsFirst (F.post f) (S.lanes values.now) mask.now) }
{
    let len = values.len();
    let whole = len / 64;
    for k in 0..whole {
        let failed = try_group(values, out, &f, 64 * k, 64) & mask.word(k);
        if failed != 0 {
            return Err(failed_lane(k, failed));
        }
    }
    let rest = len % 64;
    if rest == 0 {
        return Ok(());
    }
    let failed = try_group(values, out, &f, 64 * whole, rest) & mask.word(whole);
    if failed != 0 {
        return Err(failed_lane(whole, failed));
    }
    Ok(())
}
