// Kernels that replace lanes where they stand. The closure may change as it is called: it is asked once per lane, in
// lane order, and has to be callable only in the states that it reaches so.
ghost use Rattle.std.specs.Prelude.{◌≡◌, ◌<◌, ◌≤◌, ◌+◌, ◌^◌, Some, IfErr, OnOk, length, drop, unwrap_or};
ghost use Rattle.vortex_compute.specs.Answers.{all_valid};
ghost use Rattle.vortex_compute.specs.Groups.{TriedInPlace};
ghost use Rattle.vortex_compute.specs.InOrder.{MayRun, MapsInOrder, TriesInOrder, FailsInOrder};

use crate::lane_default::LaneDefault;
use crate::refusing::failed_lane;
use crate::sink::IndexedSink;
use vortex_buffer::BitBuffer;

/// Replaces each lane by what the answer of `f` to it reads back as.
#[inline]
pub fn map_into_in_place<S: IndexedSink, F: FnMut(S::Item) -> S::Write>(values: &mut S, mut f: F)
    requires callable { MayRun F.pre F.step f (S.lanes values.old) }
    ensures written { MapsInOrder F.step f S.reads_back (S.lanes values.old) (S.lanes values.new) }
    ensures kept { S.same_target values.old values.new }
{
    for i in 0..values.len() {
        let answer = f(values.get(i));
        values.set(i, answer);
    }
}

// Replaces the lanes from `base` on, at most 64 of them, and says by a word which answers are none.
#[inline(always)]
fn try_group_in_place<S: IndexedSink, F: FnMut(S::Item) -> Option<S::Write>>(
    values: &mut S,
    f: &mut F,
    base: usize,
    count: usize,
) -> u64
where
    S::Write: LaneDefault,
    requires callable { MayRun F.pre F.step f.old (drop base (S.lanes values.old)) }
    requires within { base + count ≤ length (S.lanes values.old) }
    requires small { count ≤ 64 }
    requires fits { base + count < 2 ^ 64 }
    ensures lanes { TriedInPlace F.step f.old (λ answer. S.reads_back (unwrap_or answer S.Write.its_default)) base count (S.lanes values.old) (S.lanes values.new) f.new result }
    ensures kept { S.same_target values.old values.new }
{
    let mut failed = 0u64;
    for bit in 0..count {
        let answer = f(values.get(base + bit));
        failed |= (answer.is_none() as u64) << bit;
        values.set(base + bit, answer.unwrap_or(S::Write::lane_default()));
    }
    failed
}

/// Replaces each lane by what its value reads back as. Refused exactly where an answer is none, with the first lane that
/// failed. Each lane to the end of the failing lane's group of 64 is asked once, and none after.
/// After a refusal the lanes may be anything; there are as many as before.
#[inline]
pub fn try_map_in_place<S: IndexedSink, F: FnMut(S::Item) -> Option<S::Write>>(
    values: &mut S,
    mut f: F,
) -> Result<(), usize>
where
    S::Write: LaneDefault,
    requires callable { MayRun F.pre F.step f (S.lanes values.old) }
    ensures ok { OnOk result (MapsInOrder (λ before lane value after. F.step before lane (Some value) after) f S.reads_back (S.lanes values.old) (S.lanes values.new)) }
    ensures err { IfErr result (FailsInOrder F.step f (S.lanes values.old) (all_valid (S.lanes values.old))) }
    ensures length { length (S.lanes values.new) ≡ length (S.lanes values.old) }
    ensures kept { S.same_target values.old values.new }
{
    let len = values.len();
    let whole = len / 64;
    for k in 0..whole {
        let failed = try_group_in_place(values, &mut f, 64 * k, 64);
        if failed != 0 {
            return Err(64 * k + failed.trailing_zeros() as usize);
        }
    }
    let rest = len % 64;
    if rest == 0 {
        return Ok(());
    }
    let failed = try_group_in_place(values, &mut f, 64 * whole, rest);
    if failed != 0 {
        return Err(64 * whole + failed.trailing_zeros() as usize);
    }
    Ok(())
}

/// Replaces each lane, null lanes too, by what its value reads back as, and by the default where the answer is none.
/// Refused exactly where a valid lane's answer is none, with the first such lane; null lanes never refuse.
/// Each lane to the end of the failing lane's group of 64 is asked once, and none after.
/// After a refusal the lanes may be anything; there are as many as before.
#[inline]
pub fn try_map_masked_in_place<S: IndexedSink, F: FnMut(S::Item) -> Option<S::Write>>(
    values: &mut S,
    mask: &BitBuffer,
    mut f: F,
) -> Result<(), usize>
where
    S::Write: LaneDefault,
    requires callable { MayRun F.pre F.step f (S.lanes values.old) }
    requires masked { length mask.now ≡ length (S.lanes values.old) }
    ensures ok { OnOk result (TriesInOrder F.step f S.reads_back S.Write.its_default (S.lanes values.old) mask.now (S.lanes values.new)) }
    ensures err { IfErr result (FailsInOrder F.step f (S.lanes values.old) mask.now) }
    ensures length { length (S.lanes values.new) ≡ length (S.lanes values.old) }
    ensures kept { S.same_target values.old values.new }
{
    let len = values.len();
    let whole = len / 64;
    for k in 0..whole {
        let failed = try_group_in_place(values, &mut f, 64 * k, 64) & mask.word(k);
        if failed != 0 {
            return Err(failed_lane(k, failed));
        }
    }
    let rest = len % 64;
    if rest == 0 {
        return Ok(());
    }
    let failed = try_group_in_place(values, &mut f, 64 * whole, rest) & mask.word(whole);
    if failed != 0 {
        return Err(failed_lane(whole, failed));
    }
    Ok(())
}
