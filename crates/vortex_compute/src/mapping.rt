// Kernels that cannot refuse: each lane's answer goes into an output of the same length.
ghost use Rattle.std.specs.Prelude.{◌≡◌, ◌<◌, ◌≤◌, ◌+◌, ◌%◌, ◌^◌, ◌==◌, All, cond, length};
ghost use Rattle.std.specs.Int.{bit_at};
ghost use Rattle.std.specs.List.{AllZip};
ghost use Rattle.vortex_compute.specs.Answers.{MapsValid, MapsChecked};
ghost use Rattle.vortex_compute.specs.Groups.{ValidGroup};

use crate::fail_word::FailWord;
use crate::lane_default::LaneDefault;
use crate::source::IndexedSource;
use vortex_buffer::BitBuffer;

/// `out[i]` becomes the answer of `f` to lane `i`. The clause's list of answers is `out` itself.
#[inline]
pub fn map_into<S: IndexedSource, R: Copy, F: Fn(S::Item) -> R>(values: &S, out: &mut [R], f: F)
    requires callable { All (F.pre f) (S.lanes values.now) }
    requires room { length out.old ≡ length (S.lanes values.now) }
    ensures written { AllZip (F.post f) (S.lanes values.now) out.new }
{
    for i in 0..values.len() {
        out[i] = f(values.get(i));
    }
}

// The answer where the bit of the word is set, else the default.
#[inline(always)]
fn where_set<R: LaneDefault>(word: u64, bit: usize, answer: R) -> R
    requires { bit < 64 }
    ensures { result ≡ cond (bit_at word bit == 1) answer R.its_default }
{
    if (word >> bit) & 1 == 1 {
        answer
    } else {
        R::lane_default()
    }
}

// Maps the lanes from `base` on, at most 64 of them, and writes the default where the mask has no bit.
#[inline(always)]
fn map_valid_group<S: IndexedSource, R: LaneDefault, F: Fn(S::Item) -> R>(
    values: &S,
    mask: &BitBuffer,
    out: &mut [R],
    f: &F,
    base: usize,
    count: usize,
)
    requires callable { All (F.pre f.now) (S.lanes values.now) }
    requires masked { length mask.now ≡ length (S.lanes values.now) }
    requires room { length out.old ≡ length (S.lanes values.now) }
    requires aligned { base % 64 ≡ 0 }
    requires within { base + count ≤ length (S.lanes values.now) }
    requires some { 0 < count }
    requires small { count ≤ 64 }
    requires fits { base + count < 2 ^ 64 }
    ensures { ValidGroup (F.post f.now) R.its_default (S.lanes values.now) mask.now base count out.old out.new }
{
    let valid = mask.word(base / 64);
    for bit in 0..count {
        let answer = f(values.get(base + bit));
        out[base + bit] = where_set(valid, bit, answer);
    }
}

/// `out[i]` becomes the answer of `f` to lane `i` where the mask's bit is set, and the default in null lanes.
/// Null lanes are asked too.
#[inline]
pub fn map_masked_into<S: IndexedSource, R: LaneDefault, F: Fn(S::Item) -> R>(
    values: &S,
    mask: &BitBuffer,
    out: &mut [R],
    f: F,
)
    requires callable { All (F.pre f) (S.lanes values.now) }
    requires masked { length mask.now ≡ length (S.lanes values.now) }
    requires room { length out.old ≡ length (S.lanes values.now) }
    ensures written { MapsValid (F.post f) R.its_default (S.lanes values.now) mask.now out.new }
{
    let len = values.len();
    let whole = len / 64;
    for k in 0..whole {
        map_valid_group(values, mask, out, &f, 64 * k, 64);
    }
    let rest = len % 64;
    if rest != 0 {
        map_valid_group(values, mask, out, &f, 64 * whole, rest);
    }
}

/// `out[i]` becomes the first part of the answer to lane `i`, and the result is the or of all second parts, from `none()`.
#[inline]
pub fn map_checked_into<S: IndexedSource, R: Copy, W: FailWord, F: Fn(S::Item) -> (R, W)>(
    values: &S,
    out: &mut [R],
    apply: F,
) -> W
    requires callable { All (F.pre apply) (S.lanes values.now) }
    requires room { length out.old ≡ length (S.lanes values.now) }
    ensures written { MapsChecked (F.post apply) W.no_failure W.either (S.lanes values.now) out.new result }
{
    let mut failures = W::none();
    for i in 0..values.len() {
        let (value, failure) = apply(values.get(i));
        out[i] = value;
        failures = failures.or(failure);
    }
    failures
}
