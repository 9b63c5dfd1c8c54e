// The types of lanes: their defaults, their words of failures, and those that are the same bits.
use vortex_compute::{
    FailWord, IndexedSink, IndexedSource, LaneDefault, ReinterpretSink, SameBits,
};

fn is_default<T: LaneDefault + PartialEq>(value: T) -> bool {
    T::lane_default() == value
}

// Whether none is the first, and two words joined are the last.
fn joins<W: FailWord + PartialEq>(none: W, left: W, right: W, both: W) -> bool {
    W::none() == none && left.or(right) == both
}

// Whether two values of types of one width are the same bits.
fn are_same_bits<F: Copy + PartialEq, T: SameBits<F> + PartialEq>(one: T, other: F) -> bool {
    one.to_other() == other && T::from_other(other) == one
}

// Whether a signed lane is written with an unsigned value.
fn reads_back() -> bool {
    let mut lanes = [-1i8, 5];
    let mut sink = ReinterpretSink::<i8, u8>::new(&mut lanes);
    let before = sink.len() == 2 && sink.get(1) == 5;
    sink.set(0, 200);
    before && lanes[0] == -56 && lanes[1] == 5
}

#[test]
fn lanes_have_defaults_and_failures_and_bits(rt: HostRuntime) {
    assert!(rt; is_default(false) && is_default(0u64) && is_default(0i8));
    assert!(rt; joins(false, true, false, true) && joins(0u16, 5, 259, 263));
    assert!(rt; are_same_bits(200u8, -56i8) && are_same_bits(-1i64, u64::MAX) && reads_back());
}
