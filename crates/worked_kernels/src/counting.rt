// Closures that count their calls and may be called only while the count has room for one more: that there are no more
// lanes than a word can count is enough for the kernels that replace lanes where they stand.
ghost use Rattle.std.specs.Prelude.{◌≡◌, ◌<◌, ◌+◌, ◌^◌, length};

use crate::samples::{ALL, LENGTHS, NONE, asked, bits_of, lanes_of};
use std::alloc::{AllocError, Global};
use vortex_buffer::BitBuffer;
use vortex_compute::{LanesMut, map_into_in_place, try_map_in_place, try_map_masked_in_place};

// The answer to a lane below 1000; any other fails.
fn kept(lane: u64) -> Option<u64> {
    if lane < 1000 { Some(lane) } else { None }
}

// How often a closure is asked that always answers.
fn asked_always(lanes: &mut [u64]) -> u64 {
    let mut calls = 0u64;
    map_into_in_place(
        &mut LanesMut::new(lanes),
        |lane: u64|
            requires { calls + 1 < 2 ^ 64 }
        {
            calls += 1;
            lane
        },
    );
    calls
}

// How often a closure is asked that can refuse.
fn asked_to_refusal(lanes: &mut [u64]) -> u64 {
    let mut calls = 0u64;
    let _done = try_map_in_place(
        &mut LanesMut::new(lanes),
        |lane: u64|
            requires { calls + 1 < 2 ^ 64 }
        {
            calls += 1;
            kept(lane)
        },
    );
    calls
}

// The same where a mask says which lanes are valid.
fn asked_to_valid_refusal(lanes: &mut [u64], mask: &BitBuffer) -> u64
    requires { length mask.now ≡ length lanes.old }
{
    let mut calls = 0u64;
    let _done = try_map_masked_in_place(
        &mut LanesMut::new(lanes),
        mask,
        |lane: u64|
            requires { calls + 1 < 2 ^ 64 }
        {
            calls += 1;
            kept(lane)
        },
    );
    calls
}

// The same for lanes of which those from a limit on fail, and the first bits of four words.
fn asked_masked(
    alloc: Global,
    words: &[u64; 4],
    len: usize,
    limit: usize,
) -> Result<u64, AllocError> {
    let mask = bits_of(alloc, words, len)?;
    let valid = mask.len();
    if valid > 200 {
        return Ok(0);
    }
    let mut lanes = lanes_of(len, limit);
    Ok(asked_to_valid_refusal(&mut lanes[..valid], &mask))
}

// Whether closures count as many calls as there are lanes to be asked.
fn count_each(alloc: Global, len: usize, limit: usize) -> bool {
    if len > 200 {
        return false;
    }
    let mut lanes = lanes_of(len, limit);
    let all = asked_always(&mut lanes[..len]);
    let some = asked_to_refusal(&mut lanes[..len]);
    all == len as u64
        && some == asked(len, limit)
        && asked_masked(alloc, &ALL, len, limit) == Ok(some)
        && asked_masked(alloc, &NONE, len, limit) == Ok(all)
}

#[test]
fn closures_count_the_lanes_that_are_asked(rt: HostRuntime) {
    for len in LENGTHS.iter() {
        for limit in LENGTHS.iter() {
            assert!(rt;
                count_each(rt.alloc(), *len, *limit),
                "{len} lanes, those from {limit} on fail"
            );
        }
    }
}
