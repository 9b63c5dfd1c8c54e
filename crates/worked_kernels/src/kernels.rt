// Kernels that write the answers of a closure: into room, and where the lanes stand.
use crate::samples::{ALL, HALF, asked, bit, bits_of, lanes_of};
use std::alloc::Global;
use std::cell::Cell;
use vortex_buffer::BitBuffer;
use vortex_compute::{
    IndexedSource, LaneZip, Lanes, LanesMut, Repeat, map_checked_into, map_into, map_into_in_place,
    map_masked_into, try_map_in_place, try_map_into, try_map_masked_in_place, try_map_masked_into,
};

// The answer to a lane.
fn tripled(lane: u64) -> u64 {
    lane.wrapping_mul(3).wrapping_add(1)
}

// The answer to a lane below 1000; any other fails.
fn small(lane: u64) -> Option<u64> {
    if lane < 1000 {
        Some(tripled(lane))
    } else {
        None
    }
}

// Whether so many places of the room hold the answers to the lanes below the bound whose bit is set, and 0 for all others,
// and 7 stands behind them.
fn is_each(
    lanes: &[u64; 200],
    len: usize,
    room: &[u64; 200],
    words: &[u64; 4],
    bound: u64,
) -> bool {
    for i in 0..200 {
        let expected = if i >= len {
            7
        } else if bit(words, i) && lanes[i] < bound {
            tripled(lanes[i])
        } else {
            0
        };
        if room[i] != expected {
            return false;
        }
    }
    true
}

fn maps(lanes: &[u64; 200], mask: &BitBuffer) -> bool {
    let len = mask.len();
    if len > 200 {
        return false;
    }
    let source = Lanes::new(&lanes[..len]);
    let mut room = [7u64; 200];
    map_into(&source, &mut room[..len], tripled);
    let mut valid = [7u64; 200];
    map_masked_into(&source, mask, &mut valid[..len], tripled);
    is_each(lanes, len, &room, &ALL, u64::MAX) && is_each(lanes, len, &valid, &HALF, u64::MAX)
}

// Each lane is paired with 1000, and fails where it is not below.
fn maps_checked(lanes: &[u64; 200], len: usize, limit: usize) -> bool {
    if len > 200 {
        return false;
    }
    let pairs = LaneZip::new(Lanes::new(&lanes[..len]), Repeat::new(1000u64, len));
    let paired = pairs.len();
    if paired > 200 {
        return false;
    }
    let mut room = [7u64; 200];
    let failed = map_checked_into(&pairs, &mut room[..paired], |pair: (u64, u64)| {
        (tripled(pair.0), pair.0 >= pair.1)
    });
    failed == (limit < len)
        && pairs.is_empty() == (len == 0)
        && is_each(lanes, len, &room, &ALL, u64::MAX)
}

// The number of a lane is that of the calls before it, so that each is asked once and in order.
fn maps_in_place(lanes: &[u64; 200], len: usize) -> bool {
    if len > 200 {
        return false;
    }
    let mut room = *lanes;
    let mut calls = 0u64;
    let mut in_order = true;
    map_into_in_place(&mut LanesMut::new(&mut room[..len]), |lane: u64| {
        in_order = in_order && lane % 1000 == calls;
        calls = calls.wrapping_add(1);
        tripled(lane)
    });
    in_order && calls == len as u64 && is_each(lanes, len, &room, &ALL, u64::MAX)
}

// What a kernel answers where this is the first lane that refuses, if it is one of so many.
fn refusal(len: usize, first: usize) -> Result<(), usize> {
    if first < len { Err(first) } else { Ok(()) }
}

// The first lane from a limit on whose bit is set.
fn first_valid(limit: usize) -> usize {
    for i in limit..256 {
        if bit(&HALF, i) {
            return i;
        }
    }
    256
}

fn tries(lanes: &[u64; 200], len: usize, first: usize) -> bool {
    if len > 200 {
        return false;
    }
    let mut room = [7u64; 200];
    let calls = Cell::new(0u64);
    let done = try_map_into(&Lanes::new(&lanes[..len]), &mut room[..len], |lane: u64| {
        calls.set(calls.get().wrapping_add(1));
        small(lane)
    });
    calls.get() == asked(len, first)
        && done == refusal(len, first)
        && (done.is_err() || is_each(lanes, len, &room, &ALL, 1000))
}

fn tries_valid(lanes: &[u64; 200], mask: &BitBuffer, first: usize) -> bool {
    let len = mask.len();
    if len > 200 {
        return false;
    }
    let mut room = [7u64; 200];
    let source = Lanes::new(&lanes[..len]);
    let done = try_map_masked_into(&source, mask, &mut room[..len], small);
    done == refusal(len, first) && (done.is_err() || is_each(lanes, len, &room, &ALL, 1000))
}

fn tries_in_place(lanes: &[u64; 200], len: usize, first: usize) -> bool {
    if len > 200 {
        return false;
    }
    let mut room = *lanes;
    let mut calls = 0u64;
    let mut in_order = true;
    let done = try_map_in_place(&mut LanesMut::new(&mut room[..len]), |lane: u64| {
        in_order = in_order && lane % 1000 == calls;
        calls = calls.wrapping_add(1);
        small(lane)
    });
    let each_once = in_order && calls == asked(len, first);
    each_once
        && done == refusal(len, first)
        && (done.is_err() || is_each(lanes, len, &room, &ALL, 1000))
}

fn tries_valid_in_place(lanes: &[u64; 200], mask: &BitBuffer, first: usize) -> bool {
    let len = mask.len();
    if len > 200 {
        return false;
    }
    let mut room = *lanes;
    let mut calls = 0u64;
    let mut in_order = true;
    let sink = &mut LanesMut::new(&mut room[..len]);
    let done = try_map_masked_in_place(sink, mask, |lane: u64| {
        in_order = in_order && lane % 1000 == calls;
        calls = calls.wrapping_add(1);
        small(lane)
    });
    let each_once = in_order && calls == asked(len, first);
    each_once
        && done == refusal(len, first)
        && (done.is_err() || is_each(lanes, len, &room, &ALL, 1000))
}

fn answers_each(len: usize, limit: usize, mask: &BitBuffer) -> bool {
    let lanes = lanes_of(len, limit);
    let first = first_valid(limit);
    maps(&lanes, mask)
        && maps_checked(&lanes, len, limit)
        && maps_in_place(&lanes, len)
        && tries(&lanes, len, limit)
        && tries_valid(&lanes, mask, first)
        && tries_in_place(&lanes, len, limit)
        && tries_valid_in_place(&lanes, mask, first)
}

// Whether each kernel answers as it should, with about half of the lanes valid where it takes a mask.
fn answers(alloc: Global, len: usize, limit: usize) -> bool {
    match bits_of(alloc, &HALF, len) {
        Ok(mask) => answers_each(len, limit, &mask),
        Err(_) => false,
    }
}

// So many lanes, of which those from a limit on fail. In the second last case all lanes that fail are null.
const CASES: [(usize, usize); 18] = [
    (0, 0),
    (1, 0),
    (1, 1),
    (63, 62),
    (64, 0),
    (64, 63),
    (64, 64),
    (65, 2),
    (65, 64),
    (65, 65),
    (127, 63),
    (128, 64),
    (129, 127),
    (129, 129),
    (200, 63),
    (200, 100),
    (200, 199),
    (200, 200),
];

#[test]
fn lanes_are_answered_up_to_the_first_that_refuses(rt: HostRuntime) {
    for (len, limit) in CASES.iter() {
        assert!(rt;
            answers(rt.alloc(), *len, *limit),
            "{len} lanes, those from {limit} on fail"
        );
    }
}
