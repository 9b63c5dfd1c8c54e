// A column encoded so many times, at least once. A function here owns one dictionary, tells of it and drops it.
use crate::telling::{Told, told_of};
use std::alloc::{AllocError, Global};
use vortex_array::Array;
use vortex_dict::dict_encode;

// The column as a dictionary. One that cannot be encoded is told as want of memory.
fn encode_once(alloc: Global, rows: &Array) -> Result<Told, AllocError> {
    match dict_encode(alloc, rows) {
        Ok(dict) => Ok(told_of(&dict)),
        Err(_) => Err(AllocError),
    }
}

/// The column as a dictionary, so many times.
pub fn encode_times(alloc: Global, rows: &Array, times: usize) -> Result<Told, AllocError> {
    let mut told = encode_once(alloc, rows)?;
    for _ in 1..times {
        told = encode_once(alloc, rows)?;
    }
    Ok(told)
}
