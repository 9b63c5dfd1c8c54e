// What encoding gave, as its caller checks it. Telling it costs next to nothing beside the call.
use vortex_array::ValueRef;
use vortex_dict::DictArray;

/// What encoding gave. Both parts are 0 where memory was wanting.
#[repr(C)]
#[derive(Clone, Copy)]
pub struct Told {
    /// How many values there are.
    pub values: usize,
    /// The first, the middle and the last code as one number.
    pub codes: u64,
}

/// What is told of no dictionary.
pub fn nothing() -> Told {
    Told {
        values: 0,
        codes: 0,
    }
}

// The code at a place, or 0 where there is none.
fn code_at(dict: &DictArray, i: usize) -> u64 {
    if i >= dict.codes().len() {
        return 0;
    }
    match dict.codes().value_at(i) {
        Some(ValueRef::Int(number)) => u64::try_from(number).unwrap_or(0),
        _ => 0,
    }
}

/// What is told of a dictionary.
pub fn told_of(dict: &DictArray) -> Told {
    let len = dict.codes().len();
    let first = code_at(dict, 0);
    let middle = code_at(dict, len / 2);
    let last = code_at(dict, len.saturating_sub(1));
    Told {
        values: dict.values().len(),
        codes: first.wrapping_add(middle).wrapping_add(last),
    }
}
