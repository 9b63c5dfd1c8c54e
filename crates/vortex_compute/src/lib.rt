//! Lane kernels: the loops that every operation on columns is made of.
//!
//! A kernel reads lanes of an `IndexedSource`, asks a closure once for each, and writes what it answered. A lane is null
//! where a mask's bit is not set. Every contract speaks of one list of answers for the call, of which answer `i` is one
//! that the closure gave to lane `i` (`AllZip P lanes answers`; for a closure that changes as it is called, `InOrder`),
//! so that a closure may answer differently each time it is asked.
//!
//! | Kernel | A valid lane's place | A null lane's place | After a refusal | Past the end |
//! |---|---|---|---|---|
//! | `map_into` | the answer | | cannot refuse | nothing: `out` is as long as the lanes |
//! | `map_masked_into` | the answer | the default | cannot refuse | the same |
//! | `map_checked_into` | the answer's value; its failures are joined | | cannot refuse | the same |
//! | `try_map_into` | the value | | `out` may be anything | the same |
//! | `try_map_masked_into` | the value | the value, or the default where the answer is none | `out` may be anything | the same |
//! | `map_bits_into`, `compare_*_bits` | bit `i` of the words | | cannot refuse | spare bits are 0, further words stay |
//! | `map_into_in_place` | what the answer reads back as | | cannot refuse | nothing |
//! | `try_map_in_place` | what the value reads back as | | the lanes may be anything, as many as before | nothing |
//! | `try_map_masked_in_place` | the same | the value or the default, read back | the lanes may be anything, as many as before | nothing |
//!
//! A kernel that can refuse answers the first valid lane whose answer was none. It works by groups of 64 lanes and looks
//! at the failures of a group at its end, so that the loop over the lanes has no branch. Each lane is asked at most once;
//! of the in-place kernels a clause says that the lanes of the failing group are all asked, and none after. No kernel
//! takes memory, apart from `collect_bits`, `collect_lane_bits` and `collect_zip_bits`, which make a buffer.
#![tactic(auto)]

mod compare;
mod fail_word;
mod in_place;
mod lane_default;
mod mapping;
mod packing;
mod refusing;
mod same_bits;
mod sink;
mod source;

pub use compare::{compare_i64_bits, compare_u64_bits, compare_words_bits};
pub use fail_word::FailWord;
pub use in_place::{map_into_in_place, try_map_in_place, try_map_masked_in_place};
pub use lane_default::LaneDefault;
pub use mapping::{map_checked_into, map_into, map_masked_into};
pub use packing::{
    bit_buffer_from_words, collect_bits, collect_lane_bits, collect_zip_bits, map_bits_into,
};
pub use refusing::{try_map_into, try_map_masked_into};
pub use same_bits::SameBits;
pub use sink::{IndexedSink, LanesMut, ReinterpretSink};
pub use source::{IndexedSource, LaneZip, Lanes, Repeat};
pub use vortex_buffer::CompareOperator;
