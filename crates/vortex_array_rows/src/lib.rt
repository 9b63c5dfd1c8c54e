//! Row operations on the parts that columns are made of: values, bits, and lists of bytes. Contracts speak of lists.
//!
//! What is taken at places is said by their numbers, `map P.place places`, for each type `P` of places: `take_items`,
//! `take_items_or`, `take_bits`, `take_bits_or`, `take_lists` and `take_lists_or`. `places_below` and
//! `set_places_below` tell beforehand whether a list has all of its places.
#![tactic(auto)]

mod bit_rows;
mod items;
mod kept_bits;
mod kept_items;
mod kept_lists;
mod places;
mod set_bits;

pub use bit_rows::{slice_bits, take_bits, take_bits_or};
pub use items::{slice_items, take_items, take_items_or, take_lists, take_lists_or};
pub use kept_bits::filter_bits;
pub use kept_items::filter_items;
pub use kept_lists::filter_lists;
pub use places::{RowIndex, places_below, set_places_below};
pub use set_bits::first_set;
