//! Builders of dictionaries: the distinct rows of columns in the order in which they first appear, and for each row the place
//! of its entry, as long as the limits let new entries in.
#![tactic(auto)]

mod any;
mod builder;
mod constraints;
mod encoder;
mod entries;
mod errors;
mod primitives;
mod repeated;
mod strings;
mod validities;
mod widths;

pub use any::{
    AnyDictEncoder, bytes_dict_builder, dict_encoder, primitive_dict_builder, unlimited_encoder,
};
pub use builder::DictBuilder;
pub use constraints::{DictConstraints, UNCONSTRAINED};
pub use encoder::DictEncoder;
pub use entries::Entries;
pub use errors::{DictEncodeError, EncodeError};
pub use primitives::{PrimitiveDictBuilder, PrimitiveEntries};
pub use repeated::plain_form;
pub use strings::{BytesDictBuilder, StringEntries};
pub use widths::AnyWidth;
