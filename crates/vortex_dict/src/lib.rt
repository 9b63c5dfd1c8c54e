//! Dictionary arrays: a column as codes, one for each row, and the values that they name.
//! Each call answers by rows: one definition, `decoded`, gives the column that codes and values stand for.
#![tactic(auto)]

mod apply;
mod build_error;
mod building;
mod canonical;
mod cast;
mod codes;
mod compare;
mod constant;
mod dict;
mod encode;
mod error;
mod fill;
mod laws;
mod lookup;
mod min_max;
mod naming;
mod orders;
mod presence;
mod row;
mod rows;
mod shortcuts;
mod slices;
mod truths;
mod valid;

pub use build_error::{BuildError, TooManyValues};
pub use building::{build, built_again, dict_id};
pub use dict::DictArray;
pub use encode::{dict_encode, dict_encode_with_constraints, encode_both, require_all};
pub use error::{DictCastError, DictError};
pub use fill::DictFilled;
pub use laws::{compare_both, filter_both, slice_both, take_both};
pub use slices::DictSlice;
pub use vortex_dict_builders::{
    AnyDictEncoder, AnyWidth, BytesDictBuilder, DictBuilder, DictConstraints, DictEncodeError,
    DictEncoder, EncodeError, PrimitiveDictBuilder, UNCONSTRAINED, bytes_dict_builder,
    dict_encoder, primitive_dict_builder,
};
pub use vortex_wire::{BadMetadata, DictMetadata};
