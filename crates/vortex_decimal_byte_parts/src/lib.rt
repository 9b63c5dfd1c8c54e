//! Decimals in parts: a signed most significant part, which says which rows are null, and an unsigned lower part where there
//! is one. Each call answers by rows: one definition, `parts_column`, reads parts as their column.
#![tactic(auto)]

mod answers;
mod assemble;
mod bounded;
mod cast;
mod checks;
mod compare;
mod errors;
mod interval;
mod laws;
mod numbers;
mod pairs;
mod parts;
mod plugin;
mod reading;
mod select;
mod split;
mod writing;

pub use assemble::{assemble_decimal, assemble_wide_decimal};
pub use checks::DecimalBytePartsData;
pub use errors::{AssembleError, PartsCastError, PartsError, SerdeError};
pub use laws::{
    assembled_again, compared_as_decoded, filtered_as_decoded, number_given_back, serialized_again,
    sliced_as_decoded, taken_as_decoded,
};
pub use parts::{DecimalByteParts, DecimalBytePartsArray};
pub use plugin::{
    ArraySerialization, DecimalBytePartsPlugin, decimal_byte_parts_v1_id, decimal_byte_parts_v2_id,
};
pub use split::{DecimalParts, i128_to_parts, split_decimal, split_wide};
pub use vortex_wire::{
    BadMetadata, DecimalBytePartsV1Metadata, DecimalBytePartsV2Metadata, MetadataError,
};
