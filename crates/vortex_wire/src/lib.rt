//! The wire format of the messages that tell how columns are encoded: a profile of Protocol Buffers.
//! Contracts cite the grammar as relations on whole lists of bytes; what is written has one spelling.
#![tactic(auto)]

mod field;
mod laws;
mod messages;
mod reading;
mod varint;
mod writing;

pub use field::{WireField, WirePayload, next_field};
pub use laws::{canonical_spells, one_message};
pub use messages::{
    DecimalBytePartsV1Metadata, DecimalBytePartsV2Metadata, DictMetadata, MetadataError,
};
pub use varint::{BadMetadata, next_varint};
