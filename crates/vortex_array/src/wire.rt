// The wire format of the messages that tell how columns are encoded.
pub use vortex_wire::{
    BadMetadata, DecimalBytePartsV1Metadata, DecimalBytePartsV2Metadata, DictMetadata,
    MetadataError, WireField, WirePayload, canonical_spells, next_field, next_varint, one_message,
};
