// Bytes and messages as text.
use std::alloc::{AllocError, Global};
use vortex_wire::{
    DecimalBytePartsV1Metadata, DecimalBytePartsV2Metadata, DictMetadata, MetadataError,
};

/// Which message bytes are read as.
#[derive(Clone, Copy)]
pub(crate) enum Kind {
    Dict,
    V1,
    V2,
}

fn digit(byte: u8) -> u8 {
    match byte {
        b'0'..=b'9' => byte - b'0',
        b'a'..=b'f' => byte - b'a' + 10,
        _ => 0,
    }
}

/// The bytes of hexadecimal text, two digits a byte, without spaces.
pub(crate) fn bytes_of(alloc: Global, text: &str) -> Result<Vec<u8>, AllocError> {
    let mut bytes = Vec::new(alloc);
    let mut high = 0;
    let mut is_second = false;
    for byte in text.as_bytes() {
        let value = digit(*byte) % 16;
        if is_second {
            bytes.push(high % 16 * 16 + value)?;
        }
        high = value;
        is_second = !is_second;
    }
    Ok(bytes)
}

/// The message that the bytes spell as text, or `bad`.
pub(crate) fn message(alloc: Global, kind: Kind, bytes: &[u8]) -> Result<String, AllocError> {
    match kind {
        Kind::Dict => dict(alloc, bytes),
        Kind::V1 => v1(alloc, bytes),
        Kind::V2 => v2(alloc, bytes),
    }
}

fn dict(alloc: Global, bytes: &[u8]) -> Result<String, AllocError> {
    let Ok(message) = DictMetadata::decode(bytes) else {
        return String::from_str(alloc, "bad");
    };
    let len = message.values_len;
    let ptype = message.codes_ptype;
    match message.is_nullable_codes {
        Some(is_nullable) => format!(in alloc; "{len} {ptype} {is_nullable}"),
        None => format!(in alloc; "{len} {ptype} absent"),
    }
}

fn v1(alloc: Global, bytes: &[u8]) -> Result<String, AllocError> {
    let Ok(message) = DecimalBytePartsV1Metadata::decode(bytes) else {
        return String::from_str(alloc, "bad");
    };
    let ptype = message.zeroth_child_ptype;
    let count = message.lower_part_count;
    format!(in alloc; "{ptype} {count}")
}

fn v2(alloc: Global, bytes: &[u8]) -> Result<String, AllocError> {
    match DecimalBytePartsV2Metadata::decode(alloc, bytes) {
        Ok(message) => v2_text(alloc, &message),
        Err(MetadataError::BadMetadata) => String::from_str(alloc, "bad"),
        Err(MetadataError::OutOfMemory) => Err(AllocError),
    }
}

fn v2_text(alloc: Global, message: &DecimalBytePartsV2Metadata) -> Result<String, AllocError> {
    let ptype = message.msp_ptype;
    let mut text = format!(in alloc; "{ptype}")?;
    for lower in message.lower_part_ptypes.as_slice() {
        text.push(' ')?;
        text.push_str(format!(in alloc; "{lower}")?.as_str())?;
    }
    Ok(text)
}
