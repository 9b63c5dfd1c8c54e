//! Reads metadata messages, one a line: the name of a message and bytes as hexadecimal digits. Writes for each line what the bytes
//! say and how that is spelled canonically, or `bad`.
#![tactic(auto)]

use anyhow::{Context, Result, bail};
use std::alloc::Global;
use std::io;
use vortex_buffer::Buffer;
use vortex_wire::{
    DecimalBytePartsV1Metadata, DecimalBytePartsV2Metadata, DictMetadata, MetadataError,
};

// Adds the digits of the canonical bytes.
fn with_bytes(alloc: Global, said: &str, bytes: &Buffer<u8>) -> Result<String> {
    let digits = hex::encode(alloc, bytes.as_slice())?;
    Ok(format!(in alloc; "{said} = {digits}")?)
}

fn dict(alloc: Global, bytes: &[u8]) -> Result<String> {
    let Ok(message) = DictMetadata::decode(bytes) else {
        return Ok(String::from_str(alloc, "bad")?);
    };
    let len = message.values_len;
    let ptype = message.codes_ptype;
    let said = match message.is_nullable_codes {
        Some(is_nullable) => format!(in alloc; "{len} {ptype} {is_nullable}")?,
        None => format!(in alloc; "{len} {ptype} absent")?,
    };
    let canonical = message.encode(alloc)?;
    with_bytes(alloc, said.as_str(), &canonical)
}

fn v1(alloc: Global, bytes: &[u8]) -> Result<String> {
    let Ok(message) = DecimalBytePartsV1Metadata::decode(bytes) else {
        return Ok(String::from_str(alloc, "bad")?);
    };
    let ptype = message.zeroth_child_ptype;
    let count = message.lower_part_count;
    let said = format!(in alloc; "{ptype} {count}")?;
    let canonical = message.encode(alloc)?;
    with_bytes(alloc, said.as_str(), &canonical)
}

fn v2(alloc: Global, bytes: &[u8]) -> Result<String> {
    match DecimalBytePartsV2Metadata::decode(alloc, bytes) {
        Ok(message) => v2_text(alloc, &message),
        Err(MetadataError::BadMetadata) => Ok(String::from_str(alloc, "bad")?),
        Err(MetadataError::OutOfMemory) => bail!("out of memory"),
    }
}

fn v2_text(alloc: Global, message: &DecimalBytePartsV2Metadata) -> Result<String> {
    let ptype = message.msp_ptype;
    let mut said = format!(in alloc; "{ptype}")?;
    for lower in message.lower_part_ptypes.as_slice() {
        said.push_str(format!(in alloc; " {lower}")?.as_str())?;
    }
    let canonical = message.encode(alloc)?;
    with_bytes(alloc, said.as_str(), &canonical)
}

fn answer(alloc: Global, line: &str) -> Result<String> {
    let (name, digits) = line
        .split_once(' ')
        .context("a line is a name, a space and digits")?;
    let bytes = hex::decode(alloc, digits)?;
    match name {
        "dict" => dict(alloc, bytes.as_slice()),
        "v1" => v1(alloc, bytes.as_slice()),
        "v2" => v2(alloc, bytes.as_slice()),
        _ => bail!("a message is dict, v1 or v2"),
    }
}

fn main(rt: HostRuntime) -> Result<()> {
    let input = io::read_to_string(rt.alloc(), rt.stdin())?;
    for line in input.as_str().lines() {
        let text = answer(rt.alloc(), line)?;
        println!(rt; "{text}")?;
    }
    Ok(())
}
