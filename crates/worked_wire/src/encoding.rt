// What is written of messages.
use crate::shown::{Kind, bytes_of, message};
use std::alloc::{AllocError, Global};
use std::test::Fail;
use vortex_buffer::Buffer;
use vortex_wire::{DecimalBytePartsV1Metadata, DecimalBytePartsV2Metadata, DictMetadata};

// Dictionaries and their bytes.
const DICTS: [(u32, i32, Option<bool>, &str); 5] = [
    (0, 0, None, ""),
    (1, 0, Some(false), "08011800"),
    (4_294_967_295, 3, None, "08ffffffff0f1003"),
    (300, 6, Some(true), "08ac0210061801"),
    (0, -1, None, "10ffffffffffffffffff01"),
];

// Whether a dictionary's message is written so.
fn dict_is(alloc: Global, dict: DictMetadata, want: &str) -> Result<bool, AllocError> {
    let bytes = dict.encode(alloc)?;
    Ok(bytes.as_slice() == bytes_of(alloc, want)?.as_slice())
}

#[test]
fn dictionaries_are_written(rt: HostRuntime) -> Result<(), Fail> {
    for (values_len, codes_ptype, is_nullable_codes, want) in DICTS {
        let dict = DictMetadata {
            values_len,
            codes_ptype,
            is_nullable_codes,
        };
        assert!(rt; dict_is(rt.alloc(), dict, want)?, "{want}");
    }
    Ok(())
}

// Decimals of the first version and their bytes.
const FIRSTS: [(i32, u32, &str); 3] = [(6, 0, "0806"), (6, 1, "08061001"), (0, 0, "")];

// Whether a message of the first version is written so.
fn first_is(
    alloc: Global,
    parts: DecimalBytePartsV1Metadata,
    want: &str,
) -> Result<bool, AllocError> {
    let bytes = parts.encode(alloc)?;
    Ok(bytes.as_slice() == bytes_of(alloc, want)?.as_slice())
}

#[test]
fn decimals_of_the_first_version_are_written(rt: HostRuntime) -> Result<(), Fail> {
    for (zeroth_child_ptype, lower_part_count, want) in FIRSTS {
        let parts = DecimalBytePartsV1Metadata {
            zeroth_child_ptype,
            lower_part_count,
        };
        assert!(rt; first_is(rt.alloc(), parts, want)?, "{want}");
    }
    Ok(())
}

// Decimals of the second version and their bytes.
const SECONDS: [(i32, &[i32], &str); 4] = [
    (7, &[3], "0807120103"),
    (0, &[], ""),
    (7, &[], "0807"),
    (0, &[1, -1, 2], "120c01ffffffffffffffffff0102"),
];

// Whether a message of the second version is written so, and read again.
fn second_is(alloc: Global, msp_ptype: i32, lower: &[i32], want: &str) -> Result<bool, AllocError> {
    let parts = DecimalBytePartsV2Metadata {
        msp_ptype,
        lower_part_ptypes: Buffer::from_slice(alloc, lower)?,
    };
    let bytes = parts.encode(alloc)?;
    Ok(bytes.as_slice() == bytes_of(alloc, want)?.as_slice())
}

#[test]
fn decimals_of_the_second_version_are_written(rt: HostRuntime) -> Result<(), Fail> {
    for (msp_ptype, lower, want) in SECONDS {
        assert!(rt; second_is(rt.alloc(), msp_ptype, lower, want)?, "{want}");
    }
    Ok(())
}

#[test]
fn what_is_written_is_read_again(rt: HostRuntime) -> Result<(), Fail> {
    let bytes = bytes_of(rt.alloc(), "120c01ffffffffffffffffff0102")?;
    let text = message(rt.alloc(), Kind::V2, bytes.as_slice())?;
    assert_eq!(rt; text.as_str(), "0 1 -1 2");
    Ok(())
}
