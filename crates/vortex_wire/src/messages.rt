// The messages that tell how columns are encoded.
ghost use Rattle.std.specs.Prelude.{◌≡◌, ◌%◌, ◌^◌, List, IfOk, OnErr, IsErrOf};
ghost use Rattle.vortex_wire.specs.Canonical.{canonical};
ghost use Rattle.vortex_wire.specs.Messages.{Spells, Value, or_zero, signed, truth_of};
ghost use Rattle.vortex_wire.specs.Tables.{dict_rows, dict_values, v1_rows, v1_values, v2_rows, v2_values};
ghost use Rattle.vortex_wire.specs.declared.messages.MetadataError.TheVariants as MetadataError;

use crate::BadMetadata;
use crate::reading::{integers, last_number, signed_of};
use crate::writing::{extended_of, push_run, push_truth, push_unless_zero, run_bytes};
use std::alloc::{AllocError, Global};
use thiserror::Error;
use vortex_buffer::Buffer;

/// Why a message was not decoded.
#[derive(Clone, Copy, Debug, PartialEq, Eq, Error)]
pub enum MetadataError {
    /// The bytes spell no message.
    #[error("the metadata is malformed")]
    BadMetadata,
    /// Memory ran out.
    #[error("out of memory")]
    OutOfMemory,
}

/// How a dictionary is encoded: the number of its values, the type of its codes, and whether these are nullable.
#[derive(Clone, Copy, Debug, PartialEq, Eq)]
pub struct DictMetadata {
    pub values_len: u32,
    pub codes_ptype: i32,
    pub is_nullable_codes: Option<bool>,
}

/// How decimals in parts are encoded, first version: the type of the most significant part, and how many lower parts there are.
#[derive(Clone, Copy, Debug, PartialEq, Eq)]
pub struct DecimalBytePartsV1Metadata {
    pub zeroth_child_ptype: i32,
    pub lower_part_count: u32,
}

/// How decimals in parts are encoded, second version: the types of the most significant part and of the lower parts.
pub struct DecimalBytePartsV2Metadata {
    pub msp_ptype: i32,
    pub lower_part_ptypes: Buffer<i32>,
}

impl Drop for DecimalBytePartsV2Metadata {
    fn drop(self) {
        let DecimalBytePartsV2Metadata {
            msp_ptype: _msp_ptype,
            lower_part_ptypes: _lower_part_ptypes,
        } = self;
    }
}

impl DictMetadata {
    /// The canonical spelling.
    pub fn encode(&self, alloc: Global) -> Result<Buffer<u8>, AllocError>
        ensures { IfOk result (λ bytes. bytes ≡ canonical dict_rows (dict_values self.now)) }
    {
        let mut out = Vec::new(alloc);
        push_unless_zero(&mut out, 1, u64::from(self.values_len))?;
        push_unless_zero(&mut out, 2, extended_of(self.codes_ptype))?;
        push_truth(&mut out, 3, self.is_nullable_codes)?;
        Ok(Buffer::from_vec(out))
    }

    /// The message that the bytes spell. It takes no memory.
    pub fn decode(bytes: &[u8]) -> Result<DictMetadata, BadMetadata>
        ensures found { IfOk result (λ message. Spells dict_rows bytes.now (dict_values message)) }
        ensures bad { OnErr result ((values : List Value) → Spells dict_rows bytes.now values → ⊥) }
    {
        let Ok(values_len) = last_number(bytes, 1, false) else {
            return Err(BadMetadata);
        };
        let Ok(codes_ptype) = last_number(bytes, 2, false) else {
            return Err(BadMetadata);
        };
        let Ok(nullable) = last_number(bytes, 3, false) else {
            return Err(BadMetadata);
        };
        Ok(DictMetadata {
            values_len: whole(values_len),
            codes_ptype: signed_or_zero(codes_ptype),
            is_nullable_codes: truth(nullable),
        })
    }
}

impl DecimalBytePartsV1Metadata {
    /// The canonical spelling.
    pub fn encode(&self, alloc: Global) -> Result<Buffer<u8>, AllocError>
        ensures { IfOk result (λ bytes. bytes ≡ canonical v1_rows (v1_values self.now)) }
    {
        let mut out = Vec::new(alloc);
        push_unless_zero(&mut out, 1, extended_of(self.zeroth_child_ptype))?;
        push_unless_zero(&mut out, 2, u64::from(self.lower_part_count))?;
        Ok(Buffer::from_vec(out))
    }

    /// The message that the bytes spell. It takes no memory.
    pub fn decode(bytes: &[u8]) -> Result<DecimalBytePartsV1Metadata, BadMetadata>
        ensures found { IfOk result (λ message. Spells v1_rows bytes.now (v1_values message)) }
        ensures bad { OnErr result ((values : List Value) → Spells v1_rows bytes.now values → ⊥) }
    {
        let Ok(zeroth_child_ptype) = last_number(bytes, 1, false) else {
            return Err(BadMetadata);
        };
        let Ok(lower_part_count) = last_number(bytes, 2, false) else {
            return Err(BadMetadata);
        };
        Ok(DecimalBytePartsV1Metadata {
            zeroth_child_ptype: signed_or_zero(zeroth_child_ptype),
            lower_part_count: whole(lower_part_count),
        })
    }
}

impl DecimalBytePartsV2Metadata {
    /// The canonical spelling.
    pub fn encode(&self, alloc: Global) -> Result<Buffer<u8>, AllocError>
        ensures { IfOk result (λ bytes. bytes ≡ canonical v2_rows (v2_values self.now)) }
    {
        let run = run_bytes(alloc, self.lower_part_ptypes.as_slice())?;
        let mut out = Vec::new(alloc);
        push_unless_zero(&mut out, 1, extended_of(self.msp_ptype))?;
        push_run(&mut out, 2, run.as_slice())?;
        Ok(Buffer::from_vec(out))
    }

    /// The message that the bytes spell. That they spell one is known before memory is taken.
    pub fn decode(alloc: Global, bytes: &[u8]) -> Result<DecimalBytePartsV2Metadata, MetadataError>
        ensures found { IfOk result (λ message. Spells v2_rows bytes.now (v2_values message)) }
        ensures bad { IsErrOf result MetadataError.BadMetadata → (values : List Value) → Spells v2_rows bytes.now values → ⊥ }
        ensures memory { IsErrOf result MetadataError.OutOfMemory → (values : List Value) × Spells v2_rows bytes.now values }
    {
        let Ok(msp_ptype) = last_number(bytes, 1, false) else {
            return Err(MetadataError::BadMetadata);
        };
        let Ok(_last) = last_number(bytes, 2, true) else {
            return Err(MetadataError::BadMetadata);
        };
        match integers(alloc, bytes, 2) {
            Ok(types) => Ok(DecimalBytePartsV2Metadata {
                msp_ptype: signed_or_zero(msp_ptype),
                lower_part_ptypes: Buffer::from_vec(types),
            }),
            Err(error) => Err(error),
        }
    }
}

// The low 32 bits of a number, or 0 where there is none.
fn whole(number: Option<u64>) -> u32
    ensures { result ≡ or_zero number % 2 ^ 32 }
{
    match number {
        Some(number) => (number % (1 << 32)) as u32,
        None => 0,
    }
}

// The low 32 bits of a number as one with a sign, or 0 where there is none.
fn signed_or_zero(number: Option<u64>) -> i32
    ensures { result ≡ signed (or_zero number) }
{
    match number {
        Some(number) => signed_of(number),
        None => signed_of(0),
    }
}

// Whether a number is not 0, where there is one.
fn truth(number: Option<u64>) -> Option<bool>
    ensures { result ≡ truth_of number }
{
    match number {
        Some(number) => Some(number != 0),
        None => None,
    }
}
