// How decimals in parts are written.
ghost use Rattle.std.specs.Prelude.{◌≡◌, IfOk, IsTrue, None, Some};
ghost use Rattle.vortex_array.specs.ColumnOf.{column_of};
ghost use Rattle.vortex_decimal_byte_parts.specs.Checked.{is_lower_type, is_msp_type};
ghost use Rattle.vortex_decimal_byte_parts.specs.Serialized.{children_of as parts_in_order, id_of as id_written, metadata_of as metadata_written};

use crate::parts::DecimalByteParts;
use crate::plugin::{decimal_byte_parts_v1_id, decimal_byte_parts_v2_id};
use std::alloc::{AllocError, Global};
use vortex_array::Array;
use vortex_array_children::width_number;
use vortex_buffer::Buffer;
use vortex_wire::{DecimalBytePartsV1Metadata, DecimalBytePartsV2Metadata};

// The id under which parts are written.
pub(crate) fn id_of(parts: &DecimalByteParts) -> &'static str
    ensures { result.now ≡ id_written parts.now.lower }
{
    match parts.lower_part() {
        None => decimal_byte_parts_v1_id(),
        Some(_) => decimal_byte_parts_v2_id(),
    }
}

// The canonical metadata of parts.
pub(crate) fn metadata_of(alloc: Global, parts: &DecimalByteParts) -> Result<Buffer<u8>, AllocError>
    ensures { IfOk result (λ bytes. bytes ≡ metadata_written parts.now.msp parts.now.lower) }
{
    match parts.lower_part() {
        None => v1_bytes(alloc, parts.msp()),
        Some(lower) => v2_bytes(alloc, parts.msp(), lower),
    }
}

// The canonical metadata of a most significant part alone.
fn v1_bytes(alloc: Global, msp: &Array) -> Result<Buffer<u8>, AllocError>
    requires msp { IsTrue (is_msp_type (column_of msp.now).dtype) }
    ensures { IfOk result (λ bytes. bytes ≡ metadata_written msp.now None) }
{
    let message = DecimalBytePartsV1Metadata {
        zeroth_child_ptype: width_number(msp.dtype()),
        lower_part_count: 0,
    };
    message.encode(alloc)
}

// The canonical metadata of two parts.
fn v2_bytes(alloc: Global, msp: &Array, lower: &Array) -> Result<Buffer<u8>, AllocError>
    requires msp { IsTrue (is_msp_type (column_of msp.now).dtype) }
    requires lower { IsTrue (is_lower_type (column_of lower.now).dtype) }
    ensures { IfOk result (λ bytes. bytes ≡ metadata_written msp.now (Some lower.now)) }
{
    let numbers = Buffer::from_slice(alloc, &[width_number(lower.dtype())])?;
    let message = DecimalBytePartsV2Metadata {
        msp_ptype: width_number(msp.dtype()),
        lower_part_ptypes: numbers,
    };
    message.encode(alloc)
}

// Copies of the parts, the most significant one first.
pub(crate) fn children_of(alloc: Global, parts: &DecimalByteParts) -> Result<Vec<Array>, AllocError>
    ensures { IfOk result (λ children. children.items ≡ parts_in_order parts.now) }
{
    let mut children = Vec::with_capacity(alloc, 2)?;
    children.push(parts.msp().try_clone(alloc)?)?;
    if let Some(lower) = parts.lower_part() {
        children.push(lower.try_clone(alloc)?)?;
    }
    Ok(children)
}
