// Decimals in parts as metadata and children.
ghost use Rattle.std.specs.Prelude.{◌<◌, length};
ghost use Rattle.vortex_decimal_byte_parts.specs.Columns.{parts_column};

use crate::samples::{LARGE, are_rows, digits, narrow, wide};
use std::alloc::{AllocError, Global};
use std::test::Fail;
use vortex_array::{
    Array, DType, Nullability, PType, PrimitiveArray, PrimitiveBuffer, Validity, ValueRef,
};
use vortex_buffer::Buffer;
use vortex_decimal_byte_parts::{
    DecimalByteParts, DecimalBytePartsPlugin, SerdeError, decimal_byte_parts_v1_id,
    decimal_byte_parts_v2_id, serialized_again,
};

const V1: &str = "vortex.decimal_byte_parts";

const V2: &str = "vortex.decimal_byte_parts.v2";

const I32: (PType, Nullability) = (PType::I32, Nullability::NonNullable);

const I64: (PType, Nullability) = (PType::I64, Nullability::NonNullable);

const U64: (PType, Nullability) = (PType::U64, Nullability::NonNullable);

const I32_NULLABLE: (PType, Nullability) = (PType::I32, Nullability::Nullable);

const U64_NULLABLE: (PType, Nullability) = (PType::U64, Nullability::Nullable);

// An id, metadata, the types of children whose rows are 5 and 7, and what is read of decimals without nulls: their numbers, or
// why they are refused.
const READ: [(&str, &[u8], &[(PType, Nullability)], &str); 22] = [
    (V1, &[8, 6], &[I32], "5 7"),
    (V1, &[8, 6, 26, 1, 9], &[I32], "5 7"),
    (V2, &[8, 7], &[I64], "5 7"),
    (
        V2,
        &[8, 7, 16, 3],
        &[I64, U64],
        "92233720368547758085 129127208515966861319",
    ),
    (
        V2,
        &[8, 7, 18, 1, 3],
        &[I64, U64],
        "92233720368547758085 129127208515966861319",
    ),
    ("x", &[8, 6], &[I32], "the id is not known"),
    ("", &[11], &[I32], "the id is not known"),
    (V1, &[8], &[I32], "the metadata is malformed"),
    (V1, &[18, 0], &[I32], "the metadata is malformed"),
    (V2, &[11], &[I64], "the metadata is malformed"),
    (V1, &[8, 2, 16, 1], &[I32], "there are too many lower parts"),
    (
        V2,
        &[8, 2, 18, 2, 9, 9],
        &[I64],
        "there are too many lower parts",
    ),
    (
        V1,
        &[8, 2],
        &[I32, U64],
        "there is not one child for each part",
    ),
    (V1, &[8, 2], &[], "there is not one child for each part"),
    (
        V2,
        &[8, 2, 16, 9],
        &[I64],
        "there is not one child for each part",
    ),
    (
        V1,
        &[8, 2],
        &[I64],
        "the type of part 0 is no type of such a part",
    ),
    (
        V1,
        &[8, 8],
        &[I64],
        "the type of part 0 is no type of such a part",
    ),
    (
        V2,
        &[8, 7, 16, 6],
        &[I32, I32],
        "the type of part 1 is no type of such a part",
    ),
    (V1, &[8, 6], &[I64], "child 0 is not of its type and length"),
    (
        V1,
        &[8, 6],
        &[I32_NULLABLE],
        "child 0 is not of its type and length",
    ),
    (
        V2,
        &[8, 7, 16, 3],
        &[I32, I64],
        "child 0 is not of its type and length",
    ),
    (
        V2,
        &[8, 7, 16, 3],
        &[I64, U64_NULLABLE],
        "child 1 is not of its type and length",
    ),
];

// Rows 5 and 7 of a type of whole numbers.
fn child(alloc: Global, width: PType, nulls: Nullability) -> Result<Array, AllocError> {
    let values = match width {
        PType::I32 => PrimitiveBuffer::I32(Buffer::from_slice(alloc, &[5, 7])?),
        PType::I64 => PrimitiveBuffer::I64(Buffer::from_slice(alloc, &[5, 7])?),
        _ => PrimitiveBuffer::U64(Buffer::from_slice(alloc, &[5, 7])?),
    };
    let validity = match nulls {
        Nullability::NonNullable => Validity::NonNullable,
        Nullability::Nullable => Validity::AllValid,
    };
    match PrimitiveArray::try_new(values, validity) {
        Ok(array) => Ok(Array::Primitive(array)),
        Err(_) => Err(AllocError),
    }
}

fn children(alloc: Global, types: &[(PType, Nullability)]) -> Result<Vec<Array>, AllocError> {
    let mut children = Vec::new(alloc);
    for (width, nulls) in types {
        children.push(child(alloc, *width, *nulls)?)?;
    }
    Ok(children)
}

// What is read of metadata and children, as text.
fn read(
    alloc: Global,
    id: &str,
    metadata: &[u8],
    types: &[(PType, Nullability)],
    dtype: &DType,
) -> Result<String, AllocError> {
    let children = children(alloc, types)?;
    match DecimalBytePartsPlugin.deserialize(alloc, id, dtype, 2, metadata, children) {
        Ok(parts) => shown(alloc, &parts),
        Err(SerdeError::OutOfMemory) => Err(AllocError),
        Err(error) => format!(in alloc; "{error}"),
    }
}

// The numbers of decimals as text.
fn shown(alloc: Global, parts: &DecimalByteParts) -> Result<String, AllocError> {
    let mut text = String::new(alloc);
    for i in 0..parts.len() {
        if i > 0 {
            text.push(' ')?;
        }
        text.push_str(number(alloc, parts, i)?.as_str())?;
    }
    Ok(text)
}

fn number(alloc: Global, parts: &DecimalByteParts, i: usize) -> Result<String, AllocError>
    requires { i < length (parts_column parts.now).rows }
{
    let scalar = parts.scalar_at(i);
    match scalar.value_ref() {
        Some(ValueRef::Decimal(number)) => format!(in alloc; "{number}"),
        _ => String::from_str(alloc, "null"),
    }
}

#[test]
fn metadata_and_children_are_read_or_refused(rt: HostRuntime) -> Result<(), Fail> {
    let dtype = DType::Decimal(digits()?, Nullability::NonNullable);
    for (id, metadata, types, wanted) in READ {
        let given = read(rt.alloc(), id, metadata, types, &dtype)?;
        assert!(rt; given.as_str() == wanted, "{id} {given}");
    }
    Ok(())
}

// Whether children without nulls are read as decimals with nulls in their type.
fn is_nullable(
    alloc: Global,
    id: &str,
    metadata: &[u8],
    types: &[(PType, Nullability)],
) -> Result<bool, Fail> {
    let dtype = DType::Decimal(digits()?, Nullability::Nullable);
    let children = children(alloc, types)?;
    match DecimalBytePartsPlugin.deserialize(alloc, id, &dtype, 2, metadata, children) {
        Ok(parts) => Ok(parts.dtype() == dtype && parts.validity_mask(alloc)?.all_true()),
        Err(_) => Ok(false),
    }
}

#[test]
fn children_without_nulls_become_nullable(rt: HostRuntime) -> Result<(), Fail> {
    let alloc = rt.alloc();
    assert!(rt; is_nullable(alloc, V1, &[8, 6], &[I32])?);
    assert!(rt; is_nullable(alloc, V2, &[8, 7, 16, 3], &[I64, U64])?);
    Ok(())
}

// Why children of a whole-number type are no decimals, as text.
fn read_numbers(alloc: Global, metadata: &[u8]) -> Result<String, AllocError> {
    let dtype = DType::Primitive(PType::I32, Nullability::NonNullable);
    read(alloc, V1, metadata, &[I32], &dtype)
}

#[test]
fn the_type_comes_behind_the_metadata(rt: HostRuntime) -> Result<(), Fail> {
    for (metadata, wanted) in [
        ([8, 6], "the type is not that of decimals"),
        ([16, 1], "the type is not that of decimals"),
        ([11, 0], "the metadata is malformed"),
    ] {
        let given = read_numbers(rt.alloc(), &metadata)?;
        assert!(rt; given.as_str() == wanted, "{given}");
    }
    Ok(())
}

// Whether parts are written under this id with these bytes and so many children.
fn is_written(
    alloc: Global,
    parts: &DecimalByteParts,
    id: &str,
    metadata: &[u8],
    children: usize,
) -> Result<bool, AllocError> {
    let written = DecimalBytePartsPlugin.serialize(alloc, parts)?;
    Ok(
        written.id.as_str() == id
            && written.metadata.as_slice() == metadata
            && written.children.len() == children,
    )
}

#[test]
fn parts_are_written_and_come_back(rt: HostRuntime) -> Result<(), Fail> {
    let alloc = rt.alloc();
    let two = wide(alloc, &[LARGE, -1], Validity::AllValid)?;
    assert!(rt; is_written(alloc, &two, V2, &[8, 7, 18, 1, 3], 2)?);
    assert!(rt; are_rows(&serialized_again(alloc, &two)?, &[Some(LARGE), Some(-1)]));
    let one = narrow(alloc, &[5, 7], Validity::NonNullable)?;
    assert!(rt; is_written(alloc, &one, V1, &[8, 6], 1)?);
    assert!(rt; are_rows(&serialized_again(alloc, &one)?, &[Some(5), Some(7)]));
    Ok(())
}

#[test]
fn the_ids_are_told(rt: HostRuntime) {
    assert!(rt; DecimalBytePartsPlugin.id() == V2);
    let [first, second] = DecimalBytePartsPlugin.serialized_ids();
    assert!(rt; first == V1 && second == V2);
    assert!(rt; decimal_byte_parts_v1_id() == V1);
    assert!(rt; decimal_byte_parts_v2_id() == V2);
}
