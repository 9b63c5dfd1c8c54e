// Parts that are refused.
use crate::samples::digits;
use std::alloc::Global;
use std::test::Fail;
use vortex_array::{Array, DType, Nullability, PrimitiveArray, PrimitiveBuffer, Validity};
use vortex_buffer::Buffer;
use vortex_decimal_byte_parts::{
    AssembleError, DecimalByteParts, DecimalBytePartsData, PartsError, assemble_decimal,
};

fn signed(alloc: Global, numbers: &[i64]) -> Result<Array, Fail> {
    let values = PrimitiveBuffer::I64(Buffer::from_slice(alloc, numbers)?);
    Ok(Array::Primitive(PrimitiveArray::try_new(values, Validity::NonNullable)?))
}

fn unsigned(alloc: Global, numbers: &[u64], validity: Validity) -> Result<Array, Fail> {
    let values = PrimitiveBuffer::U64(Buffer::from_slice(alloc, numbers)?);
    Ok(Array::Primitive(PrimitiveArray::try_new(values, validity)?))
}

// Why a most significant part of two rows and these lower parts are refused.
fn refused(alloc: Global, lower: &[Array]) -> Result<Option<PartsError>, Fail> {
    let msp = signed(alloc, &[1, 2])?;
    let dtype = DType::Decimal(digits()?, Nullability::NonNullable);
    match DecimalBytePartsData::validate(&msp, lower, digits()?, &dtype, 2) {
        Ok(()) => Ok(None),
        Err(error) => Ok(Some(error)),
    }
}

#[test]
fn lower_parts_are_refused_in_order(rt: HostRuntime) -> Result<(), Fail> {
    let alloc = rt.alloc();
    let right = unsigned(alloc, &[1, 2], Validity::NonNullable)?;
    let other = unsigned(alloc, &[1, 2], Validity::NonNullable)?;
    let short = unsigned(alloc, &[1], Validity::NonNullable)?;
    let null = unsigned(alloc, &[1, 2], Validity::AllValid)?;
    assert!(rt; refused(alloc, &[])?.is_none());
    assert!(rt; refused(alloc, &[right, other])? == Some(PartsError::TooManyLowerParts));
    assert!(rt; refused(alloc, &[short])? == Some(PartsError::LengthMismatch));
    assert!(rt; refused(alloc, &[null])? == Some(PartsError::LowerNotUnsigned));
    Ok(())
}

#[test]
fn a_most_significant_part_without_sign_is_refused(rt: HostRuntime) -> Result<(), Fail> {
    let alloc = rt.alloc();
    let msp = unsigned(alloc, &[1, 2], Validity::NonNullable)?;
    let again = assemble_decimal(alloc, &msp, &[], digits()?);
    assert!(rt; matches!(again, Err(AssembleError::MspNotSigned)));
    let made = DecimalByteParts::try_new(msp, digits()?);
    assert!(rt; matches!(made, Err(PartsError::MspNotSigned)));
    Ok(())
}

#[test]
fn a_type_with_other_nulls_is_refused(rt: HostRuntime) -> Result<(), Fail> {
    let alloc = rt.alloc();
    let msp = signed(alloc, &[1])?;
    let dtype = DType::Decimal(digits()?, Nullability::Nullable);
    let checked = DecimalBytePartsData::validate(&msp, &[], digits()?, &dtype, 1);
    assert!(rt; matches!(checked, Err(PartsError::WrongDecimalType)));
    Ok(())
}
