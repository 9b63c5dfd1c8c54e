// Values that are lent, and scalars with nulls.
use std::alloc::Global;
use std::test::Fail;
use vortex_array::{Bytes, DType, Nullability, PType, Scalar, Text, Value, ValueRef};

const BYTE: DType = DType::Primitive(PType::U8, Nullability::NonNullable);

const BYTE_OR_NULL: DType = DType::Primitive(PType::U8, Nullability::Nullable);

// Whether the scalar is a seven of this type.
fn is_seven(scalar: &Scalar, dtype: DType) -> bool {
    scalar.dtype() == dtype
        && !scalar.is_null()
        && matches!(scalar.value(), Some(Value::Int(7)))
        && matches!(scalar.value_ref(), Some(ValueRef::Int(7)))
}

#[test]
fn a_scalar_with_nulls_keeps_its_value(rt: HostRuntime) -> Result<(), Fail> {
    let seven = Scalar::try_new(BYTE, Some(Value::Int(7)))?;
    assert!(rt; is_seven(&seven, BYTE));
    assert!(rt; is_seven(&seven.into_nullable(), BYTE_OR_NULL));
    Ok(())
}

#[test]
fn a_null_lends_no_value(rt: HostRuntime) -> Result<(), Fail> {
    let null = Scalar::try_new(BYTE_OR_NULL, None)?;
    assert!(rt; null.is_null() && null.value().is_none() && null.value_ref().is_none());
    Ok(())
}

// Whether what a value lends gives the value again.
fn is_given_back(alloc: Global, value: &Value) -> Result<bool, Fail> {
    let seen = value.as_value_ref().to_value(alloc)?;
    Ok(seen == *value)
}

fn is_text_given_back(alloc: Global, text: &str) -> Result<bool, Fail> {
    let value = Value::Utf8(Text::from_str(alloc, text)?);
    is_given_back(alloc, &value)
}

fn are_bytes_given_back(alloc: Global, bytes: &[u8]) -> Result<bool, Fail> {
    let value = Value::Binary(Bytes::from_slice(alloc, bytes)?);
    is_given_back(alloc, &value)
}

#[test]
fn lent_values_give_back_what_they_show(rt: HostRuntime) -> Result<(), Fail> {
    let alloc = rt.alloc();
    for (case, is_same) in [
        ("a truth value", is_given_back(alloc, &Value::Bool(true))?),
        ("a number", is_given_back(alloc, &Value::Int(-1))?),
        ("a decimal", is_given_back(alloc, &Value::Decimal(-1))?),
        ("a text", is_text_given_back(alloc, "é")?),
        ("bytes", are_bytes_given_back(alloc, &[0, 255])?),
    ] {
        assert!(rt; is_same, "{case}");
    }
    Ok(())
}
