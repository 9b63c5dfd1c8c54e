// What a column is kept as: its numbers or bits, also in the places of nulls, and how its nulls are kept.
use crate::shown::{push_bits, push_dtype, push_number, push_scalar};
use crate::stop::Stop;
use std::alloc::{AllocError, Global};
use vortex_array::{
    Array, BoolArray, ConstantArray, DType, DecimalArray, DecimalBuffer, Nullability,
    PrimitiveArray, PrimitiveBuffer, Validity, VarBinViewArray,
};

// How the nulls are kept.
fn push_validity(text: &mut String, validity: &Validity) -> Result<(), AllocError> {
    match validity {
        Validity::NonNullable => text.push_str(", no null in the type"),
        Validity::AllValid => text.push_str(", no row is null"),
        Validity::AllInvalid => text.push_str(", each row is null"),
        Validity::Bits(bits) => {
            text.push_str(", not null at ")?;
            push_bits(text, bits)
        }
    }
}

fn push_truths(text: &mut String, array: &BoolArray) -> Result<(), AllocError> {
    text.push_str("bits ")?;
    push_bits(text, array.bits())?;
    push_validity(text, array.validity())
}

// The numbers, a space before each.
fn push_values(
    text: &mut String,
    alloc: Global,
    values: &PrimitiveBuffer,
) -> Result<(), AllocError> {
    push_dtype(
        text,
        alloc,
        DType::Primitive(values.ptype(), Nullability::NonNullable),
    )?;
    for i in 0..values.len() {
        text.push(' ')?;
        push_number(text, alloc, values.number_at(i))?;
    }
    Ok(())
}

fn push_numbers(
    text: &mut String,
    alloc: Global,
    array: &PrimitiveArray,
) -> Result<(), AllocError> {
    push_values(text, alloc, array.values())?;
    push_validity(text, array.validity())
}

// The bits that keep an unscaled number.
fn width_of(values: &DecimalBuffer) -> &'static str {
    match values {
        DecimalBuffer::I8(_) => "/8",
        DecimalBuffer::I16(_) => "/16",
        DecimalBuffer::I32(_) => "/32",
        DecimalBuffer::I64(_) => "/64",
        DecimalBuffer::I128(_) => "/128",
    }
}

// The unscaled numbers, a space before each.
fn push_unscaled(
    text: &mut String,
    alloc: Global,
    values: &DecimalBuffer,
) -> Result<(), AllocError> {
    text.push_str(width_of(values))?;
    for i in 0..values.len() {
        text.push(' ')?;
        push_number(text, alloc, values.number_at(i))?;
    }
    Ok(())
}

fn push_decimals(text: &mut String, alloc: Global, array: &DecimalArray) -> Result<(), AllocError> {
    let dtype = DType::Decimal(array.decimal_dtype(), Nullability::NonNullable);
    push_dtype(text, alloc, dtype)?;
    push_unscaled(text, alloc, array.values())?;
    push_validity(text, array.validity())
}

// Which rows of texts or bytes are not null.
fn push_lists(text: &mut String, array: &VarBinViewArray) -> Result<(), AllocError> {
    text.push_str("lists, not null at ")?;
    for i in 0..array.len() {
        text.push(if array.validity().is_valid(i) {
            '1'
        } else {
            '0'
        })?;
    }
    Ok(())
}

fn push_equal(text: &mut String, alloc: Global, array: &ConstantArray) -> Result<(), AllocError> {
    push_scalar(text, alloc, array.scalar())?;
    let len = array.len();
    text.push_str(format!(in alloc; ", {len} times")?.as_str())
}

fn push_kept(text: &mut String, alloc: Global, array: &Array) -> Result<(), AllocError> {
    match array {
        Array::Bool(array) => push_truths(text, array),
        Array::Primitive(array) => push_numbers(text, alloc, array),
        Array::Decimal(array) => push_decimals(text, alloc, array),
        Array::VarBinView(array) => push_lists(text, array),
        Array::Constant(array) => push_equal(text, alloc, array),
    }
}

/// What a column is kept as.
pub(crate) fn kept(alloc: Global, array: &Array) -> Result<String, Stop> {
    let mut text = String::new(alloc);
    push_kept(&mut text, alloc, array)?;
    Ok(text)
}
