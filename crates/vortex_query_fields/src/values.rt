// Values by their types.
ghost use Rattle.std.specs.Prelude.{◌≡◌, IfOk, option_map};
ghost use Rattle.vortex_array_types.specs.declared.scalar.Value.TheVariants as values;
ghost use Rattle.vortex_query_fields.specs.Hex.{hex_spelled};
ghost use Rattle.vortex_query_fields.specs.Numbers.{whole_spelled};
ghost use Rattle.vortex_query_fields.specs.Values.{text_spelled, value_spelled};

use crate::decimals::decimal_in;
use crate::hex::push_bytes_in;
use crate::texts::{text_in, truth_in};
use crate::whole::number_in;
use std::alloc::{AllocError, Global};
use vortex_array_kinds::PrimitiveWidth;
use vortex_array_types::{Bytes, DType, PType, Text, Value};

// The number that a field spells, in the native type.
fn native_in<N: PrimitiveWidth>(field: &[u8]) -> Option<i128>
    ensures { result ≡ whole_spelled N.width field.now }
{
    match number_in::<N>(field) {
        Some(number) => Some(number.value()),
        None => None,
    }
}

// The whole number of this width that a field spells.
fn whole_in(width: PType, field: &[u8]) -> Option<i128>
    ensures { result ≡ whole_spelled width field.now }
{
    match width {
        PType::U8 => native_in::<u8>(field),
        PType::U16 => native_in::<u16>(field),
        PType::U32 => native_in::<u32>(field),
        PType::U64 => native_in::<u64>(field),
        PType::I8 => native_in::<i8>(field),
        PType::I16 => native_in::<i16>(field),
        PType::I32 => native_in::<i32>(field),
        PType::I64 => native_in::<i64>(field),
    }
}

// The text that a field is.
fn text_value(alloc: Global, field: &[u8]) -> Result<Option<Value>, AllocError>
    ensures { IfOk result (λ value. value ≡ option_map values.Utf8 (text_spelled field.now)) }
{
    match text_in(field) {
        Some(text) => Ok(Some(Value::Utf8(Text::from_str(alloc, text)?))),
        None => Ok(None),
    }
}

// The bytes that a field spells.
fn bytes_value(alloc: Global, field: &[u8]) -> Result<Option<Value>, AllocError>
    ensures { IfOk result (λ value. value ≡ option_map values.Binary (hex_spelled field.now)) }
{
    let mut bytes = Vec::new(alloc);
    if push_bytes_in(&mut bytes, field)? {
        Ok(Some(Value::Binary(Bytes::from_slice(alloc, bytes.as_slice())?)))
    } else {
        Ok(None)
    }
}

/// The value of the type that a field spells. An empty field is the empty text, or no bytes, and else no value: whether it
/// is null is for the caller to say.
pub fn value_in(alloc: Global, dtype: &DType, field: &[u8]) -> Result<Option<Value>, AllocError>
    ensures { IfOk result (λ value. value ≡ value_spelled dtype.now field.now) }
{
    match dtype {
        DType::Bool(_) => Ok(truth_in(field).map(|truth| Value::Bool(truth))),
        DType::Primitive(width, _) => Ok(whole_in(*width, field).map(|number| Value::Int(number))),
        DType::Decimal(digits, _) => {
            Ok(decimal_in(field, *digits).map(|number| Value::Decimal(number)))
        }
        DType::Utf8(_) => text_value(alloc, field),
        DType::Binary(_) => bytes_value(alloc, field),
    }
}
