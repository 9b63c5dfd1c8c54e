// A builder of dictionaries for rows of any kind that is encoded.
ghost use Rattle.std.specs.Prelude.{◌≡◌, IfErr, IfOk, IsFalse, IsTrue, OnErr, OnOk, length};
ghost use Rattle.vortex_array_types.specs.declared.types.DType.TheVariants as dtypes;
ghost use Rattle.vortex_array_kinds.specs.StringValues.{is_string_type};
ghost use Rattle.vortex_array.specs.ColumnOf.{column_of};
ghost use Rattle.vortex_dict_builders.specs.Any.{any_encoder, empty_encoder, encoder_for, is_encoded_type, number_bound, numbers_encoder, unlimited};
ghost use Rattle.vortex_dict_builders.specs.Widths.{least_code, width_encoder};
ghost use Rattle.vortex_dict_builders.specs.declared.errors.DictEncodeError.TheVariants as errors;

use crate::constraints::{DictConstraints, UNCONSTRAINED};
use crate::encoder::DictEncoder;
use crate::errors::{DictEncodeError, EncodeError};
use crate::primitives::PrimitiveEntries;
use crate::strings::StringEntries;
use crate::widths::AnyWidth;
use std::alloc::{AllocError, Global};
use vortex_array::{Array, DType, NativeValue, Nullability, PType, PrimitiveArray};
use vortex_array_kinds::PrimitiveWidth;

/// A builder of dictionaries for rows of any kind that is encoded, with codes of any width.
pub enum AnyDictEncoder {
    /// Rows of the width `u8`.
    U8(AnyWidth<PrimitiveEntries<u8>>),
    /// Rows of the width `u16`.
    U16(AnyWidth<PrimitiveEntries<u16>>),
    /// Rows of the width `u32`.
    U32(AnyWidth<PrimitiveEntries<u32>>),
    /// Rows of the width `u64`.
    U64(AnyWidth<PrimitiveEntries<u64>>),
    /// Rows of the width `i8`.
    I8(AnyWidth<PrimitiveEntries<i8>>),
    /// Rows of the width `i16`.
    I16(AnyWidth<PrimitiveEntries<i16>>),
    /// Rows of the width `i32`.
    I32(AnyWidth<PrimitiveEntries<i32>>),
    /// Rows of the width `i64`.
    I64(AnyWidth<PrimitiveEntries<i64>>),
    /// Texts or bytes.
    Strings(AnyWidth<StringEntries>),
}

impl Drop for AnyDictEncoder {
    fn drop(self) {
        match self {
            AnyDictEncoder::U8(_encoder) => {}
            AnyDictEncoder::U16(_encoder) => {}
            AnyDictEncoder::U32(_encoder) => {}
            AnyDictEncoder::U64(_encoder) => {}
            AnyDictEncoder::I8(_encoder) => {}
            AnyDictEncoder::I16(_encoder) => {}
            AnyDictEncoder::I32(_encoder) => {}
            AnyDictEncoder::I64(_encoder) => {}
            AnyDictEncoder::Strings(_encoder) => {}
        }
    }
}

// What the expression is for the builder, whatever the kind of its rows.
macro_rules! each_rows {
    ($any:expr, $encoder:ident => $answer:expr) => {
        match $any {
            AnyDictEncoder::U8($encoder) => $answer,
            AnyDictEncoder::U16($encoder) => $answer,
            AnyDictEncoder::U32($encoder) => $answer,
            AnyDictEncoder::U64($encoder) => $answer,
            AnyDictEncoder::I8($encoder) => $answer,
            AnyDictEncoder::I16($encoder) => $answer,
            AnyDictEncoder::I32($encoder) => $answer,
            AnyDictEncoder::I64($encoder) => $answer,
            AnyDictEncoder::Strings($encoder) => $answer,
        }
    };
}

impl DictEncoder for AnyDictEncoder {
    ghost encoder = { any_encoder };

    fn encode(&mut self, array: &Array) -> Result<PrimitiveArray, EncodeError> {
        each_rows!(self, encoder => encoder.encode(array))
    }

    fn values(&mut self) -> Result<Array, AllocError> {
        each_rows!(self, encoder => encoder.values())
    }
}

/// A builder without entries for whole numbers of the width of `T`, with nulls or without. Its codes are of the least width
/// that holds `max_len`, or one more than all numbers of the width where that is less.
pub fn primitive_dict_builder<T: NativeValue>(
    alloc: Global,
    nullability: Nullability,
    constraints: &DictConstraints,
) -> AnyDictEncoder
    ensures { any_encoder result ≡ numbers_encoder T.width nullability constraints.now }
{
    let width = T::ptype();
    numbers_builder(
        alloc,
        width,
        nullability,
        *constraints,
        bound_of(width, constraints.max_len),
    )
}

// The same of a width, with codes of the least width that holds a bound.
fn numbers_builder(
    alloc: Global,
    width: PType,
    nullability: Nullability,
    limits: DictConstraints,
    bound: usize,
) -> AnyDictEncoder
    ensures { any_encoder result ≡ empty_encoder (dtypes.Primitive width nullability) limits (least_code bound) }
{
    match width {
        PType::U8 => AnyDictEncoder::U8(numbers_over(alloc, nullability, limits, bound)),
        PType::U16 => AnyDictEncoder::U16(numbers_over(alloc, nullability, limits, bound)),
        PType::U32 => AnyDictEncoder::U32(numbers_over(alloc, nullability, limits, bound)),
        PType::U64 => AnyDictEncoder::U64(numbers_over(alloc, nullability, limits, bound)),
        PType::I8 => AnyDictEncoder::I8(numbers_over(alloc, nullability, limits, bound)),
        PType::I16 => AnyDictEncoder::I16(numbers_over(alloc, nullability, limits, bound)),
        PType::I32 => AnyDictEncoder::I32(numbers_over(alloc, nullability, limits, bound)),
        PType::I64 => AnyDictEncoder::I64(numbers_over(alloc, nullability, limits, bound)),
    }
}

// The same of a native type.
fn numbers_over<T: PrimitiveWidth>(
    alloc: Global,
    nullability: Nullability,
    limits: DictConstraints,
    bound: usize,
) -> AnyWidth<PrimitiveEntries<T>>
    ensures { width_encoder result ≡ empty_encoder (dtypes.Primitive T.width nullability) limits (least_code bound) }
{
    AnyWidth::over(
        alloc,
        PrimitiveEntries::none_yet(alloc, nullability),
        limits,
        bound,
    )
}

// The builder without entries of a type of texts or of bytes, with codes of the least width that holds a bound.
fn strings_builder(
    alloc: Global,
    dtype: DType,
    limits: DictConstraints,
    bound: usize,
) -> AnyDictEncoder
    requires { IsTrue (is_string_type dtype) }
    ensures { any_encoder result ≡ empty_encoder dtype limits (least_code bound) }
{
    AnyDictEncoder::Strings(AnyWidth::over(
        alloc,
        StringEntries::none_yet(alloc, dtype),
        limits,
        bound,
    ))
}

// How many entries numbers of a width may have: no more than the limit, nor than all numbers and null.
fn bound_of(width: PType, max_len: usize) -> usize
    ensures { result ≡ number_bound width max_len }
{
    match width {
        PType::U8 | PType::I8 => max_len.min(257),
        PType::U16 | PType::I16 => max_len.min(65537),
        PType::U32 | PType::I32 => max_len.min(4294967297),
        PType::U64 | PType::I64 => max_len,
    }
}

/// A builder without entries for rows of a type of texts or of bytes. Its codes are of the least width that holds `max_len`.
pub fn bytes_dict_builder(
    alloc: Global,
    dtype: DType,
    constraints: &DictConstraints,
) -> AnyDictEncoder
    requires { IsTrue (is_string_type dtype) }
    ensures { any_encoder result ≡ empty_encoder dtype constraints.now (least_code constraints.now.max_len) }
{
    strings_builder(alloc, dtype, *constraints, constraints.max_len)
}

/// The builder without entries that `primitive_dict_builder` or `bytes_dict_builder` gives for the type of an array. It is
/// refused exactly for truth values and decimals, and else takes no memory.
pub fn dict_encoder(
    alloc: Global,
    array: &Array,
    constraints: &DictConstraints,
) -> Result<AnyDictEncoder, DictEncodeError>
    ensures ok { IfOk result (λ e. any_encoder e ≡ encoder_for (column_of array.now).dtype constraints.now) }
    ensures fits { OnOk result (IsTrue (is_encoded_type (column_of array.now).dtype)) }
    ensures err { IfErr result (λ e. e ≡ errors.CannotEncode) }
    ensures cannot { OnErr result (IsFalse (is_encoded_type (column_of array.now).dtype)) }
{
    match array.dtype() {
        DType::Primitive(width, nullability) => Ok(numbers_builder(
            alloc,
            width,
            nullability,
            *constraints,
            bound_of(width, constraints.max_len),
        )),
        DType::Utf8(_) | DType::Binary(_) => {
            Ok(bytes_dict_builder(alloc, array.dtype(), constraints))
        }
        DType::Bool(_) | DType::Decimal(_, _) => Err(DictEncodeError::CannotEncode),
    }
}

/// The builder without entries for the type of an array that lets each of its rows in: it has no limit, and its codes are of the
/// least width that holds as many places as there are rows. It is refused exactly for truth values and decimals, and else takes no
/// memory.
pub fn unlimited_encoder(alloc: Global, array: &Array) -> Result<AnyDictEncoder, DictEncodeError>
    ensures ok { IfOk result (λ e. any_encoder e ≡ unlimited (column_of array.now).dtype (length (column_of array.now).rows)) }
    ensures fits { OnOk result (IsTrue (is_encoded_type (column_of array.now).dtype)) }
    ensures err { IfErr result (λ e. e ≡ errors.CannotEncode) }
    ensures cannot { OnErr result (IsFalse (is_encoded_type (column_of array.now).dtype)) }
{
    let bound = array.len();
    match array.dtype() {
        DType::Primitive(width, nullability) => Ok(numbers_builder(
            alloc,
            width,
            nullability,
            UNCONSTRAINED,
            bound,
        )),
        DType::Utf8(_) | DType::Binary(_) => {
            Ok(strings_builder(alloc, array.dtype(), UNCONSTRAINED, bound))
        }
        DType::Bool(_) | DType::Decimal(_, _) => Err(DictEncodeError::CannotEncode),
    }
}
