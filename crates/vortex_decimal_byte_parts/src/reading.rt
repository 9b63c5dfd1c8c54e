// How decimals in parts are read.
ghost use Rattle.std.specs.Prelude.{◌≡◌, [], ◌∷◌, IfErr, IfOk, IfSome, None, Some, false, is_some, true};
ghost use Rattle.vortex_array_types.specs.Widths.{has_no_sign};
ghost use Rattle.vortex_array_types.specs.declared.types.DType.TheVariants as dtypes;
ghost use Rattle.vortex_array_children.specs.Children.{width_of_number};
ghost use Rattle.vortex_decimal_byte_parts.specs.Serialized.{AreParts, IsDeserialized, IsOfChildren, RefusesSerialized, is_signed_number, is_unsigned_number, refused_children, v1_id, v2_id};

use crate::errors::SerdeError;
use crate::parts::DecimalByteParts;
use std::alloc::Global;
use vortex_array::{Array, DType, DecimalDType, Nullability, PType};
use vortex_array_children::{one_child, relabelled, stands_for, two_children, width_numbered};
use vortex_wire::{DecimalBytePartsV1Metadata, DecimalBytePartsV2Metadata, MetadataError};

// The decimals of a type that children are by the first message.
pub(crate) fn deserialize_v1(
    dtype: &DType,
    len: usize,
    metadata: &[u8],
    children: Vec<Array>,
) -> Result<DecimalByteParts, SerdeError>
    ensures ok { IfOk result (IsDeserialized v1_id dtype.now len metadata.now children.items) }
    ensures err { IfErr result (RefusesSerialized v1_id dtype.now len metadata.now children.items) }
{
    let Ok(message) = DecimalBytePartsV1Metadata::decode(metadata) else {
        return Err(SerdeError::BadMetadata);
    };
    let DType::Decimal(digits, nulls) = dtype else {
        return Err(SerdeError::NotDecimal);
    };
    if message.lower_part_count != 0 {
        return Err(SerdeError::LowerCount);
    }
    read_msp(*digits, *nulls, len, message.zeroth_child_ptype, children)
}

// The decimals of a type that children are by the second message.
pub(crate) fn deserialize_v2(
    alloc: Global,
    dtype: &DType,
    len: usize,
    metadata: &[u8],
    children: Vec<Array>,
) -> Result<DecimalByteParts, SerdeError>
    ensures ok { IfOk result (IsDeserialized v2_id dtype.now len metadata.now children.items) }
    ensures err { IfErr result (RefusesSerialized v2_id dtype.now len metadata.now children.items) }
{
    let message = match DecimalBytePartsV2Metadata::decode(alloc, metadata) {
        Ok(message) => message,
        Err(MetadataError::BadMetadata) => return Err(SerdeError::BadMetadata),
        Err(MetadataError::OutOfMemory) => return Err(SerdeError::OutOfMemory),
    };
    let DType::Decimal(digits, nulls) = dtype else {
        return Err(SerdeError::NotDecimal);
    };
    match message.lower_part_ptypes.as_slice() {
        [] => read_msp(*digits, *nulls, len, message.msp_ptype, children),
        [lower] => read_both(*digits, *nulls, len, message.msp_ptype, *lower, children),
        _ => Err(SerdeError::LowerCount),
    }
}

// The decimals that are one child, a most significant part of a width alone.
fn read_msp(
    digits: DecimalDType,
    nulls: Nullability,
    len: usize,
    msp: i32,
    children: Vec<Array>,
) -> Result<DecimalByteParts, SerdeError>
    ensures ok { IfOk result (AreParts (dtypes.Decimal digits nulls) len msp [] children.items) }
    ensures right { IfOk result (λ _. refused_children nulls len msp [] children.items ≡ None) }
    ensures err { IfErr result (λ e. refused_children nulls len msp [] children.items ≡ Some e) }
    ensures cause { IfErr result IsOfChildren }
{
    match one_child(children) {
        Some(child) => read_child(digits, nulls, len, msp, child),
        None => Err(SerdeError::ChildCount),
    }
}

// The same of the child alone.
fn read_child(
    digits: DecimalDType,
    nulls: Nullability,
    len: usize,
    msp: i32,
    child: Array,
) -> Result<DecimalByteParts, SerdeError>
    ensures ok { IfOk result (AreParts (dtypes.Decimal digits nulls) len msp [] (child ∷ [])) }
    ensures right { IfOk result (λ _. refused_children nulls len msp [] (child ∷ []) ≡ None) }
    ensures err { IfErr result (λ e. refused_children nulls len msp [] (child ∷ []) ≡ Some e) }
    ensures cause { IfErr result IsOfChildren }
{
    let Some(width) = signed_numbered(msp) else {
        return Err(SerdeError::BadType { part: 0 });
    };
    let dtype = DType::Primitive(width, nulls);
    if !stands_for(&child, &dtype, len) {
        return Err(SerdeError::ChildMismatch { child: 0 });
    }
    let part = relabelled(child, &dtype);
    Ok(DecimalByteParts::new(part, None, digits))
}

// The decimals that are two children, parts of two widths.
fn read_both(
    digits: DecimalDType,
    nulls: Nullability,
    len: usize,
    msp: i32,
    lower: i32,
    children: Vec<Array>,
) -> Result<DecimalByteParts, SerdeError>
    ensures ok { IfOk result (AreParts (dtypes.Decimal digits nulls) len msp (lower ∷ []) children.items) }
    ensures right { IfOk result (λ _. refused_children nulls len msp (lower ∷ []) children.items ≡ None) }
    ensures err { IfErr result (λ e. refused_children nulls len msp (lower ∷ []) children.items ≡ Some e) }
    ensures cause { IfErr result IsOfChildren }
{
    match two_children(children) {
        Some((first, second)) => read_children(digits, nulls, len, msp, lower, first, second),
        None => Err(SerdeError::ChildCount),
    }
}

// The same of the two children.
fn read_children(
    digits: DecimalDType,
    nulls: Nullability,
    len: usize,
    msp: i32,
    lower: i32,
    first: Array,
    second: Array,
) -> Result<DecimalByteParts, SerdeError>
    ensures ok { IfOk result (AreParts (dtypes.Decimal digits nulls) len msp (lower ∷ []) (first ∷ second ∷ [])) }
    ensures right { IfOk result (λ _. refused_children nulls len msp (lower ∷ []) (first ∷ second ∷ []) ≡ None) }
    ensures err { IfErr result (λ e. refused_children nulls len msp (lower ∷ []) (first ∷ second ∷ []) ≡ Some e) }
    ensures cause { IfErr result IsOfChildren }
{
    let Some(width) = signed_numbered(msp) else {
        return Err(SerdeError::BadType { part: 0 });
    };
    let Some(lower_width) = unsigned_numbered(lower) else {
        return Err(SerdeError::BadType { part: 1 });
    };
    let dtype = DType::Primitive(width, nulls);
    let lower_dtype = DType::Primitive(lower_width, Nullability::NonNullable);
    if !stands_for(&first, &dtype, len) {
        return Err(SerdeError::ChildMismatch { child: 0 });
    }
    if !stands_for(&second, &lower_dtype, len) {
        return Err(SerdeError::ChildMismatch { child: 1 });
    }
    let part = relabelled(first, &dtype);
    let other = relabelled(second, &lower_dtype);
    Ok(DecimalByteParts::new(part, Some(other), digits))
}

// The width with sign that has a number.
fn signed_numbered(number: i32) -> Option<PType>
    ensures width { IfSome result (λ w. (width_of_number number ≡ Some w) × (has_no_sign w ≡ false)) }
    ensures known { is_some result ≡ is_signed_number number }
{
    match width_numbered(number) {
        Some(width) if width.is_signed() => Some(width),
        _ => None,
    }
}

// The width without sign that has a number.
fn unsigned_numbered(number: i32) -> Option<PType>
    ensures width { IfSome result (λ w. (width_of_number number ≡ Some w) × (has_no_sign w ≡ true)) }
    ensures known { is_some result ≡ is_unsigned_number number }
{
    match width_numbered(number) {
        Some(width) if width.is_unsigned() => Some(width),
        _ => None,
    }
}
