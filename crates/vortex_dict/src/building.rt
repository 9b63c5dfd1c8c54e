// Dictionaries as metadata and children.
ghost use Rattle.std.specs.Prelude.{◌≡◌, ◌<◌, ◌≤◌, ◌^◌, [], ◌∷◌, IfErr, IfOk, IfSome, OnErr, OnOk, Some, codes, is_some, length, nat_lt};
ghost use Rattle.vortex_array.specs.ColumnOf.{column_of};
ghost use Rattle.vortex_dict.specs.Decoded.{AreCodes, dict_column};
ghost use Rattle.vortex_dict.specs.Built.{IsBuilt, RefusesBuild, codes_nulls, codes_type, metadata_of, stands_for_codes};

use crate::build_error::{BuildError, TooManyValues};
use crate::codes::refusal;
use crate::dict::DictArray;
use crate::error::DictError;
use std::alloc::{AllocError, Global};
use vortex_array::{Array, DType, Nullability};
use vortex_array_children::{relabelled, stands_for, two_children, width_number, width_numbered};
use vortex_wire::DictMetadata;

/// The id of dictionaries.
pub fn dict_id() -> &'static str
    ensures { result.now ≡ codes "vortex.dict" }
{
    "vortex.dict"
}

impl DictArray {
    /// What the metadata says: how many values there are, the codes' width, and whether they have nulls. Refused exactly where there
    /// are more values than it can say, which are 4294967295.
    pub fn metadata(&self) -> Result<DictMetadata, TooManyValues>
        ensures ok { IfOk result (λ m. m ≡ metadata_of self.now) }
        ensures fits { OnOk result (length (column_of self.now.values).rows < 2 ^ 32) }
        ensures err { OnErr result (2 ^ 32 ≤ length (column_of self.now.values).rows) }
    {
        let values = self.values().len();
        if values > 4294967295 {
            return Err(TooManyValues);
        }
        let dtype = self.codes().dtype();
        Ok(DictMetadata {
            values_len: values as u32,
            codes_ptype: width_number(dtype),
            is_nullable_codes: Some(dtype.is_nullable()),
        })
    }
}

/// The dictionary of a type and length that children are, codes and values, by its metadata. A child without nulls is relabelled
/// where its part has them, and nothing else changes. It takes no memory.
///
/// The first refusal that holds is answered: `ChildCount`; `BadMetadata` where the number of the codes' width is that of no width;
/// `ChildMismatch` where the codes, and then the values, do not stand for their type or have another length, or where the codes have
/// nulls and the type has none; `NotUnsigned`; `CodeOutOfRange` with the first such code.
pub fn build(
    dtype: &DType,
    len: usize,
    metadata: &DictMetadata,
    children: Vec<Array>,
) -> Result<DictArray, BuildError>
    ensures ok { IfOk result (IsBuilt dtype.now len metadata.now children.items) }
    ensures err { IfErr result (RefusesBuild dtype.now len metadata.now children.items) }
{
    let found = children.len();
    let Some((codes, values)) = two_children(children) else {
        return Err(BuildError::ChildCount { found });
    };
    match type_of_codes(dtype, metadata) {
        Some(codes_dtype) => build_of(dtype, &codes_dtype, len, metadata, codes, values),
        None => Err(BuildError::BadMetadata),
    }
}

// The same of two children, codes of a known type and values.
fn build_of(
    dtype: &DType,
    codes_dtype: &DType,
    len: usize,
    metadata: &DictMetadata,
    codes: Array,
    values: Array,
) -> Result<DictArray, BuildError>
    requires { codes_type dtype.now metadata.now ≡ Some codes_dtype.now }
    ensures ok { IfOk result (IsBuilt dtype.now len metadata.now (codes ∷ values ∷ [])) }
    ensures err { IfErr result (RefusesBuild dtype.now len metadata.now (codes ∷ values ∷ [])) }
{
    if !are_codes(dtype, codes_dtype, len, &codes) {
        return Err(BuildError::ChildMismatch { child: 0 });
    }
    if !stands_for(&values, dtype, metadata.values_len as usize) {
        return Err(BuildError::ChildMismatch { child: 1 });
    }
    match refusal(&codes, values.len()) {
        None => {
            let codes = relabelled(codes, codes_dtype);
            let values = relabelled(values, dtype);
            Ok(DictArray::new(codes, values))
        }
        Some(DictError::NotUnsigned) => Err(BuildError::NotUnsigned),
        Some(DictError::CodeOutOfRange { row, code }) => {
            Err(BuildError::CodeOutOfRange { row, code })
        }
    }
}

// Whether an array stands for so many codes of a type, which has nulls only where the dictionary's has.
fn are_codes(dtype: &DType, codes_dtype: &DType, len: usize, codes: &Array) -> bool
    ensures { result ≡ stands_for_codes dtype.now len codes_dtype.now codes.now }
{
    stands_for(codes, codes_dtype, len) && (dtype.is_nullable() || !codes_dtype.is_nullable())
}

// The type of the codes, where a width has the number that the metadata says.
fn type_of_codes(dtype: &DType, metadata: &DictMetadata) -> Option<DType>
    ensures { result ≡ codes_type dtype.now metadata.now }
{
    match width_numbered(metadata.codes_ptype) {
        Some(width) => Some(DType::Primitive(width, nulls_of_codes(dtype, metadata))),
        None => None,
    }
}

// Whether the codes have nulls: as the metadata says, or where it does not say, as the dictionary has.
fn nulls_of_codes(dtype: &DType, metadata: &DictMetadata) -> Nullability
    ensures { result ≡ codes_nulls dtype.now metadata.now.is_nullable_codes }
{
    match metadata.is_nullable_codes {
        None => dtype.nullability(),
        Some(true) => Nullability::Nullable,
        Some(false) => Nullability::NonNullable,
    }
}

/// The metadata of a dictionary builds a dictionary of the same type and rows from copies of its codes and values. None exactly
/// where it has no metadata, since its values are too many.
pub fn built_again(alloc: Global, dict: &DictArray) -> Result<Option<DictArray>, AllocError>
    ensures same { IfOk result (λ found. IfSome found (λ d. dict_column d ≡ dict_column dict.now)) }
    ensures found { IfOk result (λ found. is_some found ≡ nat_lt (length (column_of dict.now.values).rows) (2 ^ 32)) }
{
    let Ok(metadata) = dict.metadata() else {
        return Ok(None);
    };
    let children = copies_of(alloc, dict)?;
    match build(&dict.dtype(), dict.len(), &metadata, children) {
        Ok(again) => Ok(Some(again)),
        Err(_) => unreachable!(),
    }
}

// Copies of the codes and of the values.
fn copies_of(alloc: Global, dict: &DictArray) -> Result<Vec<Array>, AllocError>
    ensures copies { IfOk result (λ children. children.items ≡ dict.now.codes ∷ dict.now.values ∷ []) }
    ensures fits { IfOk result (λ _. AreCodes dict.now.codes dict.now.values) }
{
    let mut children = Vec::with_capacity(alloc, 2)?;
    children.push(dict.codes().try_clone(alloc)?)?;
    children.push(dict.values().try_clone(alloc)?)?;
    Ok(children)
}
