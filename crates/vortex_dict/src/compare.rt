// Dictionaries compared with one value, and texts matched with one pattern: value by value, and gathered by code.
ghost use Rattle.std.specs.Prelude.{◌≡◌, IfOk, IfSome, IsTrue, is_none, length, nat_lt};
ghost use Rattle.vortex_array_types.specs.Typed.{same_apart_from_nullability};
ghost use Rattle.vortex_array_kinds.specs.Kinds.{constant_column};
ghost use Rattle.vortex_array_kinds.specs.StringValues.{is_text_type};
ghost use Rattle.vortex_array_kinds.specs.Truths.{compared, liked};
ghost use Rattle.vortex_array.specs.ColumnOf.{bool_column, column_of};
ghost use Rattle.vortex_dict.specs.Answered.{declines};
ghost use Rattle.vortex_dict.specs.Decoded.{dict_column};

use crate::dict::DictArray;
use crate::truths::truths_at;
use std::alloc::{AllocError, Global};
use vortex_array::{Array, BoolArray, CompareOperator, ConstantArray};

impl DictArray {
    /// Row by row whether the operator holds of this column and another of the same length and, apart from nullability, of
    /// the same type. Null where a row is null. None exactly where there are more values than codes or the other is no
    /// constant array: then the caller decodes first. Each value is compared once.
    pub fn compare(
        &self,
        alloc: Global,
        rhs: &Array,
        operator: CompareOperator,
    ) -> Result<Option<BoolArray>, AllocError>
        requires same_length { length (dict_column self.now).rows ≡ length (column_of rhs.now).rows }
        requires same_type { IsTrue (same_apart_from_nullability (dict_column self.now).dtype (column_of rhs.now).dtype) }
        ensures none { IfOk result (λ answer. is_none answer ≡ declines self.now rhs.now) }
        ensures rows { IfOk result (λ answer. IfSome answer (λ a. bool_column a ≡ compared operator (dict_column self.now) (column_of rhs.now))) }
    {
        if has_more_values(self) {
            return Ok(None);
        }
        match rhs {
            Array::Constant(constant) => {
                let answers = compare_values(alloc, self, constant, operator)?;
                Ok(Some(answers))
            }
            Array::Bool(_) => Ok(None),
            Array::Primitive(_) => Ok(None),
            Array::Decimal(_) => Ok(None),
            Array::VarBinView(_) => Ok(None),
        }
    }

    /// Row by row whether the text matches the pattern, of two columns of texts of one length, as a dictionary of truth values.
    /// Null where a row is null. None exactly where there are more values than codes or the patterns are no constant array:
    /// then the caller decodes first. Each value is matched once.
    pub fn like(&self, alloc: Global, pattern: &Array) -> Result<Option<DictArray>, AllocError>
        requires same_length { length (dict_column self.now).rows ≡ length (column_of pattern.now).rows }
        requires texts { IsTrue (is_text_type (dict_column self.now).dtype) }
        requires patterns { IsTrue (is_text_type (column_of pattern.now).dtype) }
        ensures none { IfOk result (λ answer. is_none answer ≡ declines self.now pattern.now) }
        ensures rows { IfOk result (λ answer. IfSome answer (λ d. dict_column d ≡ liked (dict_column self.now) (column_of pattern.now))) }
    {
        if has_more_values(self) {
            return Ok(None);
        }
        match pattern {
            Array::Constant(constant) => {
                let answers = like_values(alloc, self, constant)?;
                Ok(Some(answers))
            }
            Array::Bool(_) => Ok(None),
            Array::Primitive(_) => Ok(None),
            Array::Decimal(_) => Ok(None),
            Array::VarBinView(_) => Ok(None),
        }
    }
}

// Whether there are more values than codes.
fn has_more_values(dict: &DictArray) -> bool
    ensures { result ≡ nat_lt (length (column_of dict.now.codes).rows) (length (column_of dict.now.values).rows) }
{
    dict.codes().len() < dict.values().len()
}

// The row of a column of equal rows, so many times.
fn repeated(alloc: Global, constant: &ConstantArray, len: usize) -> Result<Array, AllocError>
    ensures { IfOk result (λ a. column_of a ≡ constant_column (record { scalar = constant.now.scalar; len = len })) }
{
    let scalar = constant.scalar().try_clone(alloc)?;
    Ok(Array::Constant(ConstantArray::new(scalar, len)))
}

// A dictionary compared with equal rows.
fn compare_values(
    alloc: Global,
    dict: &DictArray,
    constant: &ConstantArray,
    operator: CompareOperator,
) -> Result<BoolArray, AllocError>
    requires same_length { length (dict_column dict.now).rows ≡ length (constant_column constant.now).rows }
    requires same_type { IsTrue (same_apart_from_nullability (dict_column dict.now).dtype (constant_column constant.now).dtype) }
    ensures { IfOk result (λ a. bool_column a ≡ compared operator (dict_column dict.now) (constant_column constant.now)) }
{
    let values = dict.values();
    let same = repeated(alloc, constant, values.len())?;
    let truths = values.compare(alloc, &same, operator)?;
    let answers = truths_at(alloc, truths, dict.codes())?;
    Ok(answers)
}

// A dictionary of texts matched with equal patterns.
fn like_values(
    alloc: Global,
    dict: &DictArray,
    constant: &ConstantArray,
) -> Result<DictArray, AllocError>
    requires same_length { length (dict_column dict.now).rows ≡ length (constant_column constant.now).rows }
    requires texts { IsTrue (is_text_type (dict_column dict.now).dtype) }
    requires patterns { IsTrue (is_text_type (constant_column constant.now).dtype) }
    ensures { IfOk result (λ d. dict_column d ≡ liked (dict_column dict.now) (constant_column constant.now)) }
{
    let values = dict.values();
    let same = repeated(alloc, constant, values.len())?;
    let truths = values.like(alloc, &same)?;
    let codes = dict.codes().try_clone(alloc)?;
    Ok(DictArray::new(codes, Array::Bool(truths)))
}
