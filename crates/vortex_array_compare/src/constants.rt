// Columns of equal rows compared.

use crate::answers::{either_nullability, equal_answers, null_answers};
use crate::compare::Compare;
use std::alloc::{AllocError, Global};
use vortex_array_kinds::{BoolArray, ConstantArray};
use vortex_array_types::{CompareOperator, DType, ValueRef, compares};

impl Compare for ConstantArray {
    fn compare(
        &self,
        alloc: Global,
        other: &ConstantArray,
        operator: CompareOperator,
    ) -> Result<BoolArray, AllocError> {
        match other.scalar().value_ref() {
            Some(value) => self.compare_value(alloc, other.dtype(), value, operator),
            None => null_answers(alloc, other.len()),
        }
    }

    fn compare_value(
        &self,
        alloc: Global,
        dtype: DType,
        value: ValueRef<'_>,
        operator: CompareOperator,
    ) -> Result<BoolArray, AllocError> {
        match self.scalar().value_ref() {
            Some(own) => {
                let nullability = either_nullability(self.dtype(), dtype);
                equal_answers(
                    alloc,
                    compares(operator, own, value),
                    nullability,
                    self.len(),
                )
            }
            None => null_answers(alloc, self.len()),
        }
    }
}
