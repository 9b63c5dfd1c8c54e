// Numbers about the ends of the parts, each as a row and as a constant, under all six operators.
use crate::samples::{CORNERS, same, wide};
use std::alloc::Global;
use std::test::Fail;
use vortex_array::{Array, BoolArray, CompareOperator, DType, Validity, ValueRef};
use vortex_decimal_byte_parts::DecimalByteParts;

const OPERATORS: [CompareOperator; 6] = [
    CompareOperator::Eq,
    CompareOperator::NotEq,
    CompareOperator::Gt,
    CompareOperator::Gte,
    CompareOperator::Lt,
    CompareOperator::Lte,
];

fn holds(operator: CompareOperator, row: i128, constant: i128) -> bool {
    match operator {
        CompareOperator::Eq => row == constant,
        CompareOperator::NotEq => row != constant,
        CompareOperator::Gt => row > constant,
        CompareOperator::Gte => row >= constant,
        CompareOperator::Lt => row < constant,
        CompareOperator::Lte => row <= constant,
    }
}

// The answers where a comparison has any.
fn compared(
    alloc: Global,
    parts: &DecimalByteParts,
    constant: &Array,
    operator: CompareOperator,
) -> Result<Option<BoolArray>, Fail> {
    let dtype = constant.dtype();
    if constant.len() != parts.len() || !parts.dtype().same_apart_from_nullability(&dtype) {
        return Ok(None);
    }
    let answers = parts.compare(alloc, constant, operator)?;
    Ok(answers)
}

fn are_right(answers: &BoolArray, operator: CompareOperator, constant: i128) -> bool {
    if answers.len() != CORNERS.len() {
        return false;
    }
    for i in 0..CORNERS.len() {
        let want = holds(operator, CORNERS[i], constant);
        let is_right = match answers.value_at(i) {
            Some(ValueRef::Bool(answer)) => answer == want,
            _ => false,
        };
        if !is_right {
            return false;
        }
    }
    true
}

fn is_compared(
    alloc: Global,
    parts: &DecimalByteParts,
    operator: CompareOperator,
    constant: i128,
) -> Result<bool, Fail> {
    let same = same(Some(constant), CORNERS.len())?;
    match compared(alloc, parts, &same, operator)? {
        Some(answers) => Ok(are_right(&answers, operator, constant)),
        None => Ok(false),
    }
}

#[test]
fn corners_are_compared(rt: HostRuntime) -> Result<(), Fail> {
    let alloc = rt.alloc();
    let parts = wide(alloc, &CORNERS, Validity::NonNullable)?;
    for constant in CORNERS {
        for operator in OPERATORS {
            let is_right = is_compared(alloc, &parts, operator, constant)?;
            assert!(rt; is_right, "against {constant}");
        }
    }
    Ok(())
}
