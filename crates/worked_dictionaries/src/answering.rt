// Comparisons, patterns and tests, answered value by value.
use crate::samples::{
    are_decoded_truths, are_truths, codes, equal_numbers, equal_texts, nulls, numbers, texts,
};
use std::alloc::Global;
use std::test::Fail;
use vortex_array::{
    Array, CompareOperator, CompareTo, DType, PType, Predicate, Scalar, Text, Validity, Value,
    ValueRef,
};
use vortex_dict::DictArray;

// Whether the numbers 1, 2 and 3, in rows under this validity, are above 1 as these rows say.
fn are_above(alloc: Global, validity: Validity, rows: &[Option<bool>]) -> Result<bool, Fail> {
    let codes = codes(alloc, &[0, 1, 2], validity)?;
    let dict = DictArray::try_new(codes, numbers(alloc, &[1, 2, 3], Validity::NonNullable)?)?;
    let one = equal_numbers(PType::I32, 1, 3)?;
    if dict.len() != one.len() || !dict.dtype().same_apart_from_nullability(&one.dtype()) {
        return Err(Fail::new("columns that cannot be compared"));
    }
    match &dict.compare(alloc, &one, CompareOperator::Gt)? {
        Some(answers) => Ok(are_truths(answers, rows)),
        None => Ok(false),
    }
}

#[test]
fn rows_are_compared_with_one_value(rt: HostRuntime) -> Result<(), Fail> {
    let alloc = rt.alloc();
    let valid = nulls(alloc, &[true, false, true])?;
    assert!(rt;
        are_above(
            alloc,
            Validity::NonNullable,
            &[Some(false), Some(true), Some(true)]
        )?
    );
    assert!(rt; are_above(alloc, valid, &[Some(false), None, Some(true)])?);
    Ok(())
}

// More values than codes.
fn three_values(alloc: Global) -> Result<DictArray, Fail> {
    let codes = codes(alloc, &[0, 1], Validity::NonNullable)?;
    Ok(DictArray::try_new(codes, texts(alloc, &["a", "b", "c"])?)?)
}

// Two values, of which the first comes twice.
fn two_values(alloc: Global) -> Result<DictArray, Fail> {
    let codes = codes(alloc, &[0, 1, 0], Validity::NonNullable)?;
    Ok(DictArray::try_new(codes, texts(alloc, &["ab", "b"])?)?)
}

// Whether a comparison with these texts is declined.
fn declines(alloc: Global, dict: &DictArray, rhs: &Array) -> Result<bool, Fail> {
    if dict.len() != rhs.len() || !dict.dtype().same_apart_from_nullability(&rhs.dtype()) {
        return Err(Fail::new("columns that cannot be compared"));
    }
    Ok(dict.compare(alloc, rhs, CompareOperator::Eq)?.is_none())
}

#[test]
fn a_comparison_is_declined_with_more_values_or_without_a_constant(
    rt: HostRuntime,
) -> Result<(), Fail> {
    let alloc = rt.alloc();
    assert!(rt; declines(alloc, &three_values(alloc)?, &equal_texts(alloc, "a", 2)?)?);
    assert!(rt; declines(alloc, &two_values(alloc)?, &texts(alloc, &["a", "b", "c"])?)?);
    assert!(rt; !declines(alloc, &two_values(alloc)?, &equal_texts(alloc, "a", 3)?)?);
    Ok(())
}

// A test whether a text is `b`.
fn is_b(alloc: Global) -> Result<CompareTo, Fail> {
    let value = Value::Utf8(Text::from_str(alloc, "b")?);
    let constant = Scalar::try_new(crate::samples::TEXT, Some(value))?;
    if constant.is_null() {
        return Err(Fail::new("no constant"));
    }
    Ok(CompareTo::new(CompareOperator::Eq, constant))
}

#[test]
fn a_test_is_answered_row_by_row(rt: HostRuntime) -> Result<(), Fail> {
    let alloc = rt.alloc();
    let dict = two_values(alloc)?;
    let mut test = is_b(alloc)?;
    let answers = dict.apply(alloc, &mut test)?;
    assert!(rt; are_truths(&answers, &[Some(false), Some(true), Some(false)]));
    Ok(())
}

// A test that holds of every value, and tells how often it was asked.
#[derive(Drop)]
struct Always {
    asked: u64,
}

impl Predicate for Always {
    ghost use Rattle.std.specs.Prelude.{true};

    ghost truth = { λ _ _. true };

    ghost asked = { λ test. test.asked };

    fn test(&mut self, _value: ValueRef<'_>) -> bool {
        self.asked = self.asked.saturating_add(1);
        true
    }
}

#[test]
fn a_test_asks_each_value_once(rt: HostRuntime) -> Result<(), Fail> {
    let alloc = rt.alloc();
    let dict = two_values(alloc)?;
    let mut test = Always { asked: 0 };
    let answers = dict.apply(alloc, &mut test)?;
    assert!(rt; are_truths(&answers, &[Some(true), Some(true), Some(true)]));
    assert!(rt; test.asked == 2);
    Ok(())
}

// A dictionary of texts matched with patterns.
fn matched(alloc: Global, dict: &DictArray, patterns: &Array) -> Result<Option<DictArray>, Fail> {
    let DType::Utf8(_) = dict.dtype() else {
        return Err(Fail::new("no texts"));
    };
    let DType::Utf8(_) = patterns.dtype() else {
        return Err(Fail::new("no patterns"));
    };
    if dict.len() != patterns.len() {
        return Err(Fail::new("columns of two lengths"));
    }
    Ok(dict.like(alloc, patterns)?)
}

// Whether rows match a pattern as it is said, in a dictionary of truth values.
fn are_matched(
    alloc: Global,
    dict: &DictArray,
    pattern: &str,
    rows: &[Option<bool>],
) -> Result<bool, Fail> {
    let patterns = equal_texts(alloc, pattern, dict.len())?;
    match &matched(alloc, dict, &patterns)? {
        Some(answers) => are_decoded_truths(alloc, answers, rows),
        None => Ok(false),
    }
}

#[test]
fn rows_match_a_pattern_value_by_value(rt: HostRuntime) -> Result<(), Fail> {
    let alloc = rt.alloc();
    let two = two_values(alloc)?;
    assert!(rt; are_matched(alloc, &two, "a%", &[Some(true), Some(false), Some(true)])?);
    assert!(rt; are_matched(alloc, &two, "%b", &[Some(true), Some(true), Some(true)])?);
    Ok(())
}

#[test]
fn a_pattern_is_declined_with_more_values_or_without_a_constant(
    rt: HostRuntime,
) -> Result<(), Fail> {
    let alloc = rt.alloc();
    let more = matched(alloc, &three_values(alloc)?, &equal_texts(alloc, "a%", 2)?)?;
    assert!(rt; more.is_none());
    let plain = matched(
        alloc,
        &two_values(alloc)?,
        &texts(alloc, &["a%", "b", "c"])?,
    )?;
    assert!(rt; plain.is_none());
    Ok(())
}
