// Values of types, and two values compared.
use crate::fault::Fault;
use crate::telling::{push_digits, push_scalar, push_truth, push_value};
use crate::types::{precision_and_scale, type_of, value_of};
use crate::words::{first_word, operator_of};
use std::alloc::{AllocError, Global};
use std::cmp::Ordering;
use vortex_array::{DecimalDType, Scalar, Value, ValueRef, accepts, compares};

/// The answer of a case of values, at the end of `out`.
pub fn answer(alloc: Global, family: &str, words: &str, out: &mut String) -> Result<(), Fault> {
    let (first, rest) = first_word(words);
    match family {
        "decimal" => push_decimal(alloc, out, first),
        "scalar" => push_fit(alloc, out, first, rest),
        "value" => push_copy(alloc, out, first),
        _ => answer_of_two(alloc, family, words, out),
    }
}

// The answer of a case of two values or of an operator.
fn answer_of_two(alloc: Global, family: &str, words: &str, out: &mut String) -> Result<(), Fault> {
    let (first, rest) = first_word(words);
    match family {
        "order" => push_order(alloc, out, first, rest),
        "accepts" => push_accepted(out, first, rest),
        "compares" => push_compared(alloc, out, first, rest),
        _ => Err(Fault::NoCase),
    }
}

fn push_decimal(alloc: Global, out: &mut String, word: &str) -> Result<(), Fault> {
    let (precision, scale) = precision_and_scale(word)?;
    match DecimalDType::try_new(precision, scale) {
        Ok(digits) => Ok(push_digits(alloc, out, digits)?),
        Err(_) => Ok(out.push_str("refused")?),
    }
}

// The value or null of a word as `int:7` or `null`.
fn row_of(alloc: Global, word: &str) -> Result<Option<Value>, Fault> {
    if word == "null" {
        return Ok(None);
    }
    Ok(Some(value_of(alloc, word)?))
}

// The copy of a scalar of this type and row, where there is such a scalar.
fn push_fit(alloc: Global, out: &mut String, dtype: &str, word: &str) -> Result<(), Fault> {
    let dtype = type_of(dtype)?;
    match Scalar::try_new(dtype, row_of(alloc, word)?) {
        Ok(scalar) => push_copies(alloc, out, &scalar),
        Err(_) => Ok(out.push_str("refused")?),
    }
}

// A scalar's copy, and the value that the scalar itself gives.
fn push_copies(alloc: Global, out: &mut String, scalar: &Scalar) -> Result<(), Fault> {
    push_scalar_copy(alloc, out, scalar)?;
    out.push_str(" ")?;
    Ok(push_row(alloc, out, scalar)?)
}

fn push_row(alloc: Global, out: &mut String, scalar: &Scalar) -> Result<(), AllocError> {
    match scalar.value() {
        Some(value) => push_value(alloc, out, value.as_value_ref()),
        None => out.push_str(if scalar.is_null() { "null" } else { "?" }),
    }
}

fn push_scalar_copy(alloc: Global, out: &mut String, scalar: &Scalar) -> Result<(), Fault> {
    let copy = scalar.try_clone(alloc)?;
    Ok(push_scalar(alloc, out, &copy)?)
}

// The copy of a value.
fn push_copy(alloc: Global, out: &mut String, word: &str) -> Result<(), Fault> {
    let value = value_of(alloc, word)?;
    push_value_copy(alloc, out, &value)
}

fn push_value_copy(alloc: Global, out: &mut String, value: &Value) -> Result<(), Fault> {
    let copy = value.try_clone(alloc)?;
    Ok(push_value(alloc, out, copy.as_value_ref())?)
}

fn ordering_of(word: &str) -> Result<Ordering, Fault> {
    match word {
        "less" => Ok(Ordering::Less),
        "equal" => Ok(Ordering::Equal),
        "greater" => Ok(Ordering::Greater),
        _ => Err(Fault::NoCase),
    }
}

fn push_accepted(out: &mut String, operator: &str, word: &str) -> Result<(), Fault> {
    let accepted = accepts(operator_of(operator)?, ordering_of(word)?);
    Ok(push_truth(out, accepted)?)
}

fn push_order(alloc: Global, out: &mut String, first: &str, rest: &str) -> Result<(), Fault> {
    let value = value_of(alloc, first)?;
    out.push_str(order_word(alloc, value.as_value_ref(), rest)?)?;
    Ok(())
}

// How a value stands to that of a word.
fn order_word(alloc: Global, value: ValueRef<'_>, word: &str) -> Result<&'static str, Fault> {
    let other = value_of(alloc, word)?;
    Ok(match value.compare(other.as_value_ref()) {
        Some(Ordering::Less) => "less",
        Some(Ordering::Equal) => "equal",
        Some(Ordering::Greater) => "greater",
        None => "none",
    })
}

fn push_compared(alloc: Global, out: &mut String, operator: &str, rest: &str) -> Result<(), Fault> {
    let (first, rest) = first_word(rest);
    let value = value_of(alloc, first)?;
    push_truth(
        out,
        is_compared(alloc, operator, value.as_value_ref(), rest)?,
    )?;
    Ok(())
}

fn is_compared(
    alloc: Global,
    operator: &str,
    value: ValueRef<'_>,
    word: &str,
) -> Result<bool, Fault> {
    let operator = operator_of(operator)?;
    let other = value_of(alloc, word)?;
    Ok(compares(operator, value, other.as_value_ref()))
}
