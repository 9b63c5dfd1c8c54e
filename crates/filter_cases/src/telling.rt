// Values, types and filters as words again.
use std::alloc::{AllocError, Global};
use vortex_array::{
    BetweenOptions, CompareOperator, DType, DecimalDType, Filter, Nullability, Operand, PType,
    Scalar, StrictComparison, ValueRef,
};

pub fn push_truth(out: &mut String, truth: bool) -> Result<(), AllocError> {
    out.push_str(if truth { "true" } else { "false" })
}

fn push_number(alloc: Global, out: &mut String, number: i128) -> Result<(), AllocError> {
    let digits = format!(in alloc; "{number}")?;
    out.push_str(digits.as_str())
}

fn push_text(out: &mut String, text: &str) -> Result<(), AllocError> {
    if text.is_empty() {
        return out.push_str("''");
    }
    for c in text.chars() {
        out.push(if c == ' ' { '␣' } else { c })?;
    }
    Ok(())
}

fn push_bytes(out: &mut String, bytes: &[u8]) -> Result<(), AllocError> {
    for byte in bytes {
        out.push(digit(*byte / 16))?;
        out.push(digit(*byte % 16))?;
    }
    Ok(())
}

// A hexadecimal digit.
fn digit(number: u8) -> char {
    match number {
        0..=9 => (b'0' + number) as char,
        10..=15 => (b'a' + (number - 10)) as char,
        _ => '?',
    }
}

fn push_shown(alloc: Global, out: &mut String, value: ValueRef<'_>) -> Result<(), AllocError> {
    match value {
        ValueRef::Bool(truth) => push_truth(out, truth),
        ValueRef::Int(number) => push_number(alloc, out, number),
        ValueRef::Decimal(number) => push_number(alloc, out, number),
        ValueRef::Utf8(text) => push_text(out, text),
        ValueRef::Binary(bytes) => push_bytes(out, bytes),
    }
}

fn kind(value: ValueRef<'_>) -> &'static str {
    match value {
        ValueRef::Bool(_) => "bool:",
        ValueRef::Int(_) => "int:",
        ValueRef::Decimal(_) => "decimal:",
        ValueRef::Utf8(_) => "utf8:",
        ValueRef::Binary(_) => "binary:",
    }
}

/// A value as `int:7`.
pub fn push_value(alloc: Global, out: &mut String, value: ValueRef<'_>) -> Result<(), AllocError> {
    out.push_str(kind(value))?;
    push_shown(alloc, out, value)
}

fn width(width: PType) -> &'static str {
    match width {
        PType::U8 => "u8",
        PType::U16 => "u16",
        PType::U32 => "u32",
        PType::U64 => "u64",
        PType::I8 => "i8",
        PType::I16 => "i16",
        PType::I32 => "i32",
        PType::I64 => "i64",
    }
}

/// A decimal type as `decimal(5,2)`.
pub fn push_digits(
    alloc: Global,
    out: &mut String,
    digits: DecimalDType,
) -> Result<(), AllocError> {
    out.push_str("decimal(")?;
    push_number(alloc, out, digits.precision() as i128)?;
    out.push_str(",")?;
    push_number(alloc, out, digits.scale() as i128)?;
    out.push_str(")")
}

/// A type as `i32?`.
pub fn push_type(alloc: Global, out: &mut String, dtype: DType) -> Result<(), AllocError> {
    push_base(alloc, out, dtype)?;
    match dtype.nullability() {
        Nullability::Nullable => out.push_str("?"),
        Nullability::NonNullable => Ok(()),
    }
}

// A type but for its nulls.
fn push_base(alloc: Global, out: &mut String, dtype: DType) -> Result<(), AllocError> {
    match dtype {
        DType::Bool(_) => out.push_str("bool"),
        DType::Primitive(ptype, _) => out.push_str(width(ptype)),
        DType::Decimal(digits, _) => push_digits(alloc, out, digits),
        DType::Utf8(_) => out.push_str("utf8"),
        DType::Binary(_) => out.push_str("binary"),
    }
}

/// A value or null as `i32:7` or `null:i32?`.
pub fn push_scalar(alloc: Global, out: &mut String, scalar: &Scalar) -> Result<(), AllocError> {
    match scalar.value_ref() {
        Some(value) => {
            push_type(alloc, out, scalar.dtype())?;
            out.push_str(":")?;
            push_shown(alloc, out, value)
        }
        None => {
            out.push_str("null:")?;
            push_type(alloc, out, scalar.dtype())
        }
    }
}

// A space, and the operand.
fn push_operand(alloc: Global, out: &mut String, operand: &Operand) -> Result<(), AllocError> {
    out.push_str(" ")?;
    match operand {
        Operand::Column(name) => out.push_str(name.as_str()),
        Operand::Constant(scalar) => push_scalar(alloc, out, scalar),
    }
}

fn operator_word(operator: CompareOperator) -> &'static str {
    match operator {
        CompareOperator::Eq => "cmp =",
        CompareOperator::NotEq => "cmp !=",
        CompareOperator::Gt => "cmp >",
        CompareOperator::Gte => "cmp >=",
        CompareOperator::Lt => "cmp <",
        CompareOperator::Lte => "cmp <=",
    }
}

fn brackets(options: BetweenOptions) -> &'static str {
    match (options.lower_strict, options.upper_strict) {
        (StrictComparison::NonStrict, StrictComparison::NonStrict) => "between []",
        (StrictComparison::NonStrict, StrictComparison::Strict) => "between [)",
        (StrictComparison::Strict, StrictComparison::NonStrict) => "between (]",
        (StrictComparison::Strict, StrictComparison::Strict) => "between ()",
    }
}

// The word of a filter's form, and the operator or brackets behind it.
fn head(filter: &Filter) -> &'static str {
    match filter {
        Filter::Truth(_) => "truth",
        Filter::Compare(operator, _, _) => operator_word(*operator),
        Filter::Between(options, _, _, _) => brackets(*options),
        Filter::Like(_, _) => "like",
        Filter::IsNull(_) => "is_null",
        Filter::Not(_) => "not ",
        Filter::And(_, _) => "and ",
        Filter::Or(_, _) => "or ",
    }
}

fn push_two(alloc: Global, out: &mut String, x: &Operand, y: &Operand) -> Result<(), AllocError> {
    push_operand(alloc, out, x)?;
    push_operand(alloc, out, y)
}

// The operands of a filter that has no filter in it.
fn push_operands(alloc: Global, out: &mut String, filter: &Filter) -> Result<(), AllocError> {
    match filter {
        Filter::Truth(x) | Filter::IsNull(x) => push_operand(alloc, out, x),
        Filter::Compare(_, x, y) | Filter::Like(x, y) => push_two(alloc, out, x, y),
        Filter::Between(_, x, lower, upper) => {
            push_operand(alloc, out, x)?;
            push_two(alloc, out, lower, upper)
        }
        Filter::Not(_) | Filter::And(_, _) | Filter::Or(_, _) => Ok(()),
    }
}

/// A filter in prefix form.
pub fn push_filter(alloc: Global, out: &mut String, filter: &Filter) -> Result<(), AllocError> {
    out.push_str(head(filter))?;
    match filter {
        Filter::Not(f) => push_filter(alloc, out, f.get()),
        Filter::And(f, g) | Filter::Or(f, g) => {
            push_filter(alloc, out, f.get())?;
            out.push_str(" ")?;
            push_filter(alloc, out, g.get())
        }
        _ => push_operands(alloc, out, filter),
    }
}
