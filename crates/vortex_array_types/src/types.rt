// The types of values.
ghost use Rattle.std.specs.Prelude.{◌≡◌, ◌<◌, ◌⊎◌, IsTrue, OnErr, IfOk, IfSome, is_some, int_le, int_lt, not, pos, ◌&&◌};
ghost use Rattle.vortex_array_types.specs.Row.{fits_type, in_signed, in_unsigned, in_width, is_nullable as is_nullable_type, nullability as nullability_of, value_fits};
ghost use Rattle.vortex_array_types.specs.Typed.{same_apart_from_nullability as are_same_apart_from_nullability, width_number};
ghost use Rattle.vortex_array_types.specs.Widths.{bytes_in, full_form, greatest, has_no_sign, least, nullable_form};

use crate::scalar::Value;
use std::marker::Model;
use thiserror::Error;

/// A width of whole numbers.
#[derive(Clone, Copy, Debug, PartialEq, Eq)]
pub enum PType {
    U8,
    U16,
    U32,
    U64,
    I8,
    I16,
    I32,
    I64,
}

impl PType {
    /// The width's number, 0 to 7 in the order of the variants.
    pub fn number(self) -> i32
        ensures { result ≡ pos (width_number self) }
    {
        match self {
            PType::U8 => 0,
            PType::U16 => 1,
            PType::U32 => 2,
            PType::U64 => 3,
            PType::I8 => 4,
            PType::I16 => 5,
            PType::I32 => 6,
            PType::I64 => 7,
        }
    }

    /// The width of this number, or none exactly outside 0 to 7.
    pub fn from_number(number: i32) -> Option<PType>
        ensures width { IfSome result (λ width. pos (width_number width) ≡ number) }
        ensures known { is_some result ≡ (int_le (pos 0) number && int_lt number (pos 8)) }
    {
        match number {
            0 => Some(PType::U8),
            1 => Some(PType::U16),
            2 => Some(PType::U32),
            3 => Some(PType::U64),
            4 => Some(PType::I8),
            5 => Some(PType::I16),
            6 => Some(PType::I32),
            7 => Some(PType::I64),
            _ => None,
        }
    }

    /// How many bytes a number takes.
    pub fn byte_width(self) -> usize
        ensures { result ≡ bytes_in self }
    {
        match self {
            PType::U8 | PType::I8 => 1,
            PType::U16 | PType::I16 => 2,
            PType::U32 | PType::I32 => 4,
            PType::U64 | PType::I64 => 8,
        }
    }

    /// Whether there is no number below 0.
    pub fn is_unsigned(self) -> bool
        ensures { result ≡ has_no_sign self }
    {
        match self {
            PType::U8 | PType::U16 | PType::U32 | PType::U64 => true,
            PType::I8 | PType::I16 | PType::I32 | PType::I64 => false,
        }
    }

    /// Whether there are numbers below 0.
    pub fn is_signed(self) -> bool
        ensures { result ≡ not (has_no_sign self) }
    {
        !self.is_unsigned()
    }

    /// The least number.
    pub fn min_value(self) -> i128
        ensures value { result ≡ least self }
        ensures within { IsTrue (in_width self result) }
    {
        match self {
            PType::U8 | PType::U16 | PType::U32 | PType::U64 => 0,
            PType::I8 => -128,
            PType::I16 => -32768,
            PType::I32 => -2147483648,
            PType::I64 => -9223372036854775808,
        }
    }

    /// The greatest number.
    pub fn max_value(self) -> i128
        ensures value { result ≡ greatest self }
        ensures within { IsTrue (in_width self result) }
    {
        match self {
            PType::U8 => 255,
            PType::U16 => 65535,
            PType::U32 => 4294967295,
            PType::U64 => 18446744073709551615,
            PType::I8 => 127,
            PType::I16 => 32767,
            PType::I32 => 2147483647,
            PType::I64 => 9223372036854775807,
        }
    }

    /// Whether the number lies in the width, which has every number from its least to its greatest.
    #[tactic(auto, using(crate::proofs::Bounds::in_width_between))]
    pub fn holds(self, number: i128) -> bool
        ensures within { result ≡ in_width self number }
        ensures between { result ≡ (int_le (least self) number && int_le number (greatest self)) }
    {
        match self {
            PType::U8 => number >= 0 && number < 256,
            PType::U16 => number >= 0 && number < 65536,
            PType::U32 => number >= 0 && number < 4294967296,
            PType::U64 => number >= 0 && number < 18446744073709551616,
            PType::I8 => number >= -128 && number < 128,
            PType::I16 => number >= -32768 && number < 32768,
            PType::I32 => number >= -2147483648 && number < 2147483648,
            PType::I64 => number >= -9223372036854775808 && number < 9223372036854775808,
        }
    }
}

/// Whether a column may have nulls.
#[derive(Clone, Copy, Debug, PartialEq, Eq)]
pub enum Nullability {
    NonNullable,
    Nullable,
}

/// The precision is 0 or above 38.
#[derive(Clone, Copy, Debug, PartialEq, Eq, Error)]
#[error("a decimal has 1 to 38 digits")]
pub struct BadPrecision;

/// How many digits a decimal has, 1 to 38, and how many of them stand behind the point.
#[derive(Clone, Copy, Debug, PartialEq, Eq)]
pub struct DecimalDType {
    precision: u8,
    scale: i8,
}

impl Model for DecimalDType {
    ghost use Rattle.std.specs.Prelude.{◌≤◌};
    ghost use Rattle.vortex_array_types.specs.Digits.{Digits};

    ghost Value = { Digits };

    ghost view = { λ d. record { precision = d.precision; scale = d.scale } };

    ghost invariant = { λ d. (1 ≤ d.precision) × (d.precision ≤ 38) };

    ghost inverse = { λ d. record { precision = d.precision; scale = d.scale } };
}

impl DecimalDType {
    /// A decimal type, refused exactly where the precision is 0 or above 38.
    pub fn try_new(precision: u8, scale: i8) -> Result<DecimalDType, BadPrecision>
        ensures ok { IfOk result (λ d. d ≡ record { precision = precision; scale = scale }) }
        ensures within { IfOk result (λ _. (0 < precision) × (precision < 39)) }
        ensures err { OnErr result ((precision ≡ 0) ⊎ (38 < precision)) }
    {
        if precision < 1 || precision > 38 {
            return Err(BadPrecision);
        }
        Ok(DecimalDType { precision, scale })
    }

    /// How many digits there are.
    pub fn precision(&self) -> u8
        ensures { result ≡ self.now.precision }
    {
        self.precision
    }

    /// How many digits stand behind the point.
    pub fn scale(&self) -> i8
        ensures { result ≡ self.now.scale }
    {
        self.scale
    }
}

/// The type of a column.
#[derive(Clone, Copy, Debug, PartialEq, Eq)]
pub enum DType {
    Bool(Nullability),
    Primitive(PType, Nullability),
    Decimal(DecimalDType, Nullability),
    Utf8(Nullability),
    Binary(Nullability),
}

impl DType {
    /// Whether the types agree but for their nulls: kind, width, precision and scale.
    pub fn same_apart_from_nullability(&self, other: &DType) -> bool
        ensures { result ≡ are_same_apart_from_nullability self.now other.now }
    {
        match (self, other) {
            (DType::Bool(_), DType::Bool(_)) => true,
            (DType::Primitive(p, _), DType::Primitive(q, _)) => *p == *q,
            (DType::Decimal(d, _), DType::Decimal(e, _)) => {
                d.precision() == e.precision() && d.scale() == e.scale()
            }
            (DType::Utf8(_), DType::Utf8(_)) => true,
            (DType::Binary(_), DType::Binary(_)) => true,
            _ => false,
        }
    }

    /// The same type, with nulls.
    pub fn into_nullable(self) -> DType
        ensures { result ≡ nullable_form self }
    {
        match self {
            DType::Bool(_) => DType::Bool(Nullability::Nullable),
            DType::Primitive(width, _) => DType::Primitive(width, Nullability::Nullable),
            DType::Decimal(digits, _) => DType::Decimal(digits, Nullability::Nullable),
            DType::Utf8(_) => DType::Utf8(Nullability::Nullable),
            DType::Binary(_) => DType::Binary(Nullability::Nullable),
        }
    }

    /// The same type, without nulls.
    pub fn into_non_nullable(self) -> DType
        ensures { result ≡ full_form self }
    {
        match self {
            DType::Bool(_) => DType::Bool(Nullability::NonNullable),
            DType::Primitive(width, _) => DType::Primitive(width, Nullability::NonNullable),
            DType::Decimal(digits, _) => DType::Decimal(digits, Nullability::NonNullable),
            DType::Utf8(_) => DType::Utf8(Nullability::NonNullable),
            DType::Binary(_) => DType::Binary(Nullability::NonNullable),
        }
    }

    /// Whether a column of the type may have nulls.
    pub fn nullability(&self) -> Nullability
        ensures { result ≡ nullability_of self.now }
    {
        match self {
            DType::Bool(nulls) => *nulls,
            DType::Primitive(_, nulls) => *nulls,
            DType::Decimal(_, nulls) => *nulls,
            DType::Utf8(nulls) => *nulls,
            DType::Binary(nulls) => *nulls,
        }
    }

    /// Whether the type has nulls.
    pub fn is_nullable(&self) -> bool
        ensures { result ≡ is_nullable_type self.now }
    {
        match self.nullability() {
            Nullability::Nullable => true,
            Nullability::NonNullable => false,
        }
    }

    /// Whether the value is of the type's kind, and a whole number in its width.
    pub fn holds(&self, value: &Value) -> bool
        ensures { result ≡ value_fits self.now value.now }
    {
        match (self, value) {
            (DType::Bool(_), Value::Bool(_)) => true,
            (DType::Primitive(width, _), Value::Int(number)) => width.holds(*number),
            (DType::Decimal(_, _), Value::Decimal(_)) => true,
            (DType::Utf8(_), Value::Utf8(_)) => true,
            (DType::Binary(_), Value::Binary(_)) => true,
            _ => false,
        }
    }

    /// Whether the row, a value or null, fits the type.
    pub fn admits(&self, row: &Option<Value>) -> bool
        ensures { result ≡ fits_type self.now row.now }
    {
        match row {
            None => self.is_nullable(),
            Some(value) => self.holds(value),
        }
    }
}
