// Filters.
use crate::names::Name;
use crate::scalar::Scalar;
use sqlite_items::Boxed;
use vortex_buffer::CompareOperator;

/// Whether a bound itself is left out.
#[derive(Clone, Copy, Debug, PartialEq, Eq)]
pub enum StrictComparison {
    Strict,
    NonStrict,
}

/// How a value is compared with its two bounds.
#[derive(Clone, Copy, Debug, PartialEq, Eq)]
pub struct BetweenOptions {
    pub lower_strict: StrictComparison,
    pub upper_strict: StrictComparison,
}

/// A row's value in a column, or a constant.
pub enum Operand {
    Column(Name),
    Constant(Scalar),
}

impl Drop for Operand {
    fn drop(self) {
        match self {
            Operand::Column(_part) => {}
            Operand::Constant(_part) => {}
        }
    }
}

/// What chooses rows. Its truth for a row is one of three: true, false and null.
#[derive(Drop)]
pub enum Filter {
    /// A truth value.
    Truth(Operand),
    /// Two values compared.
    Compare(CompareOperator, Operand, Operand),
    /// A value, its lower and its upper bound.
    Between(BetweenOptions, Operand, Operand, Operand),
    /// A text and a pattern.
    Like(Operand, Operand),
    /// Whether a value is null.
    IsNull(Operand),
    Not(Boxed<Filter>),
    And(Boxed<Filter>, Boxed<Filter>),
    Or(Boxed<Filter>, Boxed<Filter>),
}
