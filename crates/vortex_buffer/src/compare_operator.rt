// The operator of a comparison stands at the bottom, since lane kernels and filters both name it.

/// How two values are compared.
#[derive(Clone, Copy, Debug, PartialEq, Eq)]
pub enum CompareOperator {
    /// The first equals the second.
    Eq,
    /// The first differs from the second.
    NotEq,
    /// The first is greater than the second.
    Gt,
    /// The first is greater than the second, or equals it.
    Gte,
    /// The first is less than the second.
    Lt,
    /// The first is less than the second, or equals it.
    Lte,
}
