// Comparisons of values that are lent, which copy none of them.
ghost use Rattle.std.specs.Prelude.{◌≡◌};
ghost use Rattle.vortex_array_types.specs.Order.{accepts as is_accepted, compares as is_compared, value_cmp};
ghost use Rattle.vortex_array_types.specs.Seen.{value_seen};

use crate::value_ref::ValueRef;
use std::cmp::Ordering;
use vortex_buffer::CompareOperator;

impl ValueRef<'_> {
    /// How a value stands to another: numbers by size, false before true, texts and bytes by their bytes. Values of two
    /// kinds have no order.
    pub fn compare(self, other: ValueRef<'_>) -> Option<Ordering>
        ensures { result ≡ value_cmp (value_seen self.entry) (value_seen other.entry) }
    {
        match (self, other) {
            (ValueRef::Bool(a), ValueRef::Bool(b)) => Some(a.cmp(&b)),
            (ValueRef::Int(a), ValueRef::Int(b)) => Some(a.cmp(&b)),
            (ValueRef::Decimal(a), ValueRef::Decimal(b)) => Some(a.cmp(&b)),
            (ValueRef::Utf8(a), ValueRef::Utf8(b)) => Some(a.cmp(b)),
            (ValueRef::Binary(a), ValueRef::Binary(b)) => Some(a.cmp(b)),
            _ => None,
        }
    }
}

/// Whether the operator holds of two values that stand so.
pub fn accepts(operator: CompareOperator, ordering: Ordering) -> bool
    ensures { result ≡ is_accepted operator ordering }
{
    match operator {
        CompareOperator::Eq => ordering.is_eq(),
        CompareOperator::NotEq => ordering.is_ne(),
        CompareOperator::Gt => ordering.is_gt(),
        CompareOperator::Gte => ordering.is_ge(),
        CompareOperator::Lt => ordering.is_lt(),
        CompareOperator::Lte => ordering.is_le(),
    }
}

/// Whether the operator holds of two values. None holds of values of two kinds.
pub fn compares(operator: CompareOperator, a: ValueRef<'_>, b: ValueRef<'_>) -> bool
    ensures { result ≡ is_compared operator (value_seen a.entry) (value_seen b.entry) }
{
    match a.compare(b) {
        Some(ordering) => accepts(operator, ordering),
        None => false,
    }
}
