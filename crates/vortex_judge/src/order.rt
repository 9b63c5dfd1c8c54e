// Comparisons of values.
ghost use Rattle.std.specs.Prelude.{◌≡◌};
ghost use Rattle.vortex_array_types.specs.Order.{compares as is_compared};

use vortex_array::{CompareOperator, Value};

/// Whether the operator holds of two values. None holds of values of two kinds.
pub fn compares(operator: CompareOperator, a: &Value, b: &Value) -> bool
    ensures { result ≡ is_compared operator a.now b.now }
{
    vortex_array::compares(operator, a.as_value_ref(), b.as_value_ref())
}
