// Rows that are lent, compared.
ghost use Rattle.std.specs.Prelude.{◌≡◌, ◌↔◌, IsTrue, option_map};
ghost use Rattle.vortex_array_types.specs.Seen.{value_seen};

use vortex_array::{CompareOperator, ValueRef, compares};

// Whether two rows are one: null and null, or equal values.
pub(crate) fn same_row(a: Option<ValueRef<'_>>, b: Option<ValueRef<'_>>) -> bool
    ensures { IsTrue result ↔ (option_map value_seen a.entry ≡ option_map value_seen b.entry) }
{
    match (a, b) {
        (Some(a), Some(b)) => compares(CompareOperator::Eq, a, b),
        (None, None) => true,
        _ => false,
    }
}
