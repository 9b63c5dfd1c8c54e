// Whether the rows of a dictionary are equal or in order. None of these takes memory.
ghost use Rattle.std.specs.Prelude.{◌≡◌, ◌↔◌, IfSome, IsTrue, is_some, true};
ghost use Rattle.vortex_array_order.specs.InOrder.{IsSorted, IsStrictlySorted};
ghost use Rattle.vortex_array.specs.ColumnOf.{column_of};
ghost use Rattle.vortex_dict.specs.Decoded.{dict_column};
ghost use Rattle.vortex_dict.specs.InOrder.{BeginWithNulls, StandStrictly};

use crate::dict::DictArray;

impl DictArray {
    /// `Some(true)` exactly where the values and the codes each ascend, null below every value: then the rows do. Else none,
    /// which says nothing of them.
    pub fn is_sorted(&self) -> Option<bool>
        ensures exact { IsTrue (is_some result) ↔ (IsSorted (column_of self.now.codes).rows × IsSorted (column_of self.now.values).rows) }
        ensures told { IfSome result (λ sorted. sorted ≡ true) }
        ensures rows { IfSome result (λ sorted. IsSorted (dict_column self.now).rows) }
    {
        if self.codes().is_sorted() && self.values().is_sorted() {
            Some(true)
        } else {
            None
        }
    }

    /// `Some(true)` exactly where the values and the codes each ascend strictly, null below every value, and at most one row is
    /// null: then the rows ascend strictly. Else none, which says nothing of them.
    pub fn is_strict_sorted(&self) -> Option<bool>
        ensures exact { IsTrue (is_some result) ↔ StandStrictly self.now }
        ensures told { IfSome result (λ sorted. sorted ≡ true) }
        ensures rows { IfSome result (λ sorted. IsStrictlySorted (dict_column self.now).rows) }
    {
        if self.codes().is_strict_sorted()
            && self.values().is_strict_sorted()
            && !begins_with_nulls(self)
        {
            Some(true)
        } else {
            None
        }
    }
}

// Whether the first two rows are null.
fn begins_with_nulls(dict: &DictArray) -> bool
    ensures { IsTrue result ↔ BeginWithNulls (dict_column dict.now).rows }
{
    dict.len() > 1 && !dict.is_valid(0) && !dict.is_valid(1)
}
