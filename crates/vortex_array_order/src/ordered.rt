// What is asked of the order of rows, whatever their kind.
ghost use Rattle.std.specs.Prelude.{◌↔◌, IsTrue, length};
ghost use Rattle.vortex_array_kinds.specs.Validities.{is_as_long, rows_under};
ghost use Rattle.vortex_array_order.specs.Asked.{ExtremesBelow, Holds};

use crate::order::RowOrder;
use crate::places::ExtremePlaces;
use vortex_array_kinds::{Kind, Validity, Values};

/// A kind of columns whose rows are compared.
pub trait Ordered: Kind {
    /// Whether the rows stand in the order that is asked for.
    fn rows_are(&self, order: RowOrder) -> bool
        ensures { IsTrue result ↔ Holds order (Self.column self.now).rows };

    /// The places of the least and of the greatest value, or none where no row is a value.
    fn extremes(&self) -> Option<ExtremePlaces>
        ensures { ExtremesBelow (Self.column self.now).rows (length (Self.column self.now).rows) result };
}

/// Values that are compared under a validity.
pub trait OrderValues: Values {
    /// Whether the rows that the values are under a validity stand in the order that is asked for.
    fn are_in_order(&self, validity: &Validity, order: RowOrder) -> bool
        requires long { IsTrue (is_as_long validity.now (Self.count_of self.now)) }
        ensures { IsTrue result ↔ Holds order (rows_under validity.now (Self.items self.now)) };

    /// The places of the least and of the greatest of those rows, or none where none is a value.
    fn extreme_places(&self, validity: &Validity) -> Option<ExtremePlaces>
        requires long { IsTrue (is_as_long validity.now (Self.count_of self.now)) }
        ensures { ExtremesBelow (rows_under validity.now (Self.items self.now)) (length (rows_under validity.now (Self.items self.now))) result };
}
