// What a part of a column is, whatever its kind.
ghost use Rattle.std.specs.Prelude.{◌≡◌, ◌≤◌, IfOk, IsTrue, length, map, slice_range};
ghost use Rattle.vortex_buffer.specs.Mask.{mask_bits};
ghost use Rattle.vortex_array_types.specs.declared.types.Nullability.{Nullability};
ghost use Rattle.vortex_array_kinds.specs.Validities.{is_as_long};
ghost use Rattle.vortex_array_select.specs.Selected.{filtered, kept_by, sliced, taken};
ghost use Rattle.vortex_array_select.specs.SelectedParts.{AreTaken, PlacesBelow, index_column};

use std::alloc::{AllocError, Global};
use vortex_array_kinds::{Kind, Validity, Values};
use vortex_array_rows::RowIndex;
use vortex_buffer::Mask;

/// A kind of columns of which parts are made.
pub trait Select: Kind {
    /// The rows from `start` up to `end`, without it.
    fn slice(&self, alloc: Global, start: usize, end: usize) -> Result<Self, AllocError>
        requires order { start ≤ end }
        requires within { end ≤ length (Self.column self.now).rows }
        ensures { IfOk result (λ part. Self.column part ≡ sliced start end (Self.column self.now)) };

    /// The rows that the mask keeps, in their order.
    fn filter(&self, alloc: Global, mask: &Mask) -> Result<Self, AllocError>
        requires same_length { length (mask_bits mask.now) ≡ length (Self.column self.now).rows }
        ensures { IfOk result (λ kept. Self.column kept ≡ filtered (mask_bits mask.now) (Self.column self.now)) };
}

/// A kind of columns in which any row can be null, so that its rows can be taken where some places are null.
pub trait Take: Select {
    /// The rows at the places, in the order of the places; null where a place is null. A place may come again, and one
    /// that is null may be any number.
    fn take<P: RowIndex>(
        &self,
        alloc: Global,
        places: &[P],
        nulls: &Validity,
    ) -> Result<Self, AllocError>
        requires long { IsTrue (is_as_long nulls.now (length places.now)) }
        requires within { PlacesBelow (length (Self.column self.now).rows) nulls.now (map P.place places.now) }
        ensures { IfOk result (λ part. Self.column part ≡ taken (index_column nulls.now (map P.place places.now)) (Self.column self.now)) };
}

/// Values of which parts are made. A part has the type of the whole.
pub trait SelectValues: Values {
    /// The values from `start` up to `end`, without it.
    fn slice_values(&self, alloc: Global, start: usize, end: usize) -> Result<Self, AllocError>
        requires order { start ≤ end }
        requires within { end ≤ Self.count_of self.now }
        ensures same_type { IfOk result (λ part. (n : Nullability) → Self.type_of part n ≡ Self.type_of self.now n) }
        ensures items { IfOk result (λ part. Self.items part ≡ slice_range (Self.items self.now) start end) };

    /// The values that the mask keeps, in their order.
    fn filter_values(&self, alloc: Global, mask: &Mask) -> Result<Self, AllocError>
        requires same_length { length (mask_bits mask.now) ≡ Self.count_of self.now }
        ensures same_type { IfOk result (λ kept. (n : Nullability) → Self.type_of kept n ≡ Self.type_of self.now n) }
        ensures items { IfOk result (λ kept. Self.items kept ≡ kept_by (mask_bits mask.now) (Self.items self.now)) };

    /// The values at the places, in the order of the places, and any value where a place is null.
    fn take_values<P: RowIndex>(
        &self,
        alloc: Global,
        places: &[P],
        nulls: &Validity,
    ) -> Result<Self, AllocError>
        requires long { IsTrue (is_as_long nulls.now (length places.now)) }
        requires within { PlacesBelow (Self.count_of self.now) nulls.now (map P.place places.now) }
        ensures same_type { IfOk result (λ part. (n : Nullability) → Self.type_of part n ≡ Self.type_of self.now n) }
        ensures items { IfOk result (λ part. AreTaken nulls.now (map P.place places.now) (Self.items self.now) (Self.items part)) };
}
