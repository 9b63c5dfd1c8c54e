// How the entries of one kind are kept and looked up.
ghost use Rattle.std.specs.Prelude.{◌≡◌, ◌<◌, ◌++◌, ◌∷◌, [], IfNone, IfOk, IfSome, IsFalse, IsTrue, None, OnErr, OnOk, length, slice_index_or};
ghost use Rattle.vortex_array_types.specs.Row.{Column};
ghost use Rattle.vortex_array_kinds.specs.Kinds.{plain_column};
ghost use Rattle.vortex_array.specs.ColumnOf.{column_of, is_plain};
ghost use Rattle.vortex_dict_builders.specs.Encoder.{entry_bytes};
ghost use Rattle.vortex_dict_builders.specs.Firsts.{AreDistinct, StandsAt, has_row};

use std::alloc::{AllocError, Global};
use vortex_array::{Array, DType, PlainArray};
use vortex_array_kinds::Values;

/// Distinct rows of one kind in the order in which they came, and the places of them. Its meaning is those rows as a column.
/// Rows are lent as places of a plain array of the same type.
pub trait Entries: Drop + Sized {
    /// What a plain array of the kind keeps.
    type Stored: Values;

    ghost kept: { Self → Column };

    /// The type.
    fn dtype(&self) -> DType
        ensures { result ≡ (kept self.now).dtype };

    /// How many there are.
    fn len(&self) -> usize
        ensures count { result ≡ length (kept self.now).rows }
        ensures distinct { AreDistinct (kept self.now).rows };

    /// A plain array of this type as what it keeps.
    fn of_array<'a>(&self, array: &'a Array) -> &'a PlainArray<Self::Stored>
        requires plain { IsTrue (is_plain array.now) }
        requires same_type { (column_of array.now).dtype ≡ (kept self.now).dtype }
        ensures { column_of array.now ≡ plain_column Self.Stored.type_of Self.Stored.items result.now };

    /// The place of a row, or none where it is no entry.
    fn place_of(&self, rows: &PlainArray<Self::Stored>, i: usize) -> Option<usize>
        requires same_type { (plain_column Self.Stored.type_of Self.Stored.items rows.now).dtype ≡ (kept self.now).dtype }
        requires inside { i < length (plain_column Self.Stored.type_of Self.Stored.items rows.now).rows }
        ensures none { IfNone result (IsFalse (has_row (kept self.now).rows (slice_index_or (plain_column Self.Stored.type_of Self.Stored.items rows.now).rows i None))) }
        ensures some { IfSome result (StandsAt (kept self.now).rows (slice_index_or (plain_column Self.Stored.type_of Self.Stored.items rows.now).rows i None)) };

    /// What a row costs as an entry.
    fn bytes_of(&self, rows: &PlainArray<Self::Stored>, i: usize) -> usize
        requires same_type { (plain_column Self.Stored.type_of Self.Stored.items rows.now).dtype ≡ (kept self.now).dtype }
        requires inside { i < length (plain_column Self.Stored.type_of Self.Stored.items rows.now).rows }
        ensures { result ≡ entry_bytes (kept self.now).dtype (slice_index_or (plain_column Self.Stored.type_of Self.Stored.items rows.now).rows i None) };

    /// Puts a row that is no entry behind the others. Where memory is wanting, nothing has changed.
    fn push(&mut self, rows: &PlainArray<Self::Stored>, i: usize) -> Result<(), AllocError>
        requires same_type { (plain_column Self.Stored.type_of Self.Stored.items rows.now).dtype ≡ (kept self.old).dtype }
        requires inside { i < length (plain_column Self.Stored.type_of Self.Stored.items rows.now).rows }
        requires absent { IsFalse (has_row (kept self.old).rows (slice_index_or (plain_column Self.Stored.type_of Self.Stored.items rows.now).rows i None)) }
        ensures ok { OnOk result (kept self.new ≡ record (kept self.old) { rows = (kept self.old).rows ++ slice_index_or (plain_column Self.Stored.type_of Self.Stored.items rows.now).rows i None ∷ [] }) }
        ensures err { OnErr result (kept self.new ≡ kept self.old) };

    /// A plain array of the entries.
    fn to_array(&self, alloc: Global) -> Result<Array, AllocError>
        ensures { IfOk result (λ a. column_of a ≡ kept self.now) };
}
