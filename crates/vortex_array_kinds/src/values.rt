// What columns are, and what plain arrays keep their values in.
ghost use Rattle.std.specs.Prelude.{◌≡◌, ◌<◌, ℕ, List, IfOk, IsTrue, length, slice_index_or};
ghost use Rattle.vortex_array_types.specs.Row.{Column, value_fits};
ghost use Rattle.vortex_array_types.specs.Seen.{value_seen};
ghost use Rattle.vortex_array_types.specs.Widths.{with_nullability};
ghost use Rattle.vortex_array_types.specs.declared.scalar.Value.{Value};
ghost use Rattle.vortex_array_types.specs.declared.types.DType.{DType};
ghost use Rattle.vortex_array_types.specs.declared.types.Nullability.{Nullability};

use std::alloc::{AllocError, Global};
use vortex_array_types::{DType, Nullability, ValueRef};

/// Values of one kind, one for each row of a plain array. A row that is null has a value too, which says nothing.
pub trait Values: Drop + Sized {
    // The type of rows that are such values, with nulls or without.
    ghost type_of: { Self → Nullability → DType };

    // The values.
    ghost items: { Self → List Value };

    // How many there are.
    ghost count_of: { Self → ℕ };

    ghost counted: { (x : Self) → length (items x) ≡ count_of x };

    // The types differ by nothing but their nulls.
    ghost alike: { (x : Self) (m n : Nullability) → type_of x n ≡ with_nullability n (type_of x m) };

    /// How many values there are.
    fn count(&self) -> usize
        ensures { result ≡ count_of self.now };

    /// The type of rows that are such values, with nulls or without.
    fn type_with(&self, nullability: Nullability) -> DType
        ensures { result ≡ type_of self.now nullability };

    /// The value at a place, lent.
    fn lend(&self, i: usize) -> ValueRef<'_>
        requires { i < count_of self.now }
        ensures value { (d : Value) → value_seen result ≡ slice_index_or (items self.now) i d }
        ensures fits { (n : Nullability) → IsTrue (value_fits (type_of self.now n) (value_seen result)) };

    /// Second values that are equal.
    fn copy(&self, alloc: Global) -> Result<Self, AllocError>
        ensures { IfOk result (λ values. values ≡ self.now) };
}

/// A kind of columns. Its meaning is the column that it stands for; what is asked of columns is asked by traits above this one.
pub trait Kind: Drop + Sized {
    ghost column: { Self → Column };
}
