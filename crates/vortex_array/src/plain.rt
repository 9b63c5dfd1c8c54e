// Plain arrays of which the kind is known by their type.
ghost use Rattle.std.specs.Prelude.{◌≡◌, IsTrue};
ghost use Rattle.vortex_array_kinds.specs.StringValues.{is_string_type};
ghost use Rattle.vortex_array.specs.Plain.{is_bool_type, is_decimal_type, is_primitive_type};
ghost use Rattle.vortex_array.specs.ColumnOf.{bool_column, column_of, decimal_column, is_plain, primitive_column, string_column};

use crate::arrays::{Array, only_kind};
use vortex_array_kinds::{BoolArray, DecimalArray, PrimitiveArray, VarBinViewArray};

// A plain array of truth values as what it is.
pub(crate) fn bools_of(array: &Array) -> &BoolArray
    requires plain { IsTrue (is_plain array.now) }
    requires kind { IsTrue (is_bool_type (column_of array.now).dtype) }
    ensures { column_of array.now ≡ bool_column result.now }
{
    only_kind!(array, kind => kind, Bool, [Primitive, Decimal, VarBinView, Constant])
}

// A plain array of whole numbers as what it is.
pub(crate) fn primitives_of(array: &Array) -> &PrimitiveArray
    requires plain { IsTrue (is_plain array.now) }
    requires kind { IsTrue (is_primitive_type (column_of array.now).dtype) }
    ensures { column_of array.now ≡ primitive_column result.now }
{
    only_kind!(array, kind => kind, Primitive, [Bool, Decimal, VarBinView, Constant])
}

// A plain array of decimals as what it is.
pub(crate) fn decimals_of(array: &Array) -> &DecimalArray
    requires plain { IsTrue (is_plain array.now) }
    requires kind { IsTrue (is_decimal_type (column_of array.now).dtype) }
    ensures { column_of array.now ≡ decimal_column result.now }
{
    only_kind!(array, kind => kind, Decimal, [Bool, Primitive, VarBinView, Constant])
}

// A plain array of texts or of bytes as what it is.
pub(crate) fn strings_of(array: &Array) -> &VarBinViewArray
    requires plain { IsTrue (is_plain array.now) }
    requires kind { IsTrue (is_string_type (column_of array.now).dtype) }
    ensures { column_of array.now ≡ string_column result.now }
{
    only_kind!(array, kind => kind, VarBinView, [Bool, Primitive, Decimal, Constant])
}
