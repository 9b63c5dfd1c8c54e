// Which values of a dictionary are not null, as a validity.
ghost use Rattle.std.specs.Prelude.{ℕ, IsTrue, replicate};
ghost use Rattle.vortex_array_kinds.specs.Kinds.{plain_column};
ghost use Rattle.vortex_array.specs.ColumnOf.{column_of, is_plain};
ghost use Rattle.vortex_dict.specs.Presence.{Shows};

use vortex_array::{Array, PlainArray, Scalar, Validity};
use vortex_array_kinds::Values;

// That of a plain array.
pub(crate) fn presence(values: &Array) -> &Validity
    requires { IsTrue (is_plain values.now) }
    ensures { Shows (column_of values.now).rows result.now }
{
    match values {
        Array::Bool(values) => presence_in(values),
        Array::Primitive(values) => presence_in(values),
        Array::Decimal(values) => presence_in(values),
        Array::VarBinView(values) => presence_in(values),
        Array::Constant(_) => unreachable!(),
    }
}

// That of plain values of one kind.
fn presence_in<V: Values>(values: &PlainArray<V>) -> &Validity
    ensures { Shows (plain_column V.type_of V.items values.now).rows result.now }
{
    values.validity()
}

// That of equal rows.
pub(crate) fn equal_presence(value: &Scalar) -> Validity
    ensures { (n : ℕ) → Shows (replicate n value.now.value) result }
{
    if value.is_null() {
        Validity::AllInvalid
    } else {
        Validity::AllValid
    }
}
