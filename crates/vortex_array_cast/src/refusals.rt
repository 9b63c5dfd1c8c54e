// Why a cast is refused: the types, or the first row that does not fit, looked for from the start.
ghost use Rattle.std.specs.Prelude.{◌≡◌, ◌<◌, ℕ, ◌||◌, IsTrue, MatchOption, cond, option_map};
ghost use Rattle.std.specs.List.{list_all};
ghost use Rattle.vortex_array_types.specs.Row.{fits_type, is_nullable, value_fits};
ghost use Rattle.vortex_array_types.specs.Seen.{value_seen};
ghost use Rattle.vortex_array_kinds.specs.Kinds.{plain_column};
ghost use Rattle.vortex_array_kinds.specs.Validities.{is_as_long, valid_at};
ghost use Rattle.vortex_array_cast.specs.declared.errors.CastError.TheVariants as errors;
ghost use Rattle.vortex_array_cast.specs.Casts.{AllFit, FirstUnfit, IsCast, RefusesCast, can_cast};

use crate::errors::CastError;
use vortex_array_kinds::{PlainArray, Validity, Values};
use vortex_array_types::{DType, ValueRef};

/// Whether columns of one type can be cast to another.
pub(crate) fn is_castable(from: &DType, to: &DType) -> bool
    ensures { result ≡ can_cast from.now to.now }
{
    match (from, to) {
        (DType::Primitive(_, _), DType::Primitive(_, _)) => true,
        _ => from.same_apart_from_nullability(to),
    }
}

// Whether a value fits a type.
#[inline]
fn fits(dtype: &DType, value: ValueRef<'_>) -> bool
    ensures { result ≡ value_fits dtype.now (value_seen value.entry) }
{
    match (dtype, value) {
        (DType::Bool(_), ValueRef::Bool(_)) => true,
        (DType::Primitive(width, _), ValueRef::Int(number)) => width.holds(number),
        (DType::Decimal(_, _), ValueRef::Decimal(_)) => true,
        (DType::Utf8(_), ValueRef::Utf8(_)) => true,
        (DType::Binary(_), ValueRef::Binary(_)) => true,
        _ => false,
    }
}

/// Whether a row, a value or null, fits a type.
#[inline]
pub(crate) fn row_fits(dtype: &DType, row: Option<ValueRef<'_>>) -> bool
    ensures { result ≡ fits_type dtype.now (option_map value_seen row.entry) }
{
    match row {
        None => dtype.is_nullable(),
        Some(value) => fits(dtype, value),
    }
}

/// Why a cast is refused at a row that does not fit: it is a value, or null.
pub(crate) fn refused_at(row: usize, is_value: bool) -> CastError
    ensures { result ≡ cond is_value (errors.DoesNotFit row) (errors.HasNull row) }
{
    if is_value {
        CastError::DoesNotFit { row }
    } else {
        CastError::HasNull { row }
    }
}

// Whether null fits the type, or no row is null, as counts tell without a look at each row.
fn nulls_fit(validity: &Validity, len: usize, dtype: &DType) -> bool
    requires { IsTrue (is_as_long validity.now len) }
    ensures { IsTrue result → (i : ℕ) → i < len → IsTrue (valid_at validity.now i || is_nullable dtype.now) }
{
    let _ = len;
    if dtype.is_nullable() {
        return true;
    }
    match validity {
        Validity::NonNullable | Validity::AllValid => true,
        Validity::AllInvalid => false,
        Validity::Bits(bits) => bits.count() == bits.len(),
    }
}

// The first row that does not fit the type. It is looked for only where counts do not tell that there is none.
fn first_unfit<V: Values>(array: &PlainArray<V>, dtype: &DType, values_fit: bool) -> Option<usize>
    requires { IsTrue values_fit → IsTrue (list_all (value_fits dtype.now) (V.items array.now.values)) }
    ensures { MatchOption result (AllFit dtype.now (plain_column V.type_of V.items array.now).rows) (FirstUnfit dtype.now (plain_column V.type_of V.items array.now).rows) }
{
    if values_fit && nulls_fit(array.validity(), array.len(), dtype) {
        return None;
    }
    for i in 0..array.len() {
        if !row_fits(dtype, array.value_at(i)) {
            return Some(i);
        }
    }
    None
}

/// Why rows are not cast to a type to which theirs can be, or none where all of them fit. `values_fit` may say that all
/// values do.
pub(crate) fn first_refused<V: Values>(
    array: &PlainArray<V>,
    dtype: &DType,
    values_fit: bool,
) -> Option<CastError>
    requires castable { IsTrue (can_cast (plain_column V.type_of V.items array.now).dtype dtype.now) }
    requires fits { IsTrue values_fit → IsTrue (list_all (value_fits dtype.now) (V.items array.now.values)) }
    ensures { MatchOption result (IsCast dtype.now (plain_column V.type_of V.items array.now)) (RefusesCast dtype.now (plain_column V.type_of V.items array.now)) }
{
    match first_unfit(array, dtype, values_fit) {
        None => None,
        Some(row) => Some(refused_at(row, array.value_at(row).is_some())),
    }
}
