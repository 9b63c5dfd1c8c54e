// Arrays that stand for types.
ghost use Rattle.std.specs.Prelude.{◌≡◌, ◌==◌, false, IfNone, IfSome, IsTrue, [], ◌∷◌, length};
ghost use Rattle.vortex_array.specs.ColumnOf.{column_of};
ghost use Rattle.vortex_array_children.specs.Children.{IsRelabelled, is_form_of, stands_for as is_child_of};

use vortex_array::{Array, DType};

/// Whether an array stands for so many rows of a type: it has so many, and the type or the same without nulls.
pub fn stands_for(array: &Array, dtype: &DType, len: usize) -> bool
    ensures { result ≡ is_child_of dtype.now len array.now }
{
    array.len() == len && is_form(&array.dtype(), dtype)
}

// Whether a type is another, or the same without nulls.
fn is_form(from: &DType, to: &DType) -> bool
    ensures { result ≡ is_form_of from.now to.now }
{
    from.same_apart_from_nullability(to) && (to.is_nullable() || !from.is_nullable())
}

/// The array in the type for which it stands, with the same rows. It takes no memory, and an array of that type stays as it is.
pub fn relabelled(array: Array, dtype: &DType) -> Array
    requires { IsTrue (is_form_of (column_of array).dtype dtype.now) }
    ensures dtype { (column_of result).dtype ≡ dtype.now }
    ensures same { IsRelabelled array result }
{
    if dtype.is_nullable() && !array.dtype().is_nullable() {
        array.into_nullable()
    } else {
        array
    }
}

/// The only child, where there is no other.
pub fn one_child(mut children: Vec<Array>) -> Option<Array>
    ensures some { IfSome result (λ child. children.items ≡ child ∷ []) }
    ensures none { IfNone result ((length children.items == 1) ≡ false) }
{
    if children.len() == 1 {
        children.pop()
    } else {
        None
    }
}

/// The two children, where there are no others.
pub fn two_children(mut children: Vec<Array>) -> Option<(Array, Array)>
    ensures some { IfSome result (λ both. children.items ≡ both.0 ∷ both.1 ∷ []) }
    ensures none { IfNone result ((length children.items == 2) ≡ false) }
{
    if children.len() != 2 {
        return None;
    }
    let Some(second) = children.pop() else {
        return None;
    };
    let Some(first) = children.pop() else {
        return None;
    };
    Some((first, second))
}
