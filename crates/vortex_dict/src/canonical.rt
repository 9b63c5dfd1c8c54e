// Dictionaries decoded: the value at each code, row by row.
ghost use Rattle.std.specs.Prelude.{◌≡◌, IfOk, IsTrue, length};
ghost use Rattle.vortex_array_select.specs.Selected.{NamesRows};
ghost use Rattle.vortex_array.specs.ColumnOf.{column_of, is_plain};
ghost use Rattle.vortex_dict.specs.Decoded.{decoded, dict_column};

use crate::dict::DictArray;
use crate::shortcuts::decoded_truths;
use std::alloc::{AllocError, Global};
use vortex_array::Array;
use vortex_dict_builders::plain_form;

impl DictArray {
    /// A plain array of the same type and rows.
    pub fn canonicalize(&self, alloc: Global) -> Result<Array, AllocError>
        ensures column { IfOk result (λ a. column_of a ≡ dict_column self.now) }
        ensures plain { IfOk result (λ a. IsTrue (is_plain a)) }
    {
        let codes = self.codes();
        match self.values() {
            Array::Bool(truths) => {
                let rows = decoded_truths(alloc, truths, codes)?;
                Ok(Array::Bool(rows))
            }
            Array::Constant(_) => decoded_equal(alloc, self.values(), codes),
            _ => decoded_plain(alloc, self.values(), codes),
        }
    }
}

// The values of a plain array at codes.
fn decoded_plain(alloc: Global, values: &Array, codes: &Array) -> Result<Array, AllocError>
    requires plain { IsTrue (is_plain values.now) }
    requires codes { NamesRows (column_of codes.now) (length (column_of values.now).rows) }
    ensures column { IfOk result (λ a. column_of a ≡ decoded (column_of codes.now) (column_of values.now)) }
    ensures plain { IfOk result (λ a. IsTrue (is_plain a)) }
{
    let rows = values.take(alloc, codes)?;
    Ok(rows)
}

// Equal values at codes.
fn decoded_equal(alloc: Global, values: &Array, codes: &Array) -> Result<Array, AllocError>
    requires { NamesRows (column_of codes.now) (length (column_of values.now).rows) }
    ensures column { IfOk result (λ a. column_of a ≡ decoded (column_of codes.now) (column_of values.now)) }
    ensures plain { IfOk result (λ a. IsTrue (is_plain a)) }
{
    let rows = values.take(alloc, codes)?;
    let plain = plain_form(alloc, rows)?;
    Ok(plain)
}
