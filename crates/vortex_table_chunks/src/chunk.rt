// Chunks: one column's part of a split, in the form in which a source keeps it.
ghost use Rattle.std.specs.Prelude.{◌≡◌, ◌==◌, IfOk, IsTrue, length};
ghost use Rattle.vortex_buffer.specs.Mask.{mask_bits};
ghost use Rattle.vortex_array_select.specs.Selected.{filtered};
ghost use Rattle.vortex_array.specs.ColumnOf.{column_of, is_plain};
ghost use Rattle.vortex_table_chunks.specs.ChunkOf.{chunk_column};

use crate::forms::{assembled, plain_form};
use std::alloc::{AllocError, Global};
use vortex_array::{Array, DType};
use vortex_buffer::Mask;
use vortex_decimal_byte_parts::DecimalByteParts;
use vortex_dict::DictArray;
use vortex_io::Payload;

/// One column's part of a split, as a source keeps it. It stands for a column.
pub enum Chunk {
    /// The column as it is.
    Plain(Array),
    /// Codes and the values that they name.
    Dict(DictArray),
    /// Decimals in parts.
    Parts(DecimalByteParts),
}

impl Drop for Chunk {
    fn drop(self) {
        match self {
            Chunk::Plain(_part) => {}
            Chunk::Dict(_part) => {}
            Chunk::Parts(_part) => {}
        }
    }
}

impl Chunk {
    /// How many rows there are.
    pub fn len(&self) -> usize
        ensures { result ≡ length (chunk_column self.now).rows }
    {
        match self {
            Chunk::Plain(array) => array.len(),
            Chunk::Dict(dict) => dict.len(),
            Chunk::Parts(parts) => parts.len(),
        }
    }

    /// Whether there is no row.
    pub fn is_empty(&self) -> bool
        ensures { result ≡ (length (chunk_column self.now).rows == 0) }
    {
        self.len() == 0
    }

    /// The type.
    pub fn dtype(&self) -> DType
        ensures { result ≡ (chunk_column self.now).dtype }
    {
        match self {
            Chunk::Plain(array) => array.dtype(),
            Chunk::Dict(dict) => dict.dtype(),
            Chunk::Parts(parts) => parts.dtype(),
        }
    }

    /// A plain array of the same type and rows.
    pub fn decode(&self, alloc: Global) -> Result<Array, AllocError>
        ensures column { IfOk result (λ a. column_of a ≡ chunk_column self.now) }
        ensures plain { IfOk result (λ a. IsTrue (is_plain a)) }
    {
        match self {
            Chunk::Plain(array) => {
                let copy = array.try_clone(alloc)?;
                plain_form(alloc, copy)
            }
            Chunk::Dict(dict) => dict.canonicalize(alloc),
            Chunk::Parts(parts) => assembled(alloc, parts),
        }
    }

    /// The rows that the mask keeps, in their order, as a plain array. No other row is decoded.
    pub fn kept_rows(&self, alloc: Global, mask: &Mask) -> Result<Array, AllocError>
        requires { length (mask_bits mask.now) ≡ length (chunk_column self.now).rows }
        ensures column { IfOk result (λ a. column_of a ≡ filtered (mask_bits mask.now) (chunk_column self.now)) }
        ensures plain { IfOk result (λ a. IsTrue (is_plain a)) }
    {
        match self {
            Chunk::Plain(array) => {
                let kept = array.filter(alloc, mask)?;
                plain_form(alloc, kept)
            }
            Chunk::Dict(dict) => {
                let kept = dict.filter(alloc, mask)?;
                kept.canonicalize(alloc)
            }
            Chunk::Parts(parts) => {
                let kept = parts.filter(alloc, mask)?;
                assembled(alloc, &kept)
            }
        }
    }

    /// A second chunk that is equal.
    pub fn try_clone(&self, alloc: Global) -> Result<Chunk, AllocError>
        ensures { IfOk result (λ chunk. chunk ≡ self.now) }
    {
        match self {
            Chunk::Plain(array) => Ok(Chunk::Plain(array.try_clone(alloc)?)),
            Chunk::Dict(dict) => Ok(Chunk::Dict(dict.try_clone(alloc)?)),
            Chunk::Parts(parts) => Ok(Chunk::Parts(parts.try_clone(alloc)?)),
        }
    }
}

impl Payload for Chunk {
    ghost use Rattle.vortex_array_types.specs.Row.{Column};
    ghost use Rattle.vortex_table_chunks.specs.ChunkOf.{chunk_column};

    ghost Meaning = { Column };

    ghost means = { chunk_column };

    fn copy(&self, alloc: Global) -> Result<Chunk, AllocError> {
        self.try_clone(alloc)
    }
}
