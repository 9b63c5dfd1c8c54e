// Chunks: one column's part of a split, in the form in which a source keeps it.
ghost use Rattle.std.specs.Prelude.{◌≡◌, ◌==◌, length};
ghost use Rattle.vortex_table.specs.ChunkOf.{chunk_column};

use std::alloc::{AllocError, Global};
use vortex_array::{Array, DType};
use vortex_io::Payload;

/// One column's part of a split, as a source keeps it. It stands for a column.
pub enum Chunk {
    /// The column as it is.
    Plain(Array),
}

impl Drop for Chunk {
    fn drop(self) {
        match self {
            Chunk::Plain(_part) => {}
        }
    }
}

impl Chunk {
    /// How many rows there are.
    pub fn len(&self) -> usize
        ensures { result ≡ length (chunk_column self.now).rows }
    {
        match self {
            Chunk::Plain(array) => array.len(),
        }
    }

    /// Whether there is no row.
    pub fn is_empty(&self) -> bool
        ensures { result ≡ (length (chunk_column self.now).rows == 0) }
    {
        self.len() == 0
    }

    /// The type.
    pub fn dtype(&self) -> DType
        ensures { result ≡ (chunk_column self.now).dtype }
    {
        match self {
            Chunk::Plain(array) => array.dtype(),
        }
    }
}

impl Payload for Chunk {
    ghost use Rattle.vortex_array_types.specs.Row.{Column};
    ghost use Rattle.vortex_table.specs.ChunkOf.{chunk_column};

    ghost Meaning = { Column };

    ghost means = { chunk_column };

    fn copy(&self, alloc: Global) -> Result<Chunk, AllocError> {
        match self {
            Chunk::Plain(array) => Ok(Chunk::Plain(array.try_clone(alloc)?)),
        }
    }
}
