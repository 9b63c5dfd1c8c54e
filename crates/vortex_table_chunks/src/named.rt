// The chunk that a name stands for.
ghost use Rattle.std.specs.Prelude.{◌≡◌, Some, is_some, option_copied, true};
ghost use Rattle.vortex_table_chunks.specs.Rows.{IsThere, chunk_of};

use crate::chunk::Chunk;
use vortex_array::ColumnDesc;

/// The chunk of the column with this name.
pub(crate) fn chunk_named<'a>(
    columns: &[ColumnDesc],
    chunks: &'a [Option<Chunk>],
    name: &str,
) -> &'a Chunk
    requires { IsThere columns.now chunks.now name.now }
    ensures { chunk_of columns.now chunks.now name.now ≡ Some result.now }
{
    match find_chunk(columns, chunks, name) {
        Some(chunk) => chunk,
        None => unreachable!(),
    }
}

// The same, or none where it is not there.
fn find_chunk<'a>(
    columns: &[ColumnDesc],
    chunks: &'a [Option<Chunk>],
    name: &str,
) -> Option<&'a Chunk>
    ensures { option_copied result ≡ chunk_of columns.now chunks.now name.now }
{
    let [column, columns @ ..] = columns else {
        return None;
    };
    let [chunk, chunks @ ..] = chunks else {
        return None;
    };
    if column.name.as_str() == name {
        return chunk.as_ref();
    }
    find_chunk(columns, chunks, name)
}
