// The text of batches.
ghost use Rattle.std.specs.Prelude.{All, IfOk};
ghost use Rattle.vortex_query.specs.Shown.{IsOneU64Batch};

use std::alloc::{AllocError, Global};
use std::test::Fail;
use vortex_array::{
    Array, ColumnDesc, DType, Name, Nullability, PType, PrimitiveArray, PrimitiveBuffer,
    RecordBatch, Validity,
};
use vortex_buffer::Buffer;
use vortex_query::rows_text;
use vortex_scan_types::{Batch, Place, Projection, RootId, WorkScope};

// A batch of one column of these numbers.
fn batch(alloc: Global, numbers: &[u64]) -> Result<Batch, Fail>
    ensures { IfOk result IsOneU64Batch }
{
    let values = PrimitiveBuffer::U64(Buffer::from_slice(alloc, numbers)?);
    let Ok(array) = PrimitiveArray::try_new(values, Validity::NonNullable) else {
        return Err(AllocError.into());
    };
    let mut columns = Vec::new(alloc);
    columns.push(Array::Primitive(array))?;
    let Ok(array) = RecordBatch::try_new(numbers.len(), columns) else {
        return Err(AllocError.into());
    };
    Ok(Batch {
        root: RootId(0),
        scope: WorkScope {
            file_ordinal: 0,
            rows: 0..8,
        },
        place: Place::from_vec(Vec::new(alloc)),
        array,
    })
}

// Whether the batches are written so under the name `a`.
fn are_written(alloc: Global, batches: &[Batch], want: &[u8]) -> Result<bool, Fail>
    requires { All IsOneU64Batch batches.now }
{
    let columns = [ColumnDesc {
        name: Name::from_str(alloc, "a")?,
        dtype: DType::Primitive(PType::U64, Nullability::NonNullable),
    }];
    let text = rows_text(alloc, &columns, &Projection::All, batches)?;
    Ok(text.as_slice() == want)
}

fn two_are_written(alloc: Global) -> Result<bool, Fail> {
    let batches = [batch(alloc, &[2, 10])?, batch(alloc, &[3])?];
    are_written(alloc, &batches, b"a:u64\n2\n10\n3\n")
}

#[test]
fn batches_are_written_one_after_another(rt: HostRuntime) -> Result<(), Fail> {
    assert!(rt; two_are_written(rt.alloc())?);
    assert!(rt; are_written(rt.alloc(), &[], b"a:u64\n")?, "no batch");
    Ok(())
}
