// Decimals in parts as metadata and children.
ghost use Rattle.std.specs.Prelude.{◌≡◌, ◌≢◌, ◌∷◌, [], IfErr, IfOk, IsFalse, IsTrue, map};
ghost use Rattle.vortex_decimal_byte_parts.specs.Serialized.{IsDeserialized, IsSerialized, RefusesSerialized, v1_id, v2_id};

use crate::errors::SerdeError;
use crate::parts::DecimalByteParts;
use crate::reading::{deserialize_v1, deserialize_v2};
use crate::writing::{children_of, id_of, metadata_of};
use std::alloc::{AllocError, Global};
use vortex_array::{Array, DType, Text};
use vortex_buffer::Buffer;

/// The id of the first message, of a most significant part alone.
pub fn decimal_byte_parts_v1_id() -> &'static str
    ensures { result.now ≡ v1_id }
{
    "vortex.decimal_byte_parts"
}

/// The id of the second message, of parts with a lower one or none.
pub fn decimal_byte_parts_v2_id() -> &'static str
    ensures { result.now ≡ v2_id }
{
    "vortex.decimal_byte_parts.v2"
}

/// Writes decimals in parts as metadata and children, and reads them.
#[derive(Clone, Copy)]
pub struct DecimalBytePartsPlugin;

/// Decimals in parts as they are written: under which id, the bytes of the metadata, and the parts themselves.
pub struct ArraySerialization {
    pub id: Text,
    pub metadata: Buffer<u8>,
    pub children: Vec<Array>,
}

impl Drop for ArraySerialization {
    fn drop(self) {
        let ArraySerialization {
            id: _id,
            metadata: _metadata,
            children: _children,
        } = self;
    }
}

impl ArraySerialization {
    /// The id, the metadata and the children themselves.
    pub fn into_parts(self) -> (Text, Buffer<u8>, Vec<Array>)
        ensures id { result.0 ≡ self.id }
        ensures metadata { result.1 ≡ self.metadata }
        ensures children { result.2 ≡ self.children }
    {
        let ArraySerialization {
            id,
            metadata,
            children,
        } = self;
        (id, metadata, children)
    }
}

impl DecimalBytePartsPlugin {
    /// The id of the second message.
    pub fn id(&self) -> &'static str
        ensures { result.now ≡ v2_id }
    {
        decimal_byte_parts_v2_id()
    }

    /// The ids of both messages, the first one first.
    pub fn serialized_ids(&self) -> [&'static str; 2]
        ensures { map (λ id. id.now) result ≡ v1_id ∷ v2_id ∷ [] }
    {
        [decimal_byte_parts_v1_id(), decimal_byte_parts_v2_id()]
    }

    /// The metadata of parts, under the first id exactly where there is no lower part, and copies of the parts.
    pub fn serialize(
        &self,
        alloc: Global,
        array: &DecimalByteParts,
    ) -> Result<ArraySerialization, AllocError>
        ensures { IfOk result (λ s. IsSerialized array.now s.id s.metadata s.children.items) }
    {
        let id = Text::from_str(alloc, id_of(array))?;
        let metadata = metadata_of(alloc, array)?;
        let children = children_of(alloc, array)?;
        Ok(ArraySerialization {
            id,
            metadata,
            children,
        })
    }

    /// The parts that these children are by the metadata under an id, as decimals of a type. A child without nulls is relabelled
    /// where its part has them, and nothing else changes.
    ///
    /// The first refusal that holds is answered: `UnknownId`; `BadMetadata` where the bytes spell no message; `NotDecimal`;
    /// `LowerCount`; `ChildCount`; `BadType` where the number of the most significant part's width is not one with sign, or that of
    /// the lower one not one without; `ChildMismatch` where a child does not stand for its type, or has not as many rows as are
    /// stated. Want of memory comes only where the bytes spell a message.
    pub fn deserialize(
        &self,
        alloc: Global,
        id: &str,
        dtype: &DType,
        len: usize,
        metadata: &[u8],
        children: Vec<Array>,
    ) -> Result<DecimalByteParts, SerdeError>
        ensures ok { IfOk result (IsDeserialized id.now dtype.now len metadata.now children.items) }
        ensures err { IfErr result (RefusesSerialized id.now dtype.now len metadata.now children.items) }
    {
        if is_same(id, decimal_byte_parts_v1_id()) {
            return deserialize_v1(dtype, len, metadata, children);
        }
        if is_same(id, decimal_byte_parts_v2_id()) {
            return deserialize_v2(alloc, dtype, len, metadata, children);
        }
        Err(SerdeError::UnknownId)
    }
}

// Whether an id is a known one.
fn is_same(id: &str, known: &str) -> bool
    ensures same { IsTrue result → id.now ≡ known.now }
    ensures other { IsFalse result → id.now ≢ known.now }
{
    id == known
}
