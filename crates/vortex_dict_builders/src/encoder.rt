// What builders of dictionaries do, whatever their rows.
ghost use Rattle.std.specs.Prelude.{◌≡◌, IfErr, IfOk, OnOk};
ghost use Rattle.vortex_array_kinds.specs.Kinds.{primitive_column};
ghost use Rattle.vortex_array.specs.ColumnOf.{column_of};
ghost use Rattle.vortex_dict_builders.specs.Encoder.{Encoder, entries_column};
ghost use Rattle.vortex_dict_builders.specs.Encodes.{Encodes, RefusesRows};
ghost use Rattle.vortex_dict_builders.specs.Firsts.{AreDistinct};

use crate::errors::EncodeError;
use std::alloc::AllocError;
use vortex_array::{Array, PrimitiveArray};

/// A builder of dictionaries. Its meaning is a list of entries, each a value or null, no two of which are one; the type of the
/// rows that it takes; its limits; and the width of its codes. It keeps its allocator.
pub trait DictEncoder {
    ghost encoder: { Self → Encoder };

    /// Codes for the first rows of a column of the builder's type: up to the first row that is no entry and that the limits or
    /// the width of the codes refuse, or for all. Each code is the place of its row's entry. Rows that were no entry are put
    /// behind the others, each where it first appears. Where memory runs out, some first rows may be entries.
    fn encode(&mut self, array: &Array) -> Result<PrimitiveArray, EncodeError>
        ensures ok { IfOk result (λ codes. Encodes (encoder self.old) (column_of array.now).rows (primitive_column codes) (encoder self.new)) }
        ensures same_type { OnOk result ((column_of array.now).dtype ≡ (encoder self.old).dtype) }
        ensures err { IfErr result (RefusesRows (encoder self.old) (column_of array.now) (encoder self.new)) };

    /// The entries in their order, as a column of the builder's type.
    fn values(&mut self) -> Result<Array, AllocError>
        ensures column { IfOk result (λ a. column_of a ≡ entries_column (encoder self.old)) }
        ensures distinct { AreDistinct (encoder self.old).entries }
        ensures kept { encoder self.new ≡ encoder self.old };
}
