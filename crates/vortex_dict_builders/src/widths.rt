// A builder of dictionaries whose codes are of any of the four widths.
ghost use Rattle.std.specs.Prelude.{◌≡◌, []};
ghost use Rattle.vortex_dict_builders.specs.Widths.{least_code, width_encoder};

use crate::builder::DictBuilder;
use crate::constraints::DictConstraints;
use crate::encoder::DictEncoder;
use crate::entries::Entries;
use crate::errors::EncodeError;
use std::alloc::{AllocError, Global};
use vortex_array::{Array, PrimitiveArray};

/// A builder over entries of one kind, whose codes are of any width.
pub enum AnyWidth<E: Entries> {
    /// Codes of the width `u8`.
    U8(DictBuilder<E, u8>),
    /// Codes of the width `u16`.
    U16(DictBuilder<E, u16>),
    /// Codes of the width `u32`.
    U32(DictBuilder<E, u32>),
    /// Codes of the width `u64`.
    U64(DictBuilder<E, u64>),
}

impl<E: Entries> Drop for AnyWidth<E> {
    fn drop(self) {
        match self {
            AnyWidth::U8(_builder) => {}
            AnyWidth::U16(_builder) => {}
            AnyWidth::U32(_builder) => {}
            AnyWidth::U64(_builder) => {}
        }
    }
}

// What the expression is for the builder, whatever the width of its codes.
macro_rules! each_code {
    ($encoder:expr, $builder:ident => $answer:expr) => {
        match $encoder {
            AnyWidth::U8($builder) => $answer,
            AnyWidth::U16($builder) => $answer,
            AnyWidth::U32($builder) => $answer,
            AnyWidth::U64($builder) => $answer,
        }
    };
}

impl<E: Entries> AnyWidth<E> {
    // A builder over entries that are none yet, with codes of the least width that holds a bound.
    pub(crate) fn over(
        alloc: Global,
        entries: E,
        limits: DictConstraints,
        bound: usize,
    ) -> AnyWidth<E>
        requires { (E.kept entries).rows ≡ [] }
        ensures { width_encoder result ≡ record { dtype = (E.kept entries).dtype; entries = []; limits = limits; width = least_code bound } }
    {
        if bound <= 255 {
            AnyWidth::U8(DictBuilder::over(alloc, entries, limits))
        } else if bound <= 65535 {
            AnyWidth::U16(DictBuilder::over(alloc, entries, limits))
        } else if bound <= 4294967295 {
            AnyWidth::U32(DictBuilder::over(alloc, entries, limits))
        } else {
            AnyWidth::U64(DictBuilder::over(alloc, entries, limits))
        }
    }
}

impl<E: Entries> DictEncoder for AnyWidth<E> {
    ghost encoder = { width_encoder };

    fn encode(&mut self, array: &Array) -> Result<PrimitiveArray, EncodeError> {
        each_code!(self, builder => builder.encode(array))
    }

    fn values(&mut self) -> Result<Array, AllocError> {
        each_code!(self, builder => builder.values())
    }
}
