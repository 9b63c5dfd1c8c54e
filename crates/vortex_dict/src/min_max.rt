// The least and the greatest row of a dictionary: those of the values that a code names.
ghost use Rattle.std.specs.Prelude.{IfOk, MatchOption};
ghost use Rattle.vortex_array_order.specs.Extremes.{AreExtremes, HasNoValue};
ghost use Rattle.vortex_dict.specs.Decoded.{dict_column};

use crate::dict::DictArray;
use crate::naming::named_values;
use std::alloc::{AllocError, Global};
use vortex_array::MinMax;

impl DictArray {
    /// The least and the greatest row that is a value, of the type without nulls, or none exactly where no row is a value. A
    /// value that no code names is not looked at.
    pub fn min_max(&self, alloc: Global) -> Result<Option<MinMax>, AllocError>
        ensures { IfOk result (λ found. MatchOption found (HasNoValue (dict_column self.now).rows) (λ m. AreExtremes (dict_column self.now) m.min m.max)) }
    {
        let values = self.values();
        let named = named_values(alloc, self.codes(), values.len())?;
        let kept = values.filter(alloc, &named)?;
        kept.min_max(alloc)
    }
}
