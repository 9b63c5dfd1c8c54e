// What sources deliver.
ghost use Rattle.std.specs.Prelude.{◌≡◌, IfOk};

use std::alloc::{AllocError, Global};

/// A chunk that a source delivers. It stands for a value, its meaning, in whatever form it has.
pub trait Payload: Drop + Sized {
    // The type of what payloads stand for.
    ghost Meaning: { Type 0 };

    // What a payload stands for.
    ghost means: { Self → Meaning };

    /// A payload that stands for the same.
    fn copy(&self, alloc: Global) -> Result<Self, AllocError>
        ensures { IfOk result (λ copied. means copied ≡ means self.now) };
}
