// What is asked of a value.
ghost use Rattle.std.specs.Prelude.{◌≡◌, ℕ, Bool};
ghost use Rattle.vortex_array_predicates.specs.Asked.{one_more};
ghost use Rattle.vortex_array_types.specs.Seen.{value_seen};

use vortex_array_types::ValueRef;

/// A test of values. It has one truth for each value, whatever was asked before, and counts its questions.
pub trait Predicate: Drop {
    ghost use Rattle.vortex_array_types.specs.declared.scalar.Value.{Value};

    // What it answers of a value.
    ghost truth: { Self → Value → Bool };

    // How often it was asked. The count stands still at 2 ^ 64 - 1.
    ghost asked: { Self → ℕ };

    /// Whether the test holds of the value. The question is counted.
    fn test(&mut self, value: ValueRef<'_>) -> bool
        ensures answer { result ≡ truth self.old (value_seen value.entry) }
        ensures truths { truth self.new ≡ truth self.old }
        ensures count { asked self.new ≡ one_more (asked self.old) };
}
