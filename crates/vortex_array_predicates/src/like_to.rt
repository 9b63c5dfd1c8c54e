// A pattern.
ghost use Rattle.std.specs.Prelude.{◌≡◌};

use crate::like::LikePattern;
use crate::predicate::Predicate;
use std::marker::Model;
use vortex_array_types::ValueRef;

/// The test whether a text matches a pattern. A value that is no text never does.
pub struct LikeTo {
    pattern: LikePattern,
    asked: u64,
}

impl Drop for LikeTo {
    fn drop(self) {
        let LikeTo {
            pattern: _pattern,
            asked: _asked,
        } = self;
    }
}

impl Model for LikeTo {
    ghost use Rattle.vortex_array_predicates.specs.Predicates.{Likeness};

    ghost Value = { Likeness };

    ghost view = { λ p. record { pattern = p.pattern; asked = p.asked } };
}

impl LikeTo {
    /// The test whether a text matches this pattern. It was not asked yet.
    pub fn new(pattern: LikePattern) -> LikeTo
        ensures { result ≡ record { pattern = pattern; asked = 0 } }
    {
        LikeTo { pattern, asked: 0 }
    }
}

impl Predicate for LikeTo {
    ghost use Rattle.vortex_array_predicates.specs.Predicates.{matches_text};

    ghost truth = { λ p. matches_text p.pattern };

    ghost asked = { λ p. p.asked };

    fn test(&mut self, value: ValueRef<'_>) -> bool {
        self.asked = self.asked.saturating_add(1);
        match value {
            ValueRef::Utf8(text) => self.pattern.matches(text),
            _ => false,
        }
    }
}
