// Two bounds.
ghost use Rattle.std.specs.Prelude.{◌≡◌, ◌≢◌, None};
ghost use Rattle.vortex_array_types.specs.Truth.{lower_operator, upper_operator};

use crate::predicate::Predicate;
use std::marker::Model;
use vortex_array_types::{BetweenOptions, Scalar, StrictComparison, ValueRef, compares};
use vortex_buffer::CompareOperator;

/// The test whether a value lies between two constants, each of which is left out where its option is strict. A value of
/// another kind than a constant's never does.
pub struct BetweenTo {
    options: BetweenOptions,
    lower: Scalar,
    upper: Scalar,
    asked: u64,
}

impl Drop for BetweenTo {
    fn drop(self) {
        let BetweenTo {
            options: _options,
            lower: _lower,
            upper: _upper,
            asked: _asked,
        } = self;
    }
}

impl Model for BetweenTo {
    ghost use Rattle.vortex_array_predicates.specs.Predicates.{Bounds};

    ghost Value = { Bounds };

    ghost view = { λ p. record { options = p.options; lower = p.lower; upper = p.upper; asked = p.asked } };
}

impl BetweenTo {
    /// The test whether a value lies between these bounds. It was not asked yet.
    pub fn new(options: BetweenOptions, lower: Scalar, upper: Scalar) -> BetweenTo
        requires lower { lower.value ≢ None }
        requires upper { upper.value ≢ None }
        ensures { result ≡ record { options = options; lower = lower; upper = upper; asked = 0 } }
    {
        BetweenTo {
            options,
            lower,
            upper,
            asked: 0,
        }
    }
}

impl Predicate for BetweenTo {
    ghost use Rattle.vortex_array_predicates.specs.Predicates.{lies_within};

    ghost truth = { λ p. lies_within p.options p.lower.value p.upper.value };

    ghost asked = { λ p. p.asked };

    fn test(&mut self, value: ValueRef<'_>) -> bool {
        self.asked = self.asked.saturating_add(1);
        match (self.lower.value_ref(), self.upper.value_ref()) {
            (Some(lower), Some(upper)) => {
                compares(above(self.options.lower_strict), value, lower)
                    && compares(below(self.options.upper_strict), value, upper)
            }
            _ => false,
        }
    }
}

// How a value is compared with its lower bound.
fn above(strict: StrictComparison) -> CompareOperator
    ensures { result ≡ lower_operator strict }
{
    match strict {
        StrictComparison::Strict => CompareOperator::Gt,
        StrictComparison::NonStrict => CompareOperator::Gte,
    }
}

// How a value is compared with its upper bound.
fn below(strict: StrictComparison) -> CompareOperator
    ensures { result ≡ upper_operator strict }
{
    match strict {
        StrictComparison::Strict => CompareOperator::Lt,
        StrictComparison::NonStrict => CompareOperator::Lte,
    }
}
