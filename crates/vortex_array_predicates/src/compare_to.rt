// Comparisons with a constant.
ghost use Rattle.std.specs.Prelude.{◌≡◌, ◌≢◌, None};

use crate::predicate::Predicate;
use std::marker::Model;
use vortex_array_types::{Scalar, ValueRef, compares};
use vortex_buffer::CompareOperator;

/// The test whether a value stands so to a constant. A value of another kind than the constant's never does.
pub struct CompareTo {
    operator: CompareOperator,
    constant: Scalar,
    asked: u64,
}

impl Drop for CompareTo {
    fn drop(self) {
        let CompareTo {
            operator: _operator,
            constant: _constant,
            asked: _asked,
        } = self;
    }
}

impl Model for CompareTo {
    ghost use Rattle.vortex_array_predicates.specs.Predicates.{Comparison};

    ghost Value = { Comparison };

    ghost view = { λ p. record { operator = p.operator; constant = p.constant; asked = p.asked } };
}

impl CompareTo {
    /// The test whether `value operator constant` holds. It was not asked yet.
    pub fn new(operator: CompareOperator, constant: Scalar) -> CompareTo
        requires { constant.value ≢ None }
        ensures { result ≡ record { operator = operator; constant = constant; asked = 0 } }
    {
        CompareTo {
            operator,
            constant,
            asked: 0,
        }
    }
}

impl Predicate for CompareTo {
    ghost use Rattle.vortex_array_predicates.specs.Predicates.{compares_to};

    ghost truth = { λ p. compares_to p.operator p.constant.value };

    ghost asked = { λ p. p.asked };

    fn test(&mut self, value: ValueRef<'_>) -> bool {
        self.asked = self.asked.saturating_add(1);
        match self.constant.value_ref() {
            Some(constant) => compares(self.operator, value, constant),
            None => false,
        }
    }
}
