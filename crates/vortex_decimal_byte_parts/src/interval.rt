// Questions of a number, as the interval of the numbers of which they are true.
ghost use Rattle.std.specs.Prelude.{◌≡◌, ℤ, IsTrue, MatchOption, false, int_le};
ghost use Rattle.vortex_array_types.specs.Row.{in_signed};
ghost use Rattle.vortex_array_types.specs.Truth.{lower_operator, upper_operator};
ghost use Rattle.vortex_decimal_byte_parts.specs.Held.{IsIntervalOf, lies_in, number_between, number_compares};

use vortex_array::{BetweenOptions, CompareOperator, StrictComparison};

// The numbers from one to another, or all others. Where the least is above the greatest there is none between.
#[derive(Clone, Copy)]
pub(crate) struct Interval {
    pub least: i128,
    pub greatest: i128,
    pub outside: bool,
}

// Whether a number is one of them.
#[inline(always)]
pub(crate) fn is_in(interval: Interval, number: i128) -> bool
    ensures { result ≡ lies_in interval number }
{
    // No branch: which way a row goes is not foreseen.
    let within = (interval.least <= number) & (number <= interval.greatest);
    within != interval.outside
}

// The numbers of 128 bits of which an operator and a constant hold.
pub(crate) fn of_operator(operator: CompareOperator, number: i128) -> Interval
    ensures { IsIntervalOf (number_compares operator number) result }
{
    match operator {
        CompareOperator::Eq => numbers_from(number, number, false),
        CompareOperator::NotEq => numbers_from(number, number, true),
        CompareOperator::Gt => numbers_from(i128::MIN, number, true),
        CompareOperator::Gte => numbers_from(number, i128::MAX, false),
        CompareOperator::Lt => numbers_from(number, i128::MAX, true),
        CompareOperator::Lte => numbers_from(i128::MIN, number, false),
    }
}

// The numbers from one to another, or all others.
fn numbers_from(least: i128, greatest: i128, outside: bool) -> Interval
    ensures { result ≡ record { least = least; greatest = greatest; outside = outside } }
{
    Interval {
        least,
        greatest,
        outside,
    }
}

// The numbers of 128 bits between two bounds, each left out where it is strict.
pub(crate) fn of_bounds(options: &BetweenOptions, lower: i128, upper: i128) -> Interval
    ensures inside { result.outside ≡ false }
    ensures interval { IsIntervalOf (number_between options.now lower upper) result }
{
    let least = first_above(options.lower_strict, lower);
    let greatest = last_below(options.upper_strict, upper);
    match (least, greatest) {
        (Some(least), Some(greatest)) => numbers_from(least, greatest, false),
        _ => numbers_from(1, 0, false),
    }
}

// The first number that a lower bound lets in, or none where it lets in no number of 128 bits.
fn first_above(strict: StrictComparison, bound: i128) -> Option<i128>
    ensures { MatchOption result ((n : ℤ) → IsTrue (in_signed 128 n) → number_compares (lower_operator strict) bound n ≡ false) (λ least. (n : ℤ) → number_compares (lower_operator strict) bound n ≡ int_le least n) }
{
    match strict {
        StrictComparison::NonStrict => Some(bound),
        StrictComparison::Strict => {
            if bound == i128::MAX {
                None
            } else {
                Some(bound + 1)
            }
        }
    }
}

// The last number that an upper bound lets in, or none where it lets in no number of 128 bits.
fn last_below(strict: StrictComparison, bound: i128) -> Option<i128>
    ensures { MatchOption result ((n : ℤ) → IsTrue (in_signed 128 n) → number_compares (upper_operator strict) bound n ≡ false) (λ greatest. (n : ℤ) → number_compares (upper_operator strict) bound n ≡ int_le n greatest) }
{
    match strict {
        StrictComparison::NonStrict => Some(bound),
        StrictComparison::Strict => {
            if bound == i128::MIN {
                None
            } else {
                Some(bound - 1)
            }
        }
    }
}
