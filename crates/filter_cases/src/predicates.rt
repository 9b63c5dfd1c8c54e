// Patterns, and tests of single values.
ghost use Rattle.std.specs.Prelude.{◌≡◌, ◌≢◌, None, IfOk};

use crate::fault::Fault;
use crate::telling::push_truth;
use crate::types::{scalar_of, value_of};
use crate::words::{brackets_of, first_word, operator_of, text_of};
use std::alloc::Global;
use vortex_array::{BetweenTo, CompareTo, LikePattern, LikeTo, Predicate, Scalar};

/// The answer of a case of patterns or tests, at the end of `out`.
pub fn answer(alloc: Global, family: &str, words: &str, out: &mut String) -> Result<(), Fault> {
    let (first, rest) = first_word(words);
    match family {
        "like" => push_match(alloc, out, first, rest),
        "like_to" => push_like(alloc, out, first, rest),
        "compare_to" => push_comparison(alloc, out, first, rest),
        "between_to" => push_between(alloc, out, first, rest),
        _ => Err(Fault::NoCase),
    }
}

fn pattern_of(alloc: Global, word: &str) -> Result<LikePattern, Fault> {
    let text = text_of(alloc, word)?;
    Ok(LikePattern::new(alloc, text.as_str())?)
}

fn push_match(alloc: Global, out: &mut String, pattern: &str, word: &str) -> Result<(), Fault> {
    let pattern = pattern_of(alloc, pattern)?;
    push_truth(out, is_matched(alloc, &pattern, word)?)?;
    Ok(())
}

fn is_matched(alloc: Global, pattern: &LikePattern, word: &str) -> Result<bool, Fault> {
    let text = text_of(alloc, word)?;
    Ok(pattern.matches(text.as_str()))
}

// What a test answers of each value in turn.
fn push_tests<Q: Predicate>(
    alloc: Global,
    out: &mut String,
    test: &mut Q,
    words: &str,
) -> Result<(), Fault> {
    let mut is_first = true;
    for word in words.split(' ') {
        push_test(alloc, out, test, is_first, word)?;
        is_first = false;
    }
    Ok(())
}

fn push_test<Q: Predicate>(
    alloc: Global,
    out: &mut String,
    test: &mut Q,
    is_first: bool,
    word: &str,
) -> Result<(), Fault> {
    if !is_first {
        out.push_str(" ")?;
    }
    let truth = is_met(alloc, test, word)?;
    Ok(push_truth(out, truth)?)
}

fn is_met<Q: Predicate>(alloc: Global, test: &mut Q, word: &str) -> Result<bool, Fault> {
    let value = value_of(alloc, word)?;
    Ok(test.test(value.as_value_ref()))
}

fn push_like(alloc: Global, out: &mut String, pattern: &str, values: &str) -> Result<(), Fault> {
    let mut test = LikeTo::new(pattern_of(alloc, pattern)?);
    push_tests(alloc, out, &mut test, values)
}

// The scalar of a word, which is not null.
fn constant_of(alloc: Global, word: &str) -> Result<Scalar, Fault>
    ensures { IfOk result (λ s. s.value ≢ None) }
{
    let scalar = scalar_of(alloc, word)?;
    if scalar.is_null() {
        return Err(Fault::NoCase);
    }
    Ok(scalar)
}

fn push_comparison(
    alloc: Global,
    out: &mut String,
    operator: &str,
    rest: &str,
) -> Result<(), Fault> {
    let operator = operator_of(operator)?;
    let (constant, values) = first_word(rest);
    let mut test = CompareTo::new(operator, constant_of(alloc, constant)?);
    push_tests(alloc, out, &mut test, values)
}

fn push_between(alloc: Global, out: &mut String, brackets: &str, rest: &str) -> Result<(), Fault> {
    let (lower, rest) = first_word(rest);
    let (upper, values) = first_word(rest);
    let mut test = bounds_of(alloc, brackets, lower, upper)?;
    push_tests(alloc, out, &mut test, values)
}

fn bounds_of(alloc: Global, brackets: &str, lower: &str, upper: &str) -> Result<BetweenTo, Fault> {
    let options = brackets_of(brackets)?;
    let lower = constant_of(alloc, lower)?;
    let upper = constant_of(alloc, upper)?;
    Ok(BetweenTo::new(options, lower, upper))
}
