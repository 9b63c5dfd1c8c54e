// What a pattern asks as a whole. The commonest patterns are decided by the lengths and a comparison of bytes: those whose
// characters all stand for themselves, and those of one `%` before or behind such characters.
ghost use Rattle.std.specs.Prelude.{◌≡◌, ◌==◌, IsTrue, chars, length, nat_eq, slice_index, take};
ghost use Rattle.std.specs.Cmp.Lexicographic.{pointwise};
ghost use Rattle.vortex_array_types.specs.Matches.{matches as is_match, some_suffix};
ghost use Rattle.vortex_array_predicates.specs.Forms.{form_tells, plain};

use crate::like::{split_first, text_matches};
use std::marker::Model;

// What is known of a pattern from its characters.
#[derive(Clone, Copy)]
pub(crate) enum PatternForm {
    // Each character stands for itself, so the text is the pattern.
    Plain,
    // A `%`, and behind it each character stands for itself, so the text ends with these.
    PlainEnd,
    // Each character stands for itself but the last, which is a `%`, so the text begins with these.
    PlainFront,
    // Any other pattern.
    Other,
}

/// A pattern that is lent, looked at once so that many texts can be matched with it. Contracts see its text.
#[derive(Drop)]
pub struct LentPattern<'a> {
    pattern: &'a str,
    form: PatternForm,
    ghost told: { IsTrue (form_tells form pattern.now) },
}

impl<'a> Model for LentPattern<'a> {
    ghost use Rattle.std.specs.Prelude.{ℕ, List};

    ghost Value = { List ℕ };

    ghost view = { λ p. p.pattern.now };
}

impl<'a> LentPattern<'a> {
    /// The pattern of this text. Every text is one.
    pub fn new(pattern: &'a str) -> LentPattern<'a>
        ensures { result ≡ pattern.now }
    {
        LentPattern {
            pattern,
            form: form_of(pattern),
        }
    }

    /// Whether the whole text matches the pattern, in time at most the product of both lengths.
    #[inline]
    pub fn matches(&self, text: &str) -> bool
        ensures { result ≡ is_match self.now text.now }
    {
        matches_form(self.form, self.pattern, text)
    }
}

// Whether each character of a pattern stands for itself.
fn is_plain(pattern: &str) -> bool
    ensures { result ≡ plain (chars pattern.now) }
{
    let mut text = pattern;
    while let Some((c, rest)) = split_first(text) {
        if c == '%' || c == '_' || c == '\\' {
            return false;
        }
        text = rest;
    }
    true
}

// Whether a `%` stands at a place of a pattern's bytes.
fn has_run(pattern: &str, i: usize) -> bool
    ensures { result ≡ (slice_index pattern.now i == 37) }
{
    i < pattern.len() && pattern.as_bytes()[i] == b'%'
}

// The form of a pattern.
pub(crate) fn form_of(pattern: &str) -> PatternForm
    ensures { IsTrue (form_tells result pattern.now) }
{
    let last = pattern.len().saturating_sub(1);
    if is_plain(pattern) {
        PatternForm::Plain
    } else if has_run(pattern, 0) && is_plain(&pattern[1..]) {
        PatternForm::PlainEnd
    } else if has_run(pattern, last) && is_plain(&pattern[..last]) {
        PatternForm::PlainFront
    } else {
        PatternForm::Other
    }
}

// Whether a text ends with another. Their lengths say where that would begin.
#[inline]
fn ends_with(text: &str, end: &str) -> bool
    ensures { result ≡ some_suffix (λ t. pointwise nat_eq t (chars end.now)) (chars text.now) }
{
    if text.len() < end.len() {
        return false;
    }
    &text.as_bytes()[text.len() - end.len()..] == end.as_bytes()
}

// Whether a text begins with another.
#[inline]
fn starts_with(text: &str, front: &str) -> bool
    ensures { result ≡ pointwise nat_eq (take (length front.now) text.now) front.now }
{
    if text.len() < front.len() {
        return false;
    }
    &text.as_bytes()[..front.len()] == front.as_bytes()
}

// Whether the whole text matches a pattern of this form.
#[inline]
pub(crate) fn matches_form(form: PatternForm, pattern: &str, text: &str) -> bool
    requires { IsTrue (form_tells form pattern.now) }
    ensures { result ≡ is_match pattern.now text.now }
{
    match form {
        PatternForm::Plain => text == pattern,
        PatternForm::PlainEnd => ends_with(text, &pattern[1..]),
        PatternForm::PlainFront => starts_with(text, &pattern[..pattern.len() - 1]),
        PatternForm::Other => text_matches(text, pattern),
    }
}
