// Patterns of `like`.
//
// The elements before a pattern's first `%` have to match the front of the text. Those between one `%` and the next are
// then looked for, at each place whose character the first of them takes: where they are found first is as good as
// anywhere, since what follows is a `%`, which takes up any characters. So no earlier choice is ever changed, and the work
// is at most the product of both lengths. Behind the last `%` of a pattern no character of the text is looked at.
ghost use Rattle.std.specs.Prelude.{◌≡◌, ℕ, ◌<◌, ◌≤◌, List, Bool, false, [], ◌∷◌, ◌||◌, length, chars, IsTrue, IfOk, IfNone, IfSome};
ghost use Rattle.vortex_array_types.specs.Matches.{first_then, matches as is_match, matches_chars, some_suffix};
ghost use Rattle.vortex_array_predicates.specs.Forms.{form_tells};
ghost use Rattle.vortex_array_predicates.specs.Outcomes.{asks, left_over, passes, settled, Settles};

use crate::like_form::{PatternForm, form_of, matches_form};
use std::alloc::{AllocError, Global};
use std::marker::Model;
use vortex_array_types::Text;

/// A pattern of `like`: `%` stands for any characters or none, `_` for any one, a backslash for the character behind it,
/// or for itself at the end, and every other character for itself. Case counts. Contracts see its text.
pub struct LikePattern {
    text: Text,
    form: PatternForm,
    ghost told: { IsTrue (form_tells form text) },
}

impl Drop for LikePattern {
    fn drop(self) {
        let LikePattern {
            text: _text,
            form: _form,
        } = self;
    }
}

impl Model for LikePattern {
    ghost use Rattle.std.specs.Prelude.{ℕ, List};

    ghost Value = { List ℕ };

    ghost view = { λ p. p.text };
}

impl LikePattern {
    /// The pattern of this text. Every text is one.
    pub fn new(alloc: Global, pattern: &str) -> Result<LikePattern, AllocError>
        ensures { IfOk result (λ p. p ≡ pattern.now) }
    {
        let text = Text::from_str(alloc, pattern)?;
        Ok(LikePattern {
            text,
            form: form_of(pattern),
        })
    }

    /// Whether the whole text matches the pattern, in time at most the product of both lengths.
    pub fn matches(&self, text: &str) -> bool
        ensures { result ≡ is_match self.now text.now }
    {
        matches_form(self.form, self.text.as_str(), text)
    }
}

/// Whether the whole text matches the pattern that a text is, in time at most the product of both lengths. It takes no
/// memory.
pub fn text_matches(text: &str, pattern: &str) -> bool
    ensures { result ≡ is_match pattern.now text.now }
{
    let mut outcome = match_front(pattern, text);
    while let Outcome::Run(pattern, text) = outcome {
        outcome = match_anywhere(pattern, text);
    }
    matches!(outcome, Outcome::Whole)
}

// What the front of a pattern asks of the front of a text.
#[derive(Clone, Copy)]
enum Element {
    // Any characters or none.
    AnyRun,
    AnyOne,
    Exactly(char),
}

// How far the elements before a pattern's next `%` match a text.
#[derive(Clone, Copy)]
enum Outcome<'a> {
    // They match, and nothing more is asked.
    Whole,
    // They do not match here.
    Failed,
    // The text ends before they do, and so would each shorter one.
    Exhausted,
    // They match. Then a `%` comes: the pattern behind it, and the rest of the text.
    Run(&'a str, &'a str),
}

impl Element {
    // Whether this one character passes.
    #[inline(always)]
    fn passes(&self, c: char) -> bool
        ensures { result ≡ passes self.now c }
    {
        match self {
            Element::AnyRun => false,
            Element::AnyOne => true,
            Element::Exactly(wanted) => c == *wanted,
        }
    }
}

// The first character of a text, and the text behind it.
#[inline(always)]
pub(crate) fn split_first(text: &str) -> Option<(char, &str)>
    ensures ended { IfNone result (chars text.now ≡ []) }
    ensures first { IfSome result (λ p. chars text.now ≡ p.0 ∷ chars p.1.now) }
    ensures shorter { IfSome result (λ p. length p.1.now < length text.now) }
{
    let mut rest = text.chars();
    let first = rest.next()?;
    Some((first, rest.as_str()))
}

// The first element of a pattern, and the pattern behind it.
#[inline(always)]
fn split_element(pattern: &str) -> Option<(Element, &str)>
    ensures ended { IfNone result (chars pattern.now ≡ []) }
    ensures first { IfSome result (λ p. (t : List ℕ) → matches_chars (chars pattern.now) t ≡ asks p.0 (matches_chars (chars p.1.now)) t) }
    ensures shorter { IfSome result (λ p. length p.1.now < length pattern.now) }
{
    let (first, rest) = split_first(pattern)?;
    if first == '%' {
        return Some((Element::AnyRun, rest));
    }
    if first == '_' {
        return Some((Element::AnyOne, rest));
    }
    if first != '\\' {
        return Some((Element::Exactly(first), rest));
    }
    match split_first(rest) {
        Some((escaped, rest)) => Some((Element::Exactly(escaped), rest)),
        None => Some((Element::Exactly('\\'), rest)),
    }
}

// How far the elements before the pattern's first `%` match the front of the text.
fn match_front<'a>(pattern: &'a str, text: &'a str) -> Outcome<'a>
    ensures answer { matches_chars (chars pattern.now) (chars text.now) ≡ settled result }
    ensures later { Settles (matches_chars (chars pattern.now)) (chars text.now) result }
    ensures shorter { left_over result ≤ length pattern.now }
{
    let mut pattern = pattern;
    let mut text = text;
    while let Some((element, behind)) = split_element(pattern) {
        if let Element::AnyRun = element {
            return Outcome::Run(behind, text);
        }
        let Some((c, rest)) = split_first(text) else {
            return Outcome::Exhausted;
        };
        if !element.passes(c) {
            return Outcome::Failed;
        }
        pattern = behind;
        text = rest;
    }
    match split_first(text) {
        None => Outcome::Whole,
        Some(_) => Outcome::Failed,
    }
}

// The text behind its first character that the element takes, none where it takes none of them.
#[inline(always)]
fn behind_first(element: Element, text: &str) -> Option<&str>
    ensures none { IfNone result ((behind : List ℕ → Bool) → some_suffix (first_then (passes element) behind) (chars text.now) ≡ false) }
    ensures found { IfSome result (λ rest. (behind : List ℕ → Bool) → some_suffix (first_then (passes element) behind) (chars text.now) ≡ (behind (chars rest.now) || some_suffix (first_then (passes element) behind) (chars rest.now))) }
    ensures shorter { IfSome result (λ rest. length rest.now < length text.now) }
{
    let mut text = text;
    while let Some((c, rest)) = split_first(text) {
        if element.passes(c) {
            return Some(rest);
        }
        text = rest;
    }
    None
}

// How far an element that takes one character, and those behind it up to the pattern's next `%`, match at the first place
// of the text where they do.
#[inline(always)]
fn match_from_places<'a>(element: Element, behind: &'a str, text: &'a str) -> Outcome<'a>
    ensures answer { some_suffix (first_then (passes element) (matches_chars (chars behind.now))) (chars text.now) ≡ settled result }
    ensures shorter { left_over result ≤ length behind.now }
{
    let mut text = text;
    while let Some(rest) = behind_first(element, text) {
        let outcome = match_front(behind, rest);
        if !matches!(outcome, Outcome::Failed) {
            return outcome;
        }
        text = rest;
    }
    Outcome::Failed
}

// How far the elements before the pattern's first `%` match at the first place of the text where they do. A pattern
// without an element is met by the end of any text.
#[inline(always)]
fn match_anywhere<'a>(pattern: &'a str, text: &'a str) -> Outcome<'a>
    ensures answer { some_suffix (matches_chars (chars pattern.now)) (chars text.now) ≡ settled result }
    ensures shorter { left_over result ≤ length pattern.now }
{
    let Some((element, behind)) = split_element(pattern) else {
        return Outcome::Whole;
    };
    match element {
        Element::AnyRun => Outcome::Run(behind, text),
        Element::AnyOne | Element::Exactly(_) => match_from_places(element, behind, text),
    }
}
