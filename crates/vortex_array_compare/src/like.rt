// Columns of texts matched with patterns, which are lent: no text is copied, and no row takes memory.
ghost use Rattle.std.specs.Prelude.{◌≡◌, ◌<◌, [], All, IfOk, IsTrue, length, map, slice_index_or};
ghost use Rattle.std.specs.Simd.Lanes.{zip2};
ghost use Rattle.std.specs.Str.{is_utf8};
ghost use Rattle.vortex_array_types.specs.Matches.{matches};
ghost use Rattle.vortex_array_types.specs.declared.scalar.Value.TheVariants as value;
ghost use Rattle.vortex_array_types.specs.declared.types.DType.TheVariants as dtype;
ghost use Rattle.vortex_array_kinds.specs.Kinds.{bool_column, string_column};
ghost use Rattle.vortex_array_kinds.specs.StringValues.{is_text_type};
ghost use Rattle.vortex_array_kinds.specs.Truths.{liked};
ghost use Rattle.vortex_array_compare.specs.Repeated.{repeated};

use crate::answers::{pair_answers, value_answers};
use crate::orders::truth_bits;
use std::alloc::{AllocError, Global};
use vortex_array_kinds::{BoolArray, VarBinViewArray};
use vortex_array_lists::ByteLists;
use vortex_array_predicates::{LentPattern, text_matches};
use vortex_array_types::Nullability;
use vortex_compute::IndexedSource;

// The text at a place. Its bytes are not tested again to be UTF-8.
#[inline(always)]
fn text_at(texts: &ByteLists, i: usize) -> &str
    requires inside { i < length texts.now }
    requires texts { All (λ bytes. IsTrue (is_utf8 bytes)) texts.now }
    ensures { result.now ≡ slice_index_or texts.now i [] }
{
    unsafe { std::str::from_utf8_unchecked(texts.get(i)) }
}

// Texts and patterns, as many of both: whether the text at each place matches the pattern there.
#[derive(Clone, Copy)]
struct TextPairs<'a> {
    texts: &'a ByteLists,
    patterns: &'a ByteLists,
    ghost same_length: { length texts.now ≡ length patterns.now },
    ghost texts_are: { All (λ bytes. IsTrue (is_utf8 bytes)) texts.now },
    ghost patterns_are: { All (λ bytes. IsTrue (is_utf8 bytes)) patterns.now },
}

impl IndexedSource for TextPairs<'_> {
    type Item = bool;

    ghost lanes = { λ s. zip2 (λ text pattern. matches pattern text) s.texts.now s.patterns.now };

    #[inline(always)]
    fn len(&self) -> usize {
        self.texts.len()
    }

    #[inline(always)]
    fn get(&self, i: usize) -> bool {
        text_matches(text_at(self.texts, i), text_at(self.patterns, i))
    }
}

// Texts and one pattern, which is looked at once: whether each of them matches it.
#[derive(Clone, Copy)]
struct TextsBeside<'a> {
    texts: &'a ByteLists,
    pattern: &'a LentPattern<'a>,
    ghost texts_are: { All (λ bytes. IsTrue (is_utf8 bytes)) texts.now },
}

impl IndexedSource for TextsBeside<'_> {
    type Item = bool;

    ghost lanes = { λ s. map (λ text. matches s.pattern.now text) s.texts.now };

    #[inline(always)]
    fn len(&self) -> usize {
        self.texts.len()
    }

    #[inline(always)]
    fn get(&self, i: usize) -> bool {
        self.pattern.matches(text_at(self.texts, i))
    }
}

// Patterns and one text: whether it matches each of them.
#[derive(Clone, Copy)]
struct PatternsBeside<'a> {
    patterns: &'a ByteLists,
    text: &'a str,
    ghost patterns_are: { All (λ bytes. IsTrue (is_utf8 bytes)) patterns.now },
}

impl IndexedSource for PatternsBeside<'_> {
    type Item = bool;

    ghost lanes = { λ s. map (λ pattern. matches pattern s.text.now) s.patterns.now };

    #[inline(always)]
    fn len(&self) -> usize {
        self.patterns.len()
    }

    #[inline(always)]
    fn get(&self, i: usize) -> bool {
        text_matches(self.text, text_at(self.patterns, i))
    }
}

/// Row by row whether the text matches the pattern, of two columns of texts of one length, null where a row is null.
pub fn like_patterns(
    alloc: Global,
    texts: &VarBinViewArray,
    patterns: &VarBinViewArray,
) -> Result<BoolArray, AllocError>
    requires same_length { length (string_column texts.now).rows ≡ length (string_column patterns.now).rows }
    requires texts { IsTrue (is_text_type (string_column texts.now).dtype) }
    requires patterns { IsTrue (is_text_type (string_column patterns.now).dtype) }
    ensures { IfOk result (λ a. bool_column a ≡ liked (string_column texts.now) (string_column patterns.now)) }
{
    let pairs = TextPairs {
        texts: texts.strings().lists(),
        patterns: patterns.strings().lists(),
    };
    let bits = truth_bits(alloc, &pairs)?;
    let answers = pair_answers(alloc, bits, texts, patterns)?;
    Ok(answers)
}

/// Row by row whether the text matches one pattern, null where the row is null. The type has nulls where the column's or
/// the pattern's has.
pub fn like_pattern(
    alloc: Global,
    texts: &VarBinViewArray,
    pattern: &str,
    nullability: Nullability,
) -> Result<BoolArray, AllocError>
    requires texts { IsTrue (is_text_type (string_column texts.now).dtype) }
    ensures { IfOk result (λ a. bool_column a ≡ liked (string_column texts.now) (repeated (dtype.Utf8 nullability) (value.Utf8 pattern.now) (length (string_column texts.now).rows))) }
{
    let pattern = LentPattern::new(pattern);
    let beside = TextsBeside {
        texts: texts.strings().lists(),
        pattern: &pattern,
    };
    let bits = truth_bits(alloc, &beside)?;
    let answers = value_answers(alloc, bits, texts, nullability)?;
    Ok(answers)
}

/// Row by row whether one text matches the pattern, null where the row is null. The type has nulls where the column's or
/// the text's has.
pub fn text_like_patterns(
    alloc: Global,
    text: &str,
    nullability: Nullability,
    patterns: &VarBinViewArray,
) -> Result<BoolArray, AllocError>
    requires patterns { IsTrue (is_text_type (string_column patterns.now).dtype) }
    ensures { IfOk result (λ a. bool_column a ≡ liked (repeated (dtype.Utf8 nullability) (value.Utf8 text.now) (length (string_column patterns.now).rows)) (string_column patterns.now)) }
{
    let beside = PatternsBeside {
        patterns: patterns.strings().lists(),
        text,
    };
    let bits = truth_bits(alloc, &beside)?;
    let answers = value_answers(alloc, bits, patterns, nullability)?;
    Ok(answers)
}
