//! Patterns over many texts, under a C name, so that `bench/patterns` can time them beside stock Rust.
#![tactic(auto)]

use vortex_array_predicates::LentPattern;

// Whether the text between two places matches. It does not where they are no places between characters.
#[inline(always)]
fn matches_between(texts: &str, start: usize, end: usize, pattern: &LentPattern<'_>) -> bool {
    match texts.get(start..end) {
        Some(text) => pattern.matches(text),
        None => false,
    }
}

// How many of the texts match. One ends where the next begins.
fn count_matches(texts: &str, ends: &[usize], pattern: &str) -> usize {
    let pattern = LentPattern::new(pattern);
    let mut count = 0usize;
    let mut start = 0;
    for end in ends {
        let matched = matches_between(texts, start, *end, &pattern);
        count = count.saturating_add(matched as usize);
        start = *end;
    }
    count
}

/// How many of the texts match the pattern. The texts stand one after another in the bytes.
#[unsafe(no_mangle)]
pub extern "C" fn bench_patterns(bytes: &[u8], ends: &[usize], pattern: &[u8]) -> usize {
    match (std::str::from_utf8(bytes), std::str::from_utf8(pattern)) {
        (Ok(texts), Ok(pattern)) => count_matches(texts, ends, pattern),
        _ => 0,
    }
}
