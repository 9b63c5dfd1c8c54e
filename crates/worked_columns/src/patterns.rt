// Long patterns over long texts.
use std::alloc::{AllocError, Global};
use std::test::Fail;
use vortex_array::LikePattern;

// The text again and again.
fn repeated(alloc: Global, text: &str, times: usize) -> Result<String, AllocError> {
    let mut whole = String::new(alloc);
    for _i in 0..times {
        whole.push_str(text)?;
    }
    Ok(whole)
}

fn is_matched(alloc: Global, pattern: &LikePattern, text: &str) -> Result<bool, AllocError> {
    let text = repeated(alloc, text, 10000)?;
    Ok(pattern.matches(text.as_str()))
}

// Whether the text, ten thousand times, matches the pattern's parts, the first of them so many times.
fn matches_long(
    alloc: Global,
    part: &str,
    times: usize,
    last: &str,
    text: &str,
) -> Result<bool, AllocError> {
    let mut whole = repeated(alloc, part, times)?;
    whole.push_str(last)?;
    let pattern = LikePattern::new(alloc, whole.as_str())?;
    is_matched(alloc, &pattern, text)
}

#[test]
fn answers_of_long_patterns_over_long_texts(rt: HostRuntime) -> Result<(), Fail> {
    let alloc = rt.alloc();
    for (part, times, last, text, want) in [
        ("%a", 50, "", "a", true),
        ("%a", 50, "", "b", false),
        ("%", 50, "", "b", true),
        ("%a", 50, "%b", "a", false),
        ("_", 9999, "", "a", false),
        ("_", 9999, "_", "é", true),
        ("%aab", 400, "%", "aab", true),
    ] {
        assert!(rt;
            matches_long(alloc, part, times, last, text)? == want,
            "{part} {times} times and {last} over {text}"
        );
    }
    Ok(())
}
