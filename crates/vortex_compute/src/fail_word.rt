// What a kernel collects of the failures of its lanes.
ghost use Rattle.std.specs.Prelude.{◌≡◌};

/// A word of failures: `none` where nothing failed, and `or` joins the failures of two.
pub trait FailWord: Copy {
    ghost no_failure: { Self };

    ghost either: { Self → Self → Self };

    /// The word of no failure.
    fn none() -> Self
        ensures { result ≡ no_failure };

    /// The failures of both words.
    fn or(self, other: Self) -> Self
        ensures { result ≡ either self other };
}

impl FailWord for bool {
    ghost use Rattle.std.specs.Prelude.{false, ◌||◌};

    ghost no_failure = { false };

    ghost either = { ◌||◌ };

    #[inline(always)]
    fn none() -> bool {
        false
    }

    #[inline(always)]
    fn or(self, other: bool) -> bool {
        self | other
    }
}

impl FailWord for u8 {
    ghost use Rattle.std.specs.Prelude.{bit_or};

    ghost no_failure = { 0 };

    ghost either = { bit_or };

    #[inline(always)]
    fn none() -> u8 {
        0
    }

    #[inline(always)]
    fn or(self, other: u8) -> u8 {
        self | other
    }
}

impl FailWord for u16 {
    ghost use Rattle.std.specs.Prelude.{bit_or};

    ghost no_failure = { 0 };

    ghost either = { bit_or };

    #[inline(always)]
    fn none() -> u16 {
        0
    }

    #[inline(always)]
    fn or(self, other: u16) -> u16 {
        self | other
    }
}

impl FailWord for u32 {
    ghost use Rattle.std.specs.Prelude.{bit_or};

    ghost no_failure = { 0 };

    ghost either = { bit_or };

    #[inline(always)]
    fn none() -> u32 {
        0
    }

    #[inline(always)]
    fn or(self, other: u32) -> u32 {
        self | other
    }
}

impl FailWord for u64 {
    ghost use Rattle.std.specs.Prelude.{bit_or};

    ghost no_failure = { 0 };

    ghost either = { bit_or };

    #[inline(always)]
    fn none() -> u64 {
        0
    }

    #[inline(always)]
    fn or(self, other: u64) -> u64 {
        self | other
    }
}
