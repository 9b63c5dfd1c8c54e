// What a lane holds where there is no value.
ghost use Rattle.std.specs.Prelude.{◌≡◌};

/// A type with a value for lanes that have none: 0, or false.
pub trait LaneDefault: Copy {
    ghost its_default: { Self };

    /// 0, or false.
    fn lane_default() -> Self
        ensures { result ≡ its_default };
}

impl LaneDefault for bool {
    ghost use Rattle.std.specs.Prelude.{false};

    ghost its_default = { false };

    #[inline(always)]
    fn lane_default() -> bool {
        false
    }
}

impl LaneDefault for u8 {
    ghost its_default = { 0 };

    #[inline(always)]
    fn lane_default() -> u8 {
        0
    }
}

impl LaneDefault for u16 {
    ghost its_default = { 0 };

    #[inline(always)]
    fn lane_default() -> u16 {
        0
    }
}

impl LaneDefault for u32 {
    ghost its_default = { 0 };

    #[inline(always)]
    fn lane_default() -> u32 {
        0
    }
}

impl LaneDefault for u64 {
    ghost its_default = { 0 };

    #[inline(always)]
    fn lane_default() -> u64 {
        0
    }
}

impl LaneDefault for u128 {
    ghost its_default = { 0 };

    #[inline(always)]
    fn lane_default() -> u128 {
        0
    }
}

impl LaneDefault for usize {
    ghost its_default = { 0 };

    #[inline(always)]
    fn lane_default() -> usize {
        0
    }
}

impl LaneDefault for i8 {
    ghost use Rattle.std.specs.Prelude.{pos};

    ghost its_default = { pos 0 };

    #[inline(always)]
    fn lane_default() -> i8 {
        0
    }
}

impl LaneDefault for i16 {
    ghost use Rattle.std.specs.Prelude.{pos};

    ghost its_default = { pos 0 };

    #[inline(always)]
    fn lane_default() -> i16 {
        0
    }
}

impl LaneDefault for i32 {
    ghost use Rattle.std.specs.Prelude.{pos};

    ghost its_default = { pos 0 };

    #[inline(always)]
    fn lane_default() -> i32 {
        0
    }
}

impl LaneDefault for i64 {
    ghost use Rattle.std.specs.Prelude.{pos};

    ghost its_default = { pos 0 };

    #[inline(always)]
    fn lane_default() -> i64 {
        0
    }
}

impl LaneDefault for i128 {
    ghost use Rattle.std.specs.Prelude.{pos};

    ghost its_default = { pos 0 };

    #[inline(always)]
    fn lane_default() -> i128 {
        0
    }
}
