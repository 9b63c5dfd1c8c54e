// Types of one width whose values are the same bits, read with a sign or without.
ghost use Rattle.std.specs.Prelude.{◌≡◌};

/// A type whose values have the same bits as those of `F`. The two ways are inverse.
pub trait SameBits<F>: Copy {
    ghost as_other: { Self → F };

    ghost as_self: { F → Self };

    /// The value of `F` with the same bits.
    fn to_other(self) -> F
        ensures bits { result ≡ as_other self }
        ensures back { as_self result ≡ self };

    /// The value with the same bits as one of `F`.
    fn from_other(value: F) -> Self
        ensures bits { result ≡ as_self value }
        ensures back { as_other result ≡ value };
}

impl SameBits<i8> for u8 {
    ghost use Rattle.std.specs.Int.{cast_signed, cast_unsigned, w8};

    ghost as_other = { λ x. cast_signed w8 x };

    ghost as_self = { λ x. cast_unsigned w8 x };

    #[inline(always)]
    fn to_other(self) -> i8 {
        self.cast_signed()
    }

    #[inline(always)]
    fn from_other(value: i8) -> u8 {
        value.cast_unsigned()
    }
}

impl SameBits<u8> for i8 {
    ghost use Rattle.std.specs.Int.{cast_signed, cast_unsigned, w8};

    ghost as_other = { λ x. cast_unsigned w8 x };

    ghost as_self = { λ x. cast_signed w8 x };

    #[inline(always)]
    fn to_other(self) -> u8 {
        self.cast_unsigned()
    }

    #[inline(always)]
    fn from_other(value: u8) -> i8 {
        value.cast_signed()
    }
}

impl SameBits<i16> for u16 {
    ghost use Rattle.std.specs.Int.{cast_signed, cast_unsigned, w16};

    ghost as_other = { λ x. cast_signed w16 x };

    ghost as_self = { λ x. cast_unsigned w16 x };

    #[inline(always)]
    fn to_other(self) -> i16 {
        self.cast_signed()
    }

    #[inline(always)]
    fn from_other(value: i16) -> u16 {
        value.cast_unsigned()
    }
}

impl SameBits<u16> for i16 {
    ghost use Rattle.std.specs.Int.{cast_signed, cast_unsigned, w16};

    ghost as_other = { λ x. cast_unsigned w16 x };

    ghost as_self = { λ x. cast_signed w16 x };

    #[inline(always)]
    fn to_other(self) -> u16 {
        self.cast_unsigned()
    }

    #[inline(always)]
    fn from_other(value: u16) -> i16 {
        value.cast_signed()
    }
}

impl SameBits<i32> for u32 {
    ghost use Rattle.std.specs.Int.{cast_signed, cast_unsigned, w32};

    ghost as_other = { λ x. cast_signed w32 x };

    ghost as_self = { λ x. cast_unsigned w32 x };

    #[inline(always)]
    fn to_other(self) -> i32 {
        self.cast_signed()
    }

    #[inline(always)]
    fn from_other(value: i32) -> u32 {
        value.cast_unsigned()
    }
}

impl SameBits<u32> for i32 {
    ghost use Rattle.std.specs.Int.{cast_signed, cast_unsigned, w32};

    ghost as_other = { λ x. cast_unsigned w32 x };

    ghost as_self = { λ x. cast_signed w32 x };

    #[inline(always)]
    fn to_other(self) -> u32 {
        self.cast_unsigned()
    }

    #[inline(always)]
    fn from_other(value: u32) -> i32 {
        value.cast_signed()
    }
}

impl SameBits<i64> for u64 {
    ghost use Rattle.std.specs.Int.{cast_signed, cast_unsigned, w64};

    ghost as_other = { λ x. cast_signed w64 x };

    ghost as_self = { λ x. cast_unsigned w64 x };

    #[inline(always)]
    fn to_other(self) -> i64 {
        self.cast_signed()
    }

    #[inline(always)]
    fn from_other(value: i64) -> u64 {
        value.cast_unsigned()
    }
}

impl SameBits<u64> for i64 {
    ghost use Rattle.std.specs.Int.{cast_signed, cast_unsigned, w64};

    ghost as_other = { λ x. cast_unsigned w64 x };

    ghost as_self = { λ x. cast_signed w64 x };

    #[inline(always)]
    fn to_other(self) -> u64 {
        self.cast_unsigned()
    }

    #[inline(always)]
    fn from_other(value: u64) -> i64 {
        value.cast_signed()
    }
}
