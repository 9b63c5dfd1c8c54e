// The native types of whole numbers, one trait for the eight widths and one for those of codes.
ghost use Rattle.std.specs.Prelude.{◌≡◌, ◌&&◌, ℤ, pos, int_le, IfSome, IsTrue, is_some, refl, true};
ghost use Rattle.std.specs.Bool.{Decides};
ghost use Rattle.std.specs.Cmp.{signed_Decides};
ghost use Rattle.vortex_array_types.specs.Row.{in_width};
ghost use Rattle.vortex_array_types.specs.Widths.{greatest, has_no_sign, least};
ghost use Rattle.vortex_array_types.specs.SameNumber.{same_naturals};
ghost use Rattle.vortex_array_types.specs.declared.types.PType.{PType};
ghost use Rattle.vortex_array_types.specs.declared.types.PType.TheVariants as widths;

use crate::types::PType;
use std::hash::Hash;

/// The item where the test holds, else none.
#[macro_export]
macro_rules! item_if {
    ($test:expr, $item:expr) => {
        if $test { Some($item) } else { None }
    };
}

/// A native type of whole numbers. Its meaning is a width, and for each item a number of that width.
pub trait NativeValue: Copy + Eq + Hash {
    ghost number: { Self → ℤ };

    ghost width: { PType };

    /// The width.
    fn ptype() -> PType
        ensures { result ≡ width };

    /// The number of an item, which lies in the width.
    fn value(self) -> i128
        ensures value { result ≡ number self }
        ensures within { IsTrue (in_width width (number self)) }
        ensures between { IsTrue (int_le (least width) result && int_le result (greatest width)) };

    /// The item of a number, or none exactly where the number is outside the width.
    fn from_value(value: i128) -> Option<Self>
        ensures value { IfSome result (λ x. number x ≡ value) }
        ensures within { is_some result ≡ in_width width value };

    ghost same_number: { (x y : Self) → Decides (Self.eq x y) (number x ≡ number y) };
}

/// An unsigned native type, in which the codes of a dictionary are kept.
pub trait CodeType: NativeValue {
    /// The code of a place, or none exactly where the place passes the greatest number of the width.
    fn from_place(place: usize) -> Option<Self>
        ensures value { IfSome result (λ x. Self.number x ≡ pos place) }
        ensures within { is_some result ≡ in_width Self.width (pos place) };

    ghost unsigned: { has_no_sign Self.width ≡ true };
}

impl NativeValue for u8 {
    ghost number = { λ x. pos x };

    ghost width = { widths.U8 };

    fn ptype() -> PType {
        PType::U8
    }

    #[inline(always)]
    fn value(self) -> i128 {
        self as i128
    }

    #[inline]
    fn from_value(value: i128) -> Option<u8> {
        item_if!(PType::U8.holds(value), value as u8)
    }

    ghost same_number = { same_naturals };
}

impl NativeValue for u16 {
    ghost number = { λ x. pos x };

    ghost width = { widths.U16 };

    fn ptype() -> PType {
        PType::U16
    }

    #[inline(always)]
    fn value(self) -> i128 {
        self as i128
    }

    #[inline]
    fn from_value(value: i128) -> Option<u16> {
        item_if!(PType::U16.holds(value), value as u16)
    }

    ghost same_number = { same_naturals };
}

impl NativeValue for u32 {
    ghost number = { λ x. pos x };

    ghost width = { widths.U32 };

    fn ptype() -> PType {
        PType::U32
    }

    #[inline(always)]
    fn value(self) -> i128 {
        self as i128
    }

    #[inline]
    fn from_value(value: i128) -> Option<u32> {
        item_if!(PType::U32.holds(value), value as u32)
    }

    ghost same_number = { same_naturals };
}

impl NativeValue for u64 {
    ghost number = { λ x. pos x };

    ghost width = { widths.U64 };

    fn ptype() -> PType {
        PType::U64
    }

    #[inline(always)]
    fn value(self) -> i128 {
        self as i128
    }

    #[inline]
    fn from_value(value: i128) -> Option<u64> {
        item_if!(PType::U64.holds(value), value as u64)
    }

    ghost same_number = { same_naturals };
}

impl NativeValue for i8 {
    ghost number = { λ x. x };

    ghost width = { widths.I8 };

    fn ptype() -> PType {
        PType::I8
    }

    #[inline(always)]
    fn value(self) -> i128 {
        self as i128
    }

    #[inline]
    fn from_value(value: i128) -> Option<i8> {
        item_if!(PType::I8.holds(value), value as i8)
    }

    ghost same_number = { signed_Decides };
}

impl NativeValue for i16 {
    ghost number = { λ x. x };

    ghost width = { widths.I16 };

    fn ptype() -> PType {
        PType::I16
    }

    #[inline(always)]
    fn value(self) -> i128 {
        self as i128
    }

    #[inline]
    fn from_value(value: i128) -> Option<i16> {
        item_if!(PType::I16.holds(value), value as i16)
    }

    ghost same_number = { signed_Decides };
}

impl NativeValue for i32 {
    ghost number = { λ x. x };

    ghost width = { widths.I32 };

    fn ptype() -> PType {
        PType::I32
    }

    #[inline(always)]
    fn value(self) -> i128 {
        self as i128
    }

    #[inline]
    fn from_value(value: i128) -> Option<i32> {
        item_if!(PType::I32.holds(value), value as i32)
    }

    ghost same_number = { signed_Decides };
}

impl NativeValue for i64 {
    ghost number = { λ x. x };

    ghost width = { widths.I64 };

    fn ptype() -> PType {
        PType::I64
    }

    #[inline(always)]
    fn value(self) -> i128 {
        self as i128
    }

    #[inline]
    fn from_value(value: i128) -> Option<i64> {
        item_if!(PType::I64.holds(value), value as i64)
    }

    ghost same_number = { signed_Decides };
}

impl CodeType for u8 {
    #[inline]
    fn from_place(place: usize) -> Option<u8> {
        item_if!(PType::U8.holds(place as i128), place as u8)
    }

    ghost unsigned = { refl };
}

impl CodeType for u16 {
    #[inline]
    fn from_place(place: usize) -> Option<u16> {
        item_if!(PType::U16.holds(place as i128), place as u16)
    }

    ghost unsigned = { refl };
}

impl CodeType for u32 {
    #[inline]
    fn from_place(place: usize) -> Option<u32> {
        item_if!(PType::U32.holds(place as i128), place as u32)
    }

    ghost unsigned = { refl };
}

impl CodeType for u64 {
    #[inline]
    fn from_place(place: usize) -> Option<u64> {
        item_if!(PType::U64.holds(place as i128), place as u64)
    }

    ghost unsigned = { refl };
}
