// What in-place kernels write: lanes that are read and replaced by index.
ghost use Rattle.std.specs.Prelude.{◌≡◌, ◌<◌, List, length, slice_index_or, slice_set};

use crate::same_bits::SameBits;
use crate::source::IndexedSource;
use std::marker::PhantomData;

/// A source whose lanes can be replaced. Lane `i` becomes what the written value reads back as, `reads_back`.
/// A sink that writes to something that it was lent goes on writing to it: that is `same_target`.
pub trait IndexedSink: IndexedSource {
    /// What is written.
    type Write: Copy;

    ghost reads_back: { Self.Write → Self.Item };

    ghost same_target: { Self → Self → Type 0 };

    /// Replaces lane `i`. All other lanes stay.
    fn set(&mut self, i: usize, value: Self::Write)
        requires { i < length (Self.lanes self.old) }
        ensures lanes { Self.lanes self.new ≡ slice_set (Self.lanes self.old) i (reads_back value) }
        ensures kept { same_target self.old self.new };

    ghost stays: { (a : Self) → same_target a a };

    ghost goes_on: { (a b c : Self) → same_target a b → same_target b c → same_target a c };
}

/// The lanes of a slice, to be read and replaced.
#[derive(Drop)]
pub struct LanesMut<'a, T: Copy> {
    /// The lanes.
    pub slice: &'a mut [T],
}

impl<'a, T: Copy> LanesMut<'a, T> {
    /// The lanes of a slice.
    #[inline]
    pub fn new(slice: &'a mut [T]) -> Self
        ensures lanes { result.slice.now ≡ slice.old }
        ensures same_slice { result.slice.ghost_name ≡ slice.entry.ghost_name }
    {
        LanesMut { slice }
    }
}

impl<T: Copy> IndexedSource for LanesMut<'_, T> {
    type Item = T;

    ghost lanes = { λ s. s.slice.now };

    #[inline(always)]
    fn len(&self) -> usize {
        self.slice.len()
    }

    #[inline(always)]
    fn get(&self, i: usize) -> T {
        self.slice[i]
    }
}

impl<T: Copy> IndexedSink for LanesMut<'_, T> {
    type Write = T;

    ghost use Rattle.std.specs.Prelude.{◌≡◌};
    ghost use Rattle.std.proofs.Common.{refl, ◌∙◌};

    ghost reads_back = { λ x. x };

    ghost same_target = { λ a b. b.slice.ghost_name ≡ a.slice.ghost_name };

    ghost stays = { λ a. refl };

    ghost goes_on = { λ a b c ab bc. bc ∙ ab };

    #[inline(always)]
    fn set(&mut self, i: usize, value: T) {
        self.slice[i] = value;
    }
}

/// The lanes of a slice of `F`, which are replaced by values of `T` with the same bits.
#[derive(Drop)]
pub struct ReinterpretSink<'a, F: Copy, T: SameBits<F>> {
    /// The lanes.
    pub slice: &'a mut [F],
    written: PhantomData<T>,
}

impl<'a, F: Copy, T: SameBits<F>> ReinterpretSink<'a, F, T> {
    /// The lanes of a slice.
    #[inline]
    pub fn new(slice: &'a mut [F]) -> Self
        ensures lanes { result.slice.now ≡ slice.old }
        ensures same_slice { result.slice.ghost_name ≡ slice.entry.ghost_name }
    {
        ReinterpretSink {
            slice,
            written: PhantomData,
        }
    }
}

impl<F: Copy, T: SameBits<F>> IndexedSource for ReinterpretSink<'_, F, T> {
    type Item = F;

    ghost lanes = { λ s. s.slice.now };

    #[inline(always)]
    fn len(&self) -> usize {
        self.slice.len()
    }

    #[inline(always)]
    fn get(&self, i: usize) -> F {
        self.slice[i]
    }
}

impl<F: Copy, T: SameBits<F>> IndexedSink for ReinterpretSink<'_, F, T> {
    type Write = T;

    ghost use Rattle.std.specs.Prelude.{◌≡◌};
    ghost use Rattle.std.proofs.Common.{refl, ◌∙◌};

    ghost reads_back = { T.as_other };

    ghost same_target = { λ a b. b.slice.ghost_name ≡ a.slice.ghost_name };

    ghost stays = { λ a. refl };

    ghost goes_on = { λ a b c ab bc. bc ∙ ab };

    #[inline(always)]
    fn set(&mut self, i: usize, value: T) {
        self.slice[i] = value.to_other();
    }
}
