// What kernels read: lanes by index, and the sources of them.
ghost use Rattle.std.specs.Prelude.{◌≡◌, ◌<◌, ◌==◌, List, length, slice_index_or, replicate};
ghost use Rattle.std.specs.List.{zip};

/// A list of lanes that are read by index. Its meaning is the list `lanes`.
pub trait IndexedSource {
    /// What a lane holds.
    type Item;

    ghost lanes: { Self → List Self.Item };

    /// How many lanes there are.
    fn len(&self) -> usize
        ensures { result ≡ length (lanes self.now) };

    /// Whether there is no lane.
    fn is_empty(&self) -> bool
        ensures { result ≡ (length (lanes self.now) == 0) }
    {
        self.len() == 0
    }

    /// Lane `i`.
    fn get(&self, i: usize) -> Self::Item
        requires { i < length (lanes self.now) }
        ensures { result ≡ slice_index_or (lanes self.now) i result };
}

/// The lanes of a slice.
#[derive(Clone, Copy)]
pub struct Lanes<'a, T: Copy> {
    /// The lanes.
    pub slice: &'a [T],
}

impl<'a, T: Copy> Lanes<'a, T> {
    /// The lanes of a slice.
    #[inline]
    pub fn new(slice: &'a [T]) -> Self
        ensures { result.slice ≡ slice.entry }
    {
        Lanes { slice }
    }
}

impl<T: Copy> IndexedSource for Lanes<'_, T> {
    type Item = T;

    ghost lanes = { λ s. s.slice.now };

    #[inline(always)]
    fn len(&self) -> usize {
        self.slice.len()
    }

    #[inline(always)]
    fn get(&self, i: usize) -> T {
        self.slice[i]
    }
}

/// Pairs of the lanes of two sources of one length.
#[derive(Clone, Copy)]
pub struct LaneZip<A, B> {
    /// The first of each pair.
    pub left: A,
    /// The second of each pair.
    pub right: B,
}

impl<A: IndexedSource, B: IndexedSource> LaneZip<A, B> {
    /// The pairs of the lanes of two sources of one length.
    #[inline]
    pub fn new(left: A, right: B) -> Self
        requires { length (A.lanes left) ≡ length (B.lanes right) }
        ensures left { result.left ≡ left }
        ensures right { result.right ≡ right }
    {
        LaneZip { left, right }
    }
}

impl<A: IndexedSource, B: IndexedSource> IndexedSource for LaneZip<A, B> {
    type Item = (A::Item, B::Item);

    ghost lanes = { λ s. zip (A.lanes s.left) (B.lanes s.right) };

    #[inline(always)]
    fn len(&self) -> usize {
        self.left.len().min(self.right.len())
    }

    #[inline(always)]
    fn get(&self, i: usize) -> (A::Item, B::Item) {
        (self.left.get(i), self.right.get(i))
    }
}

/// One value in every lane.
#[derive(Clone, Copy)]
pub struct Repeat<T: Copy> {
    /// What every lane holds.
    pub value: T,
    /// How many lanes there are.
    pub len: usize,
}

impl<T: Copy> Repeat<T> {
    /// So many lanes of one value.
    #[inline]
    pub fn new(value: T, len: usize) -> Self
        ensures value { result.value ≡ value }
        ensures len { result.len ≡ len }
    {
        Repeat { value, len }
    }
}

impl<T: Copy> IndexedSource for Repeat<T> {
    type Item = T;

    ghost lanes = { λ s. replicate s.len s.value };

    #[inline(always)]
    fn len(&self) -> usize {
        self.len
    }

    #[inline(always)]
    fn get(&self, _i: usize) -> T {
        self.value
    }
}
