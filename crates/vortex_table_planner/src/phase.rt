// How far a morsel has come.

/// What a morsel does next.
#[derive(Clone, Copy, Debug, PartialEq, Eq)]
pub(crate) enum Phase {
    /// It has done nothing yet.
    Fresh,
    /// It waits for the chunks that it fetches.
    Asking,
    /// It has its chunks.
    Ready,
    /// It has nothing left to do.
    Done,
}
