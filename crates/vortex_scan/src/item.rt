// The live items of a run, and its sources.
use crate::fetches::Fetches;
use crate::sources;
use vortex_io::{IoOwnerId, IoSource};
use vortex_scan_types::{Place, RootId, WorkScope};

/// A live item. Its key is its path followed by its next child number.
pub struct Item<W> {
    /// Whose it is.
    pub root: RootId,
    /// The number under which it fetches.
    pub owner: IoOwnerId,
    /// The scope with which it was made.
    pub scope: WorkScope,
    /// The key that its parent had when it was made; the root's number alone for a root.
    pub path: Place,
    /// The number of its next child.
    pub next: u64,
    /// What it has fetched and was not given.
    pub asked: Fetches,
    /// Whether it is to be visited.
    pub ready: bool,
    /// The planner or the morsel.
    pub work: W,
}

impl<W: Drop> Drop for Item<W> {
    fn drop(self) {
        let Item {
            root: _root,
            owner: _owner,
            scope: _scope,
            path: _path,
            next: _next,
            asked: _asked,
            ready: _ready,
            work: _work,
        } = self;
    }
}

/// A source of a run, at the place of its root's number.
pub struct Slot<S> {
    /// The source.
    pub source: S,
    /// Whether the root is neither done nor cancelled.
    pub live: bool,
}

impl<S: Drop> Drop for Slot<S> {
    fn drop(self) {
        let Slot {
            source: _source,
            live: _live,
        } = self;
    }
}

impl<S: IoSource> Slot<S> {
    ghost use Rattle.vortex_scan.specs.Sources.{Clears};

    /// The source, cleared.
    pub(crate) fn into_cleared(self) -> S
        ensures { Clears S.IoSource self.source result }
    {
        let Slot {
            source,
            live: _live,
        } = self;
        let mut source = source;
        sources::clear(&mut source);
        source
    }
}
