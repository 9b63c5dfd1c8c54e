// What the clauses of all calls imply together, each law the contract of a function that does nothing.
ghost use Rattle.vortex_scan.specs.Ended.{EndedRootsAreSilent, ToldRootsHaveEnded};
ghost use Rattle.vortex_scan.specs.declared.worker.Work.{Work};

use crate::planner::Planner;
use crate::worker::{Work, Worker};
use vortex_io::IoSource;

/// A root whose end is told has ended, and so has a root that was admitted and is cancelled.
pub fn told_roots_have_ended<P: Planner, S: IoSource<Payload = P::Payload>>()
    ensures { ToldRootsHaveEnded ⟦<Work<P, P::Morsel> as Worker>⟧ S.IoSource P.Payload.Payload }
{}

/// Of a root that has ended nothing is told by any call, and it stays so.
pub fn ended_roots_are_silent<P: Planner, S: IoSource<Payload = P::Payload>>()
    ensures { EndedRootsAreSilent ⟦<Work<P, P::Morsel> as Worker>⟧ S.IoSource P.Payload.Payload }
{}
