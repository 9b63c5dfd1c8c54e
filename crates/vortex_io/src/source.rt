// The boundary to what holds the chunks.
ghost use Rattle.std.specs.Prelude.{◌≡◌, ℕ, ◌<◌, ◌≤◌, Bool, true, false, List, [], ◌∷◌, ◌++◌, Option, Result, length, MatchResult, MatchOption, IfErr};
ghost use Rattle.vortex_buffer.specs.Counts.{Faulted, Rose};

use super::batch::IoBatch;
use super::ids::IoOwnerId;
use super::payload::Payload;
use super::request::{Completion, IoError};

/// A source of chunks. Fetches are submitted in batches, stay outstanding, and are completed one by one, in an order that
/// the source picks. A refused call leaves what is outstanding as it was.
///
/// A source is honest in a call where its count of lies neither rose nor stands at its last number. A completion in such a
/// call answers the outstanding fetch that it takes.
pub trait IoSource: Drop {
    ghost use Rattle.vortex_io.specs.declared.ids.IoOwnerId.{IoOwnerId};
    ghost use Rattle.vortex_io.specs.declared.request.Completion.{Completion};
    ghost use Rattle.vortex_io.specs.declared.request.Fetch.{Fetch};
    ghost use Rattle.vortex_io.specs.declared.request.IoError.{IoError};
    ghost use Rattle.vortex_io.specs.declared.request.IoRequest.{IoRequest};
    ghost use Rattle.vortex_io.specs.declared.request.JournalEntry.{JournalEntry};
    ghost use Rattle.vortex_io.specs.declared.request.JournalEntry.TheVariants.{Waited};
    ghost use Rattle.vortex_io.specs.Source.{Content, fetches, submissions, without_owner, grown, Completes, FaultsOutside, FaultsNowhere};

    /// What its chunks are.
    type Payload: Payload;

    // The fetches that were submitted and are neither completed nor released, the oldest first.
    ghost outstanding: { Self → List Fetch };

    // The chunks by split and by column, where the source tells them.
    ghost content: { Self → Option (Content Self.Payload) };

    // What was submitted and when the source waited, where it tells that.
    ghost journal: { Self → Option (List JournalEntry) };

    // How often the source failed. It stands still at its last number, as the other counts do.
    ghost faults: { Self → ℕ };

    // How often a completion may have been another than what its fetch asked for.
    ghost lies: { Self → ℕ };

    // How often a poll found nothing ready.
    ghost quiet: { Self → ℕ };

    // Whether something was submitted since a poll last found nothing ready.
    ghost stale: { Self → Bool };

    // Whether the source, where it tells its content, fails at nothing but a fetch of a chunk that it lacks.
    ghost sure: { Self → Bool };

    // What each call may do besides, as the source states it.
    ghost submits: { Self → IoOwnerId → List IoRequest → Result (Unit {0}) IoError → Self → Type 0 } = { λ _ _ _ _ _. Unit {0} };

    ghost polls: { Self → Result (Option (Completion Self.Payload)) IoError → Self → Type 0 } = { λ _ _ _. Unit {0} };

    ghost waits: { Self → Result (Completion Self.Payload) IoError → Self → Type 0 } = { λ _ _ _. Unit {0} };

    ghost releases: { Self → IoOwnerId → Self → Type 0 } = { λ _ _ _. Unit {0} };

    ghost clears: { Self → Self → Type 0 } = { λ _ _. Unit {0} };

    /// Takes a batch of the owner's requests. Its fetches become outstanding, in the batch's order; the others are hints.
    fn submit(&mut self, owner: IoOwnerId, batch: IoBatch) -> Result<(), IoError>
        ensures accounts { MatchResult result
            (λ _. outstanding self.new ≡ outstanding self.old ++ fetches owner batch)
            (λ _. outstanding self.new ≡ outstanding self.old) }
        ensures content { content self.new ≡ content self.old }
        ensures journal { MatchResult result
            (λ _. journal self.new ≡ grown (journal self.old) (submissions owner batch))
            (λ _. journal self.new ≡ journal self.old) }
        ensures faults { faults self.old ≤ faults self.new }
        ensures fault { IfErr result (λ error. error ≡ IoError.Fault → Faulted (faults self.old) (faults self.new)) }
        ensures lies { lies self.old ≤ lies self.new }
        ensures quiet { quiet self.old ≤ quiet self.new }
        ensures stale { MatchResult result (λ _. stale self.new ≡ true) (λ _. stale self.new ≡ stale self.old) }
        ensures sure { sure self.new ≡ sure self.old }
        ensures surely { FaultsOutside (sure self.old) (content self.old) batch (faults self.old) (faults self.new) }
        ensures submits { submits self.old owner batch result self.new };

    /// A completion, or None where none is ready yet.
    fn poll(&mut self) -> Result<Option<Completion<Self::Payload>>, IoError>
        ensures accounts { MatchResult result
            (λ answer. MatchOption answer (outstanding self.new ≡ outstanding self.old)
            (λ completion. Completes Self.Payload.means (content self.old) (outstanding self.old) (outstanding self.new) (lies self.old) (lies self.new) completion))
            (λ _. outstanding self.new ≡ outstanding self.old) }
        ensures content { content self.new ≡ content self.old }
        ensures journal { journal self.new ≡ journal self.old }
        ensures faults { faults self.old ≤ faults self.new }
        ensures fault { IfErr result (λ error. error ≡ IoError.Fault → Faulted (faults self.old) (faults self.new)) }
        ensures lies { lies self.old ≤ lies self.new }
        ensures quiet { quiet self.old ≤ quiet self.new }
        ensures none { result ≡ Ok None → Rose (quiet self.old) (quiet self.new) }
        ensures stale { MatchResult result
            (λ answer. MatchOption answer (stale self.new ≡ false) (λ _. stale self.new ≡ stale self.old))
            (λ _. stale self.new ≡ stale self.old) }
        ensures sure { sure self.new ≡ sure self.old }
        ensures surely { FaultsNowhere (sure self.old) (content self.old) (faults self.old) (faults self.new) }
        ensures polls { polls self.old result self.new };

    /// A completion, for which the source waits. Something has to be outstanding.
    fn wait(&mut self) -> Result<Completion<Self::Payload>, IoError>
        requires { 0 < length (outstanding self.old) }
        ensures accounts { MatchResult result
            (λ completion. Completes Self.Payload.means (content self.old) (outstanding self.old) (outstanding self.new) (lies self.old) (lies self.new) completion)
            (λ _. outstanding self.new ≡ outstanding self.old) }
        ensures content { content self.new ≡ content self.old }
        ensures journal { MatchResult result
            (λ _. journal self.new ≡ grown (journal self.old) (Waited ∷ []))
            (λ _. journal self.new ≡ journal self.old) }
        ensures faults { faults self.old ≤ faults self.new }
        ensures fault { IfErr result (λ error. error ≡ IoError.Fault → Faulted (faults self.old) (faults self.new)) }
        ensures lies { lies self.old ≤ lies self.new }
        ensures quiet { quiet self.old ≤ quiet self.new }
        ensures stale { stale self.new ≡ stale self.old }
        ensures sure { sure self.new ≡ sure self.old }
        ensures surely { FaultsNowhere (sure self.old) (content self.old) (faults self.old) (faults self.new) }
        ensures waits { waits self.old result self.new };

    /// Gives up the owner's outstanding fetches.
    fn release(&mut self, owner: IoOwnerId)
        ensures accounts { outstanding self.new ≡ without_owner owner (outstanding self.old) }
        ensures content { content self.new ≡ content self.old }
        ensures journal { journal self.new ≡ journal self.old }
        ensures faults { faults self.old ≤ faults self.new }
        ensures lies { lies self.old ≤ lies self.new }
        ensures quiet { quiet self.old ≤ quiet self.new }
        ensures stale { stale self.new ≡ stale self.old }
        ensures sure { sure self.new ≡ sure self.old }
        ensures surely { FaultsNowhere (sure self.old) (content self.old) (faults self.old) (faults self.new) }
        ensures releases { releases self.old owner self.new };

    /// Gives up all outstanding fetches.
    fn clear(&mut self)
        ensures accounts { outstanding self.new ≡ [] }
        ensures content { content self.new ≡ content self.old }
        ensures journal { journal self.new ≡ journal self.old }
        ensures faults { faults self.old ≤ faults self.new }
        ensures lies { lies self.old ≤ lies self.new }
        ensures quiet { quiet self.old ≤ quiet self.new }
        ensures stale { stale self.new ≡ stale self.old }
        ensures sure { sure self.new ≡ sure self.old }
        ensures surely { FaultsNowhere (sure self.old) (content self.old) (faults self.old) (faults self.new) }
        ensures clears { clears self.old self.new };
}
