// The pieces of work that give rows.
ghost use Rattle.std.specs.Prelude.{◌≡◌, ℕ, [], false};

use crate::state::{MorselOutput, State};
use vortex_io::IoConsumer;

/// A piece of work whose rows come in batches. A run asks for its state first, and lets it compute where it says so.
///
/// What a morsel owes, how it behaves and what it may still fetch are told for contracts alone, or not told. Each is
/// a group of members with the rules that they keep.
pub trait Morsel: IoConsumer + Sized {
    ghost use Rattle.std.specs.Prelude.{Bool, List, Option, Result};
    ghost use Rattle.vortex_array.specs.Batch.{BatchParts};
    ghost use Rattle.vortex_io.specs.Source.{Content};
    ghost use Rattle.vortex_io.specs.declared.ids.IoRequestId.{IoRequestId};
    ghost use Rattle.vortex_io.specs.declared.request.IoRequest.{IoRequest};
    ghost use Rattle.vortex_io.specs.declared.request.IoTarget.{IoTarget};
    ghost use Rattle.vortex_scan.specs.declared.state.MorselOutput.{MorselOutput};
    ghost use Rattle.vortex_scan.specs.declared.state.State.{State};
    ghost use Rattle.vortex_scan.specs.Owed.{MorselOwes, Rows};
    ghost use Rattle.vortex_scan.specs.Orderly.{MorselIsOrderly};
    ghost use Rattle.vortex_scan.specs.Plans.{MorselFollowsPlan};

    /// Why a computation may fail.
    type Error: Drop;

    // The state that it shows.
    ghost state_is: { Self → State };

    // What one computation may answer, and make of the morsel.
    ghost computes: { Self → Result MorselOutput Self.Error → Self → Type 0 };

    // Whether the type tells what it owes, and then the rows that a morsel still has to give over a content, batch by batch.
    ghost tells: { Type 0 } = { ⊥ };

    ghost owed: { Self → Content Self.Payload → List Rows } = { λ _ _. [] };

    // Whether a morsel is orderly, and then the fetches that it has published and was not given, and a bound on its computations.
    ghost orderly: { Self → Type 0 } = { λ _. ⊥ };

    ghost asked: { Self → List IoRequest } = { λ _. [] };

    ghost work: { Self → ℕ } = { λ _. 1 };

    // Which errors are want of memory, and which a content permits a morsel.
    ghost is_memory: { Self.Error → Bool } = { λ _. false };

    ghost permits: { Self → Content Self.Payload → Self.Error → Type 0 } = { λ _ _ _. Unit {0} };

    // Whether the type tells a plan, and then the targets that a morsel may still fetch, over a content or over none,
    // whether it is fresh, and a test on the rows that it gives.
    ghost plans: { Type 0 } = { ⊥ };

    ghost plan: { Self → Option (Content Self.Payload) → List IoTarget } = { λ _ _. [] };

    ghost fresh: { Self → Bool } = { λ _. false };

    ghost gives_such: { BatchParts → Bool } = { λ _. false };

    /// What it is about to do.
    fn state(&self) -> State
        ensures { result ≡ state_is self.now };

    /// One computation. It may be called where the state says so.
    fn compute(&mut self) -> Result<MorselOutput, Self::Error>
        requires { state_is self.old ≡ State.NeedsCompute }
        ensures computes { computes self.old result self.new }
        ensures names { (number : IoRequestId) → Self.names self.new number ≡ Self.names self.old number };

    // The rules of each group.
    ghost owes: { tells → MorselOwes Self.Payload.means Self.takes Self.names state_is computes owed };

    ghost is_orderly: { MorselIsOrderly Self.Payload.means Self.takes state_is computes orderly asked work is_memory permits };

    ghost follows_plan: { plans → MorselFollowsPlan Self.Payload.means Self.takes Self.names state_is computes plan fresh gives_such };
}
