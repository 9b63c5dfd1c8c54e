// Who takes what fetches gave.
ghost use Rattle.std.specs.Prelude.{◌≡◌, Option};

use super::ids::IoRequestId;
use super::payload::Payload;
use super::request::IoResult;

/// Takes what its fetches gave. Each number of a fetch names one target, which no result changes.
pub trait IoConsumer: Drop {
    ghost use Rattle.vortex_io.specs.declared.ids.IoRequestId.{IoRequestId};
    ghost use Rattle.vortex_io.specs.declared.request.IoResult.{IoResult};
    ghost use Rattle.vortex_io.specs.declared.request.IoTarget.{IoTarget};

    /// What the chunks are.
    type Payload: Payload;

    // What taking a result under a number may make of the consumer.
    ghost takes: { Self → IoRequestId → IoResult Self.Payload → Self → Type 0 };

    // The target that a number names, if it names one.
    ghost names: { Self → IoRequestId → Option IoTarget };

    /// Takes what the fetch of this number gave.
    fn set_io_result(&mut self, request: IoRequestId, outcome: IoResult<Self::Payload>)
        ensures takes { takes self.old request outcome self.new }
        ensures names { (number : IoRequestId) → names self.new number ≡ names self.old number };
}
