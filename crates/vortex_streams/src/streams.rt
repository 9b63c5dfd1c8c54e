// The traits of streams.
ghost use Rattle.std.specs.Prelude.{◌≡◌, ◌≤◌, ◌<◌, ℕ, List, Option, length, IfOk};
ghost use Rattle.std.specs.Io.KnownBytes.{ReadConsumes, WriteAppends};
ghost use Rattle.vortex_buffer.specs.Counts.{HasCause};

use thiserror::Error;

/// A stream failed in a call, and its count of failures tells of it.
#[derive(Clone, Copy, Debug, PartialEq, Eq, Error)]
#[error("the stream failed")]
pub struct Failed;

/// Where bytes come from.
pub trait ByteSource {
    /// The bytes that are left, where they are told.
    ghost left: { Self → Option (List ℕ) };

    /// How often a call failed, which stays at `u64::MAX`.
    ghost faults: { Self → ℕ };

    /// Takes the first of the bytes that are left into the front of the buffer, and answers their number. It answers 0 for
    /// a buffer that is not empty exactly where none is left. A call that fails leaves the bytes as they were.
    fn read(&mut self, buffer: &mut [u8]) -> Result<usize, Failed>
        ensures bound { IfOk result (λ n. n ≤ length buffer.old) }
        ensures bytes { ReadConsumes (left self.old) (left self.new) result buffer.new }
        ensures cause { HasCause (faults self.old) (faults self.new) result };
}

/// Where bytes go to.
pub trait ByteSink {
    /// The bytes that were taken, where they are told.
    ghost taken: { Self → Option (List ℕ) };

    /// How often a call failed, which stays at `u64::MAX`.
    ghost faults: { Self → ℕ };

    /// Takes the first bytes of the piece and answers their number, which is 0 only for an empty piece. A call that fails
    /// takes none.
    fn write(&mut self, piece: &[u8]) -> Result<usize, Failed>
        ensures bound { IfOk result (λ n. n ≤ length piece.now) }
        ensures some { IfOk result (λ n. 0 < length piece.now → 0 < n) }
        ensures bytes { WriteAppends (taken self.old) (taken self.new) result piece.now }
        ensures cause { HasCause (faults self.old) (faults self.new) result };
}
