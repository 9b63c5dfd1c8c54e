// Streams in memory, with calls that fail.
ghost use Rattle.std.specs.Prelude.{◌≡◌, ◌≤◌, ◌<◌, ◌-◌, length, Some, IfOk, [], if◌then◌else◌};

use crate::{ByteSink, ByteSource, Failed, PlainInput};
use std::alloc::{AllocError, Global};
use std::marker::Model;
use vortex_buffer::Buffer;

/// Bytes in memory, and the numbers of the reads that fail, from 0. Reads take no memory.
pub struct MemoryInput {
    bytes: PlainInput,
    failing: Buffer<u64>,
    calls: u64,
    faults: u64,
}

impl Drop for MemoryInput {
    fn drop(self) {
        let MemoryInput {
            bytes: _bytes,
            failing: _failing,
            calls: _calls,
            faults: _faults,
        } = self;
    }
}

impl Model for MemoryInput {
    ghost use Rattle.vortex_streams.specs.Memory.{Input};

    ghost Value = { Input };

    ghost view = { λ input. record { left = input.bytes; calls = input.calls; failing = input.failing; faults = input.faults } };
}

impl MemoryInput {
    /// An input of which all of the bytes are left, and no call was made.
    pub fn new(bytes: Buffer<u8>, failing: Buffer<u64>) -> MemoryInput
        ensures { result ≡ record { left = bytes; calls = 0; failing = failing; faults = 0 } }
    {
        MemoryInput {
            bytes: PlainInput::new(bytes),
            failing,
            calls: 0,
            faults: 0,
        }
    }
}

impl ByteSource for MemoryInput {
    ghost use Rattle.std.specs.Prelude.{min};
    ghost use Rattle.std.specs.Result.{is_err};
    ghost use Rattle.std.specs.Io.KnownBytes.{ReadConsumes};
    ghost use Rattle.vortex_buffer.specs.Counts.{HasCause, one_more};
    ghost use Rattle.vortex_streams.specs.Memory.{is_listed};

    ghost left = { λ input. Some input.left };

    ghost faults = { λ input. input.faults };

    // Refused exactly where the call is listed. Else it gives as many bytes as are left and fit the buffer.
    fn read(&mut self, buffer: &mut [u8]) -> Result<usize, Failed>
        ensures bound { IfOk result (λ n. n ≤ length buffer.old) }
        ensures bytes { ReadConsumes (Some self.old.left) (Some self.new.left) result buffer.new }
        ensures cause { HasCause self.old.faults self.new.faults result }
        ensures refused { is_err result ≡ is_listed self.old.failing self.old.calls }
        ensures most { IfOk result (λ n. n ≡ min (length buffer.old) (length self.old.left)) }
        ensures calls { self.new.calls ≡ one_more self.old.calls }
        ensures faults { self.new.faults ≡ (if is_err result then one_more self.old.faults else self.old.faults) }
        ensures failing { self.new.failing ≡ self.old.failing }
    {
        let call = self.calls;
        self.calls = self.calls.saturating_add(1);
        if self.failing.as_slice().contains(&call) {
            self.faults = self.faults.saturating_add(1);
            return Err(Failed);
        }
        self.bytes.read(buffer)
    }
}

/// Room for bytes in memory, and the numbers of the writes that fail, from 0. Writes take no memory.
pub struct MemoryOutput {
    bytes: Vec<u8>,
    room: usize,
    failing: Buffer<u64>,
    calls: u64,
    faults: u64,
}

impl Drop for MemoryOutput {
    fn drop(self) {
        let MemoryOutput {
            bytes: _bytes,
            room: _room,
            failing: _failing,
            calls: _calls,
            faults: _faults,
        } = self;
    }
}

impl Model for MemoryOutput {
    ghost use Rattle.std.specs.Prelude.{◌≤◌};
    ghost use Rattle.std.specs.Vec.{vec_capacity, vec_len};
    ghost use Rattle.vortex_streams.specs.Memory.{Output};

    ghost Value = { Output };

    ghost view = { λ output. record { taken = output.bytes.items; room = output.room; calls = output.calls; failing = output.failing; faults = output.faults } };

    ghost invariant = { λ output. (vec_len output.bytes ≤ output.room) × (output.room ≤ vec_capacity output.bytes) };
}

impl MemoryOutput {
    /// An output that took nothing, with memory for as many bytes as its room, and to which no call was made.
    pub fn new(alloc: Global, room: usize, failing: Buffer<u64>) -> Result<MemoryOutput, AllocError>
        ensures { IfOk result (λ output. output ≡ record { taken = []; room = room; calls = 0; failing = failing; faults = 0 }) }
    {
        let bytes = Vec::with_capacity(alloc, room)?;
        Ok(MemoryOutput {
            bytes,
            room,
            failing,
            calls: 0,
            faults: 0,
        })
    }

    /// The bytes that were taken, which are never more than the room.
    pub fn bytes(&self) -> &[u8]
        ensures taken { result.now ≡ self.now.taken }
        ensures within { length self.now.taken ≤ self.now.room }
    {
        self.bytes.as_slice()
    }
}

impl ByteSink for MemoryOutput {
    ghost use Rattle.std.specs.Prelude.{min};
    ghost use Rattle.std.specs.Result.{is_err};
    ghost use Rattle.std.specs.Io.KnownBytes.{WriteAppends};
    ghost use Rattle.vortex_buffer.specs.Counts.{HasCause, one_more};
    ghost use Rattle.vortex_streams.specs.Memory.{is_refused};

    ghost taken = { λ output. Some output.taken };

    ghost faults = { λ output. output.faults };

    // Refused exactly where the call is listed, or the piece has bytes and no room is left. Else it takes as many bytes as
    // the piece has and the room allows.
    fn write(&mut self, piece: &[u8]) -> Result<usize, Failed>
        ensures bound { IfOk result (λ n. n ≤ length piece.now) }
        ensures some { IfOk result (λ n. 0 < length piece.now → 0 < n) }
        ensures bytes { WriteAppends (Some self.old.taken) (Some self.new.taken) result piece.now }
        ensures cause { HasCause self.old.faults self.new.faults result }
        ensures refused { is_err result ≡ is_refused self.old (length piece.now) }
        ensures most { IfOk result (λ n. n ≡ min (length piece.now) (self.old.room - length self.old.taken)) }
        ensures room { self.new.room ≡ self.old.room }
        ensures calls { self.new.calls ≡ one_more self.old.calls }
        ensures faults { self.new.faults ≡ (if is_err result then one_more self.old.faults else self.old.faults) }
        ensures failing { self.new.failing ≡ self.old.failing }
    {
        let call = self.calls;
        self.calls = self.calls.saturating_add(1);
        let room = self.room - self.bytes.len();
        if self.failing.as_slice().contains(&call) || (room == 0 && !piece.is_empty()) {
            self.faults = self.faults.saturating_add(1);
            return Err(Failed);
        }
        let n = piece.len().min(room);
        match self.bytes.extend_from_slice(&piece[..n]) {
            Ok(()) => Ok(n),
            Err(_) => unreachable!(),
        }
    }
}
