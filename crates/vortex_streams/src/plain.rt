// Streams that never fail.
ghost use Rattle.std.specs.Prelude.{◌≡◌, ◌≤◌, ◌<◌, length, Some, None, Ok, IfOk};

use crate::{ByteSink, ByteSource, Failed};
use std::marker::Model;
use vortex_buffer::Buffer;

/// Bytes in memory that are read without failures. Contracts see the bytes that are left.
pub struct PlainInput {
    bytes: Buffer<u8>,
    at: usize,
}

impl Drop for PlainInput {
    fn drop(self) {
        let PlainInput {
            bytes: _bytes,
            at: _at,
        } = self;
    }
}

impl Model for PlainInput {
    ghost use Rattle.std.specs.Prelude.{List, ℕ, ◌≤◌, drop, length};

    ghost Value = { List ℕ };

    ghost view = { λ input. drop input.at input.bytes };

    ghost invariant = { λ input. input.at ≤ length input.bytes };
}

impl PlainInput {
    /// An input of which all of the bytes are left.
    pub fn new(bytes: Buffer<u8>) -> PlainInput
        ensures { result ≡ bytes }
    {
        PlainInput { bytes, at: 0 }
    }
}

impl ByteSource for PlainInput {
    ghost use Rattle.std.specs.Prelude.{min};
    ghost use Rattle.std.specs.Io.KnownBytes.{ReadConsumes};
    ghost use Rattle.vortex_buffer.specs.Counts.{HasCause};

    ghost left = { λ input. Some input };

    ghost faults = { λ _. 0 };

    fn read(&mut self, buffer: &mut [u8]) -> Result<usize, Failed>
        ensures bound { IfOk result (λ n. n ≤ length buffer.old) }
        ensures bytes { ReadConsumes (Some self.old) (Some self.new) result buffer.new }
        ensures cause { HasCause 0 0 result }
        ensures most { result ≡ Ok (min (length buffer.old) (length self.old)) }
    {
        let n = buffer.len().min(self.bytes.len() - self.at);
        buffer[..n].copy_from_slice(&self.bytes.as_slice()[self.at..self.at + n]);
        self.at += n;
        Ok(n)
    }
}

/// An output that takes every piece whole, and keeps none.
pub struct PlainOutput;

impl Drop for PlainOutput {
    fn drop(self) {
        let PlainOutput = self;
    }
}

impl PlainOutput {
    /// The output.
    pub fn new() -> PlainOutput {
        PlainOutput
    }
}

impl ByteSink for PlainOutput {
    ghost taken = { λ _. None };

    ghost faults = { λ _. 0 };

    fn write(&mut self, piece: &[u8]) -> Result<usize, Failed>
        ensures whole { result ≡ Ok (length piece.now) }
    {
        Ok(piece.len())
    }
}
