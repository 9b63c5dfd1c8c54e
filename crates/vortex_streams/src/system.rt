// The streams of the system, whose bytes no contract knows.
ghost use Rattle.std.specs.Prelude.{◌≡◌, ◌≤◌, ◌<◌, None, IfOk, length, if◌then◌else◌};

use crate::{ByteSink, ByteSource, Failed};
use std::io::{Read, Write};
use std::marker::Model;

/// A reader of the system whose failures are counted. Contracts see the count.
pub struct StdInput<R> {
    reader: R,
    faults: u64,
}

impl<R: Drop> Drop for StdInput<R> {
    fn drop(self) {
        let StdInput {
            reader: _reader,
            faults: _faults,
        } = self;
    }
}

impl<R> Model for StdInput<R> {
    ghost use Rattle.std.specs.Prelude.{ℕ};

    ghost Value = { ℕ };

    ghost view = { λ input. input.faults };
}

impl<R: Read> StdInput<R> {
    /// A reader that has not failed yet.
    pub fn new(reader: R) -> StdInput<R>
        ensures { result ≡ 0 }
    {
        StdInput { reader, faults: 0 }
    }
}

impl<R: Read> ByteSource for StdInput<R> {
    ghost use Rattle.std.specs.Result.{is_err};
    ghost use Rattle.vortex_buffer.specs.Counts.{HasCause, one_more};

    ghost left = { λ _. None };

    ghost faults = { λ input. input };

    fn read(&mut self, buffer: &mut [u8]) -> Result<usize, Failed>
        ensures bound { IfOk result (λ n. n ≤ length buffer.old) }
        ensures cause { HasCause self.old self.new result }
        ensures faults { self.new ≡ (if is_err result then one_more self.old else self.old) }
    {
        match self.reader.read(buffer) {
            Ok(n) => Ok(n),
            Err(_) => {
                self.faults = self.faults.saturating_add(1);
                Err(Failed)
            }
        }
    }
}

/// A writer of the system whose failures are counted. Contracts see the count. Each written piece is flushed.
pub struct StdOutput<W> {
    writer: W,
    faults: u64,
}

impl<W: Drop> Drop for StdOutput<W> {
    fn drop(self) {
        let StdOutput {
            writer: _writer,
            faults: _faults,
        } = self;
    }
}

/// A writer of the system for the lines on errors.
pub type StdErrors<W> = StdOutput<W>;

impl<W> Model for StdOutput<W> {
    ghost use Rattle.std.specs.Prelude.{ℕ};

    ghost Value = { ℕ };

    ghost view = { λ output. output.faults };
}

impl<W: Write> StdOutput<W> {
    /// A writer that has not failed yet.
    pub fn new(writer: W) -> StdOutput<W>
        ensures { result ≡ 0 }
    {
        StdOutput { writer, faults: 0 }
    }
}

impl<W: Write> ByteSink for StdOutput<W> {
    ghost use Rattle.std.specs.Result.{is_err};
    ghost use Rattle.vortex_buffer.specs.Counts.{HasCause, one_more};

    ghost taken = { λ _. None };

    ghost faults = { λ output. output };

    fn write(&mut self, piece: &[u8]) -> Result<usize, Failed>
        ensures bound { IfOk result (λ n. n ≤ length piece.now) }
        ensures some { IfOk result (λ n. 0 < length piece.now → 0 < n) }
        ensures cause { HasCause self.old self.new result }
        ensures faults { self.new ≡ (if is_err result then one_more self.old else self.old) }
    {
        if let Ok(n) = self.writer.write(piece) {
            if (n > 0 || piece.is_empty()) && self.writer.flush().is_ok() {
                return Ok(n);
            }
        }
        self.faults = self.faults.saturating_add(1);
        Err(Failed)
    }
}
