// Streams that fail at a call, are short, or never end.
ghost use Rattle.std.specs.Prelude.{None, Some};

use std::alloc::{AllocError, Global};
use std::io;
use vortex_buffer::Buffer;
use vortex_query::{ByteSink, ByteSource, Failed, MemoryInput, MemoryOutput};

/// The numbers of the calls that fail: one or none.
pub fn calls(alloc: Global, call: Option<u64>) -> Result<Buffer<u64>, AllocError> {
    match call {
        Some(call) => Buffer::from_slice(alloc, &[call]),
        None => Buffer::from_slice(alloc, &[]),
    }
}

/// An input that gives so many bytes in a read at most. Contracts are not told what is left of it: no case rests on that.
pub struct Pieces {
    pub input: MemoryInput,
    pub most: usize,
}

impl Drop for Pieces {
    fn drop(self) {
        let Pieces {
            input: _input,
            most: _most,
        } = self;
    }
}

impl ByteSource for Pieces {
    ghost left = { λ _. None };

    ghost faults = { λ source. source.input.faults };

    fn read(&mut self, buffer: &mut [u8]) -> Result<usize, Failed> {
        let most = buffer.len().min(self.most.max(1));
        self.input.read(&mut buffer[..most])
    }
}

/// An input of these bytes, of which a call fails.
pub fn input_of(
    alloc: Global,
    bytes: &[u8],
    most: usize,
    call: Option<u64>,
) -> Result<Pieces, AllocError> {
    let failing = calls(alloc, call)?;
    let bytes = Buffer::from_slice(alloc, bytes)?;
    Ok(Pieces {
        input: MemoryInput::new(bytes, failing),
        most,
    })
}

/// An output that takes three bytes of each piece at most.
pub struct ByThree {
    pub output: MemoryOutput,
}

impl Drop for ByThree {
    fn drop(self) {
        let ByThree { output: _output } = self;
    }
}

impl ByteSink for ByThree {
    ghost taken = { λ sink. Some sink.output.taken };

    ghost faults = { λ sink. sink.output.faults };

    fn write(&mut self, piece: &[u8]) -> Result<usize, Failed> {
        self.output.write(&piece[..piece.len().min(3)])
    }
}

/// An output with this room, of which a call fails.
pub fn by_three(alloc: Global, room: usize, call: Option<u64>) -> Result<ByThree, AllocError> {
    let failing = calls(alloc, call)?;
    let output = MemoryOutput::new(alloc, room, failing)?;
    Ok(ByThree { output })
}

/// Zeros, as many as these.
pub struct Zeros {
    pub left: usize,
}

impl Drop for Zeros {
    fn drop(self) {
        let Zeros { left: _left } = self;
    }
}

impl ByteSource for Zeros {
    ghost left = { λ _. None };

    ghost faults = { λ _. 0 };

    fn read(&mut self, buffer: &mut [u8]) -> Result<usize, Failed> {
        let n = self.left.min(buffer.len());
        self.left -= n;
        Ok(n)
    }
}

/// A reader whose second call fails, between one byte and the end.
pub struct BreaksOff {
    pub calls: u8,
}

impl Drop for BreaksOff {
    fn drop(self) {
        let BreaksOff { calls: _calls } = self;
    }
}

impl io::Read for BreaksOff {
    fn read(&mut self, buffer: &mut [u8]) -> io::Result<usize> {
        self.calls = self.calls.saturating_add(1);
        if self.calls == 2 {
            return Err(io::Error::from(io::ErrorKind::UnexpectedEof));
        }
        Ok(if self.calls == 1 {
            buffer.len().min(1)
        } else {
            0
        })
    }
}

/// A writer that takes nothing, or whose flush fails.
pub struct Stuck {
    pub takes: bool,
}

impl Drop for Stuck {
    fn drop(self) {
        let Stuck { takes: _takes } = self;
    }
}

impl io::Write for Stuck {
    fn write(&mut self, piece: &[u8]) -> io::Result<usize> {
        Ok(if self.takes { piece.len() } else { 0 })
    }

    fn flush(&mut self) -> io::Result<()> {
        Err(io::Error::from(io::ErrorKind::BrokenPipe))
    }
}
