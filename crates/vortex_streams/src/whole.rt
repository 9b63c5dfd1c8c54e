// All bytes of an input, and all bytes to an output.
ghost use Rattle.std.specs.Prelude.{◌≡◌, ◌≤◌, ◌<◌, length, IfOk, OnOk, OnErr, IsErrOf, IfSome};
ghost use Rattle.std.specs.Io.KnownBytes.{Appends, IsAtEnd};
ghost use Rattle.std.specs.Vec.{vec_len};
ghost use Rattle.vortex_buffer.specs.Counts.{Faulted, HasCause};
ghost use Rattle.vortex_streams.specs.Known.{AppendsFront, ConsumesFront, ConsumesMoreThan};
ghost use Rattle.vortex_streams.specs.declared.whole.ReadError.TheVariants.{ReadFault, TooLong};

use crate::{ByteSink, ByteSource, Failed};
use std::alloc::{AllocError, Global};
use thiserror::Error;
use vortex_buffer::Buffer;

/// The most bytes that `read_all` keeps.
pub const READ_LIMIT: usize = 67_108_864;

// How many bytes are asked for in one read. The buffer is on the heap, since a large frame costs at each entry.
const READ_SIZE: usize = 65_536;

/// Why not all bytes were read.
#[derive(Clone, Copy, Debug, PartialEq, Eq, Error)]
pub enum ReadError {
    /// The input failed.
    #[error("the input failed")]
    ReadFault,
    /// The input has more than `READ_LIMIT` bytes.
    #[error("the input has more than 67108864 bytes")]
    TooLong,
    /// Memory ran out.
    #[error("out of memory")]
    OutOfMemory,
}

/// All bytes that are left, `READ_LIMIT` at most. A refusal leaves what the reads until then have not taken: `ReadFault` comes
/// only from a failure of the input, and `TooLong` only after more than `READ_LIMIT` bytes.
pub fn read_all<I: ByteSource>(alloc: Global, input: &mut I) -> Result<Buffer<u8>, ReadError>
    ensures all { IfOk result (λ bytes. IfSome (I.left input.old) (λ told. bytes ≡ told)) }
    ensures end { OnOk result (IsAtEnd (I.left input.new)) }
    ensures short { IfOk result (λ bytes. length bytes ≤ READ_LIMIT) }
    ensures read_fault { IsErrOf result ReadFault → Faulted (I.faults input.old) (I.faults input.new) }
    ensures too_long { IsErrOf result TooLong → ConsumesMoreThan (I.left input.old) (I.left input.new) READ_LIMIT }
    ensures consumed { ConsumesFront (I.left input.old) (I.left input.new) }
    ensures later { I.faults input.old ≤ I.faults input.new }
{
    let Ok(mut buffer) = zeros(alloc, READ_SIZE) else {
        return Err(ReadError::OutOfMemory);
    };
    read_through(alloc, input, &mut buffer, READ_LIMIT)
}

fn zeros(alloc: Global, size: usize) -> Result<Vec<u8>, AllocError>
    ensures { IfOk result (λ zeros. vec_len zeros ≡ size) }
{
    vec![in alloc; 0u8; size]
}

// All bytes that are left, read by this buffer, `limit` at most.
#[tactic(auto, using(crate::proofs::Fronts::front_consumed, crate::proofs::Fronts::more_than))]
fn read_through<I: ByteSource>(
    alloc: Global,
    input: &mut I,
    buffer: &mut [u8],
    limit: usize,
) -> Result<Buffer<u8>, ReadError>
    requires { 0 < length buffer.old }
    ensures all { IfOk result (λ bytes. IfSome (I.left input.old) (λ told. bytes ≡ told)) }
    ensures end { OnOk result (IsAtEnd (I.left input.new)) }
    ensures short { IfOk result (λ bytes. length bytes ≤ limit) }
    ensures read_fault { IsErrOf result ReadFault → Faulted (I.faults input.old) (I.faults input.new) }
    ensures too_long { IsErrOf result TooLong → ConsumesMoreThan (I.left input.old) (I.left input.new) limit }
    ensures consumed { ConsumesFront (I.left input.old) (I.left input.new) }
    ensures later { I.faults input.old ≤ I.faults input.new }
{
    let mut bytes = Vec::new(alloc);
    loop {
        let Ok(n) = input.read(buffer) else {
            return Err(ReadError::ReadFault);
        };
        if n == 0 {
            return Ok(Buffer::from_vec(bytes));
        }
        if n > limit - bytes.len() {
            return Err(ReadError::TooLong);
        }
        if bytes.extend_from_slice(&buffer[..n]).is_err() {
            return Err(ReadError::OutOfMemory);
        }
    }
}

/// Hands over all bytes, in as many pieces as the output makes of them. A failure ends it at once: the output then took a
/// front of the bytes, and none twice. It takes no memory.
#[tactic(auto, using(crate::proofs::Fronts::appended_more))]
pub fn write_all<O: ByteSink>(output: &mut O, bytes: &[u8]) -> Result<(), Failed>
    ensures all { OnOk result (Appends (O.taken output.old) (O.taken output.new) bytes.now) }
    ensures front { OnErr result (AppendsFront (O.taken output.old) (O.taken output.new) bytes.now) }
    ensures cause { HasCause (O.faults output.old) (O.faults output.new) result }
{
    let mut at = 0;
    while at < bytes.len() {
        at += output.write(&bytes[at..])?;
    }
    Ok(())
}
