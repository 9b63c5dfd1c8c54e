//! Streams of bytes whose failures are counted: traits, whole reads and writes, and streams in memory, without failures, and of the system.
//! Whatever a stream does, a failure is answered only where its count tells of it, and no byte is written twice.
#![tactic(auto)]

mod memory;
mod plain;
mod streams;
mod system;
mod whole;

pub use memory::{MemoryInput, MemoryOutput};
pub use plain::{PlainInput, PlainOutput};
pub use streams::{ByteSink, ByteSource, Failed};
pub use system::{StdErrors, StdInput, StdOutput};
pub use whole::{READ_LIMIT, ReadError, read_all, write_all};
