//! The program's formats, and the program over any streams: the text of a table, the text of a request, and the text of the rows
//! that answer it.
#![tactic(auto)]

mod batches;
mod options;
mod program;
mod request;
mod table_text;

pub use batches::rows_text;
pub use options::{Encode, Options};
pub use program::{query, refuse_words};
pub use request::{RequestError, request_of};
pub use table_text::{TableTextError, table_of};
pub use vortex_streams::{
    ByteSink, ByteSource, Failed, MemoryInput, MemoryOutput, PlainInput, PlainOutput, ReadError,
    StdErrors, StdInput, StdOutput, read_all, write_all,
};
