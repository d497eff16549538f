//! Lines of bounded length, read one by one from any reader.
//!
//! `read_line` takes one line from a reader, into memory that the caller lends for line after line.
//! `specs/Reading` defines what it takes, and what is lost if it fails; `specs/Lines` defines which
//! line is the first that is too long. `next_line` does the same into memory of the line's own, and
//! `next_whole_line` takes a line as it is, with its line feed (`specs/Whole`).
//!
//! `write_bytes` writes bytes whole, or a prefix of them (`specs/Written`). `Flush` is a writer of
//! which is known whether it keeps bytes back.
#![tactic(auto)]

mod fault;
mod flush;
mod line;
mod whole;
mod writer;

pub use fault::{LineFault, WriteFault};
pub use flush::Flush;
pub use line::{Found, Line, next_line, read_line};
pub use whole::{WholeLine, next_whole_line};
pub use writer::{NotWritten, write_bytes};
