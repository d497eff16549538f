//! The command line of the program: what its arguments request.
//!
//! Modules, in the order of reading: `parser` (the command line as `clap` reads it), `texts` (what
//! help says), `help` (which help is requested, and its text), `command` (what was found, as a
//! command), `words` (the commands that move features and batches), `explain` (what is wrong with
//! arguments that are not a command).
#![tactic(auto)]

mod command;
mod explain;
mod help;
mod parser;
mod texts;
mod words;

pub use command::{
    Command, CommandFault, Connections, Import, help_is_requested, read_command,
    version_is_requested,
};
pub use explain::{is_explained, usage_sentence};
pub use help::{Topic, help_text};
pub use parser::VERSION;
pub use words::{GuardArgument, JournalArguments, LoadArguments};
