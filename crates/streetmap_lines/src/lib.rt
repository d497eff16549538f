//! The protocol of `streetmap lines`: a ledger in memory that is read and changed by lines of text.
//!
//! `read_request` reads the request of a line, `answer_line` answers it over a keeper in memory,
//! and `lines` answers all lines of a reader, in order, on a writer. The answer to a line is a JSON
//! value of the state that the keeper represents (`specs/Answers`); the output for a whole input is
//! `specs/Lines`.
//!
//! Modules, in the order of reading: `fault`, `request`, `answer`, `input`.
#![tactic(auto)]

mod answer;
mod fault;
mod input;
mod request;

pub use answer::answer_line;
pub use fault::LinesFault;
pub use input::{MAX_LINE, lines};
pub use request::{Request, read_request};
