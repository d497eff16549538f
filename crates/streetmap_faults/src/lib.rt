//! What the program prints if it does not finish, and the status that it ends with.
//!
//! A command that does not finish ends with a [`ProgramFault`]. Its line on standard error is
//! `streetmap: ` and the name of the fault, then the line of batches at fault, the place of the
//! feature or edit at fault, and what is wrong with that feature, if it has them. A second line is
//! its [`Sentence`], for people (`specs/ProgramFaults`).
//!
//! `table` has each name, exit status and sentence once; `report` and `said` (`specs/Reports`,
//! `specs/ProgramFaults`) say which of them are a fault's.
#![tactic(auto)]

mod fault;
mod report;
mod said;
mod table;

pub use fault::ProgramFault;
pub use report::Report;
pub use said::Sentence;
