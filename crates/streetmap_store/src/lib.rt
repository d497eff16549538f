//! The keeper over the tables of a connection, and over the files at a path.
//!
//! `TableKeeper` keeps a state in four tables, and implements `Keeper`, `Outlined`, `Tagged`,
//! `KeepsBatches` and `Durable`: each batch is one transaction, and reads read rows. `make` makes
//! the tables with the opening state, `adopt` opens existing tables, and `release` returns the
//! connection. A failure of the store shuts it.
//!
//! `create` makes the tables with the opening state in the database at a path, and `open` opens
//! those that it has. Both are proved for whatever the files held (`Start`): files that hold the
//! tables of a state are kept at that state, and the contracts say which files are refused for
//! which fault. A database is two files, the one at the path and its log beside it (`-wal`); while
//! a keeper has them, SQLite finds them locked.
//!
//! Modules, in the order of reading: `keys`, `keeper`; `fault`, `connection`, `file`, `laws`.
#![tactic(auto)]

mod connection;
mod fault;
mod file;
mod keeper;
mod keys;
pub mod laws;

pub use fault::Left;
pub use file::{FileKeeper, FilesLeft, create, open};
pub use keeper::{TableKeeper, what_a_crash_leaves_opens};
pub use streetmap_tables::{CreateFault, OpenFault};
