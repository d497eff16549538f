//! What no clause says of the tables and of the keeper over them: that they are created beside
//! others, that each keeper answers the rows of HTTP, and what a crash at each call of the files
//! leaves, for batches and for the migration of format 1. Tests of what the built program shows of
//! a file are in `tests/groups/`.
#![tactic(auto)]

#[cfg(test)]
mod adoption;
#[cfg(test)]
mod answers;
#[cfg(test)]
mod crashes;
#[cfg(test)]
mod files;
#[cfg(test)]
mod http_rows;
#[cfg(test)]
mod keepers;
#[cfg(test)]
mod rows;
#[cfg(test)]
mod states;
