//! Tests over the keeper in memory, of what no clause says and the built program cannot show, using
//! only public items: running out of memory, how many features a page examines, ids that are known
//! without reading them; heads and bodies from readers that are interrupted or fail, answers to
//! writers that stop, and memory that runs out in a stream. Tests of what the program can show are
//! in `tests/groups/`.
#![tactic(auto)]

#[cfg(test)]
mod answers;
#[cfg(test)]
mod fakes;
#[cfg(test)]
mod features;
#[cfg(test)]
mod ledger;
#[cfg(test)]
mod readers;
#[cfg(test)]
mod refused_memory;
#[cfg(test)]
mod senders;
