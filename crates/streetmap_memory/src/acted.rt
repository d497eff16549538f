//! The result of an edit.
use crate::undo::Undo;
use streetmap_ledger::Refusal;

#[derive(Drop)]
pub enum Acted<'a> {
    /// It is done, and this takes it back.
    Done(Undo<'a>),
    Refused(Refusal),
}
