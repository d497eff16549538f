//! The rows of collections.
ghost use Rattle.std.specs.Prelude.{◌≡◌, ◌↔◌, IsTrue, IfOk, MatchResult, option_map};
ghost use Rattle.std.specs.Prelude.{string_bytes};
ghost use Rattle.std.specs.Option.{option_copied};
ghost use Rattle.streetmap_batch.specs.Text.{Text};
ghost use Rattle.streetmap_batch.specs.BatchFacts.{IsTimePropertyIf};
ghost use Rattle.streetmap_reading.specs.FoldEffects.{Refuses};
ghost use Rattle.streetmap_checking.specs.Good.{CollectionHead, head_cells, IsCollectionHead};
ghost use Rattle.streetmap_checking.specs.Held.{last_key, known};
ghost use Rattle.streetmap_checking.specs.KnownCollections.{known_of};

use crate::cells::follows;
use sqlite::Row;
use std::alloc::AllocError;
use streetmap_batch::{is_collection_id, is_time_property, is_title};
use streetmap_reading::{RowFold, text_at, text_if_at};
use streetmap_rows::ReadFault;

/// What is kept of a collection while its features are checked.
#[derive(Drop)]
pub struct Head {
    pub id: String,
    /// The property that the times of its features are read from.
    pub time: Option<String>,
}

/// What is kept of the collections whose rows were read.
#[derive(Drop)]
pub struct CollectionRows {
    pub heads: Vec<Head>,
}

/// A copy of a text, if any.
fn copy_if(text: &Option<String>) -> Result<Option<String>, AllocError>
    ensures { IfOk result (λ copy. option_map string_bytes copy
        ≡ option_map string_bytes text.now) }
{
    match text {
        Some(text) => Ok(Some(text.clone()?)),
        None => Ok(None),
    }
}

/// A copy.
pub fn copy_of(head: &Head) -> Result<Head, AllocError>
    ensures { IfOk result (λ copy. known_of copy ≡ known_of head.now) }
{
    let id = head.id.clone()?;
    let time = copy_if(&head.time)?;
    Ok(Head { id, time })
}

/// Whether a text may name a time property, if one is given.
fn is_property(time: &Option<String>) -> bool
    ensures { IsTrue result ↔ IsTimePropertyIf (option_map string_bytes time.now) }
{
    match time {
        Some(name) => is_time_property(name.as_str()),
        None => true,
    }
}

/// What is kept of the collection of a row.
fn head_in(row: &Row) -> Result<Head, ReadFault>
    ensures { MatchResult result (λ head. (title : Text)
        × (row.now ≡ head_cells (string_bytes head.id)
        (record { title = title; time = option_map string_bytes head.time }))
        × IsCollectionHead (string_bytes head.id)
        (record { title = title; time = option_map string_bytes head.time }))
        (Refuses ((name : Text) (h : CollectionHead) → row.now ≡ head_cells name h
        → IsCollectionHead name h → ⊥)) }
{
    if row.column_count() != 3 {
        return Err(ReadFault::Unread);
    }
    let id = text_at(row, 0)?;
    let title = text_at(row, 1)?;
    let time = text_if_at(row, 2)?;
    if is_collection_id(id.as_str()) && is_title(title.as_str()) && is_property(&time) {
        Ok(Head { id, time })
    } else {
        Err(ReadFault::Unread)
    }
}

/// The id of the last.
fn last_id(heads: &[Head]) -> Option<&str>
    ensures { option_copied result ≡ last_key (known heads.now) }
{
    match heads.last() {
        Some(head) => Some(head.id.as_str()),
        None => None,
    }
}

impl RowFold for CollectionRows {
    ghost use Rattle.streetmap_checking.specs.Held.{HoldsCollectionRows, IsGoodCollections};

    ghost holds = { HoldsCollectionRows };

    ghost is_good = { IsGoodCollections };

    fn take(&mut self, row: &Row) -> Result<(), ReadFault> {
        let head = head_in(row)?;
        if !follows(last_id(self.heads.as_slice()), head.id.as_str()) {
            return Err(ReadFault::Unread);
        }
        self.heads.push(head)?;
        Ok(())
    }
}
