//! The features of a collection in two keepers.
ghost use Rattle.std.specs.Prelude.{◌≡◌, Some, IfOk, IfErr};
ghost use Rattle.std.specs.Bool.{Decides};
ghost use Rattle.std.specs.FinMap.{get, values};
ghost use Rattle.streetmap_ledger.specs.PageView.{page_value};
ghost use Rattle.streetmap_ledger.specs.State.{State, Collection};
ghost use Rattle.streetmap_query.specs.Views.{query_value};
ghost use Rattle.streetmap_replay.specs.Alike.{PagesEndAs, SameText, part_query};
ghost use Rattle.streetmap_replay.specs.Calls.{AreReads};
ghost use Rattle.streetmap_replay.specs.Stops.{kept_end, fresh_end, IsStop};

use crate::fault::ReplayFault;
use std::alloc::{AllocError, Global};
use streetmap_feature_text::collection_text;
use streetmap_geojson::Id;
use streetmap_ledger::{Keeper, Page};
use streetmap_query::Query;

/// The result of comparing two pages from the same place.
#[derive(Drop)]
enum PageEnd {
    /// They differ.
    Unlike,
    /// They are the same, and the last.
    Last,
    /// They are the same, and more features follow after this id.
    Next(Id),
}

/// The query for a page of a thousand features after an id.
fn query_after(after: Option<Id>) -> Query
    ensures { query_value result ≡ part_query after }
{
    Query {
        bbox: None,
        datetime: None,
        limit: 1000,
        after,
    }
}

/// The last id of a page, if more features follow.
fn next_id(page: Page) -> Option<Id>
    ensures { result ≡ (page_value page).next }
{
    let next = page.next;
    match next {
        Some(text) => match Id::new(text) {
            Ok(id) => Some(id),
            Err(_) => None,
        },
        None => None,
    }
}

/// Whether the features of two pages have the same text, as a collection.
fn has_same_text(alloc: Global, ours: &Page, theirs: &Page) -> Result<bool, AllocError>
    ensures { IfOk result (λ same. Decides same (SameText (page_value ours.now)
        (page_value theirs.now))) }
{
    let first = collection_text(alloc, ours.features.as_slice())?;
    let second = collection_text(alloc, theirs.features.as_slice())?;
    Ok(first.as_str() == second.as_str())
}

/// Compares two pages from the same place: the texts of their features, and what follows them.
fn compare_pages(alloc: Global, ours: Page, theirs: Page) -> Result<PageEnd, AllocError>
    ensures { IfOk result (PagesEndAs (page_value ours) (page_value theirs)) }
{
    if !has_same_text(alloc, &ours, &theirs)? {
        return Ok(PageEnd::Unlike);
    }
    match (next_id(ours), next_id(theirs)) {
        (None, None) => Ok(PageEnd::Last),
        (Some(our), Some(their)) => {
            if our.as_str() == their.as_str() {
                Ok(PageEnd::Next(our))
            } else {
                Ok(PageEnd::Unlike)
            }
        }
        _ => Ok(PageEnd::Unlike),
    }
}

/// Whether a collection that both keepers have, with the same time property, has the same features
/// in both: ids, geometries, properties and times. It requests pages of a thousand features from
/// each.
pub(crate) fn has_same_features<K: Keeper, L: Keeper>(
    alloc: Global,
    keeper: &mut K,
    fresh: &mut L,
    name: &str,
) -> Result<bool, ReplayFault>
    ensures kept { AreReads K.model keeper.old keeper.new (kept_end result) }
    ensures fresh { AreReads L.model fresh.old fresh.new (fresh_end result) }
    ensures stop { IfErr result IsStop }
    ensures compares { K.model.is_clean keeper.new → L.model.is_clean fresh.new → (s t : State) →
        (c d : Collection) → K.model.represents keeper.old s → L.model.represents fresh.old t →
        get s.collections name.now ≡ Some c → get t.collections name.now ≡ Some d →
        c.time ≡ d.time →
        IfOk result (λ same. Decides same (values c.features ≡ values d.features)) }
{
    let mut after = None;
    for _turn in 0..u64::MAX {
        let query = query_after(after);
        let ours = match keeper.page(name, &query) {
            Ok(Some(page)) => page,
            Ok(None) => return Ok(false),
            Err(fault) => return Err(ReplayFault::Kept(fault)),
        };
        let theirs = match fresh.page(name, &query) {
            Ok(Some(page)) => page,
            Ok(None) => return Ok(false),
            Err(fault) => return Err(ReplayFault::Fresh(fault)),
        };
        match compare_pages(alloc, ours, theirs) {
            Ok(PageEnd::Next(id)) => after = Some(id),
            Ok(PageEnd::Last) => return Ok(true),
            Ok(PageEnd::Unlike) => return Ok(false),
            Err(_) => return Err(ReplayFault::Memory),
        }
    }
    Err(ReplayFault::Memory)
}
