//! A page by outlines.
ghost use Rattle.std.specs.Prelude.{◌≡◌, ◌∷◌, ◌++◌, [], List, Some, None, IsTrue, true, false};
ghost use Rattle.streetmap_geojson.specs.FeatureValue.{FeatureValue};
ghost use Rattle.streetmap_geojson.specs.FeatureInvariant.{IsFeature};
ghost use Rattle.streetmap_query.specs.Views.{query_value};
ghost use Rattle.streetmap_ledger.specs.Pages.{is_candidate as is_candidate_of};
ghost use Rattle.streetmap_ledger.specs.Folds.{IsFoldOf, HoldsCandidates, IsFull};
ghost use Rattle.streetmap_ledger.specs.Keep.{IsRead, IsPageOf};
ghost use Rattle.streetmap_outlines.specs.Chunks.{AreInOrder};
ghost use Rattle.streetmap_outlines.specs.Outlines.{IsOutlineOf, IsBounded};
ghost use Rattle.streetmap_index.specs.Index.{IfOutlined};
ghost use Rattle.streetmap_outlines.specs.Selections.{TakesChunk};
ghost use Rattle.streetmap_index.specs.OutlinePages.{TakesOutlined, IsOutlinedPage};

use crate::outlined::OutlinedCollection;
use crate::run::{run_length, take_run};
use std::alloc::Global;
use streetmap_ledger::{Fault, FeatureOutline, Outlined, Page, PageFold};
use streetmap_outlines::{
    Chunk, Chunks, all_come_after, comes_after, count_selected, is_candidate, is_passed_over,
    is_selected, is_unmarked, lies_outside, window_of,
};
use streetmap_query::Query;

/// How many features a page reads one by one at most. It shows up to 1,000, and the keeper's own
/// page is faster if many more have to be read to be tested.
const MOST_READ: usize = 2000;

/// Counts the next candidate if its outline shows that it is selected and the page does not show
/// it, and returns whether it did.
fn count_unread(query: &Query, fold: &mut PageFold<'_>, outline: &FeatureOutline) -> bool
    ensures counted { IsTrue result → (fs : List FeatureValue) (f : FeatureValue)
        → IsOutlineOf outline.now f → IsFeature f → IsFoldOf (query_value query.now) fold.old fs
        → IsFoldOf (query_value query.now) fold.new (fs ++ f ∷ []) }
    ensures unchanged { result ≡ false → fold.new ≡ fold.old }
{
    if !is_selected(query, outline) {
        return false;
    }
    let following = comes_after(query, outline);
    if following && !fold.is_full() {
        return false;
    }
    fold.count_hidden(following);
    true
}

/// Takes the next feature if its outline says enough, and returns whether it did. Otherwise the
/// feature is a candidate, and has to be taken itself.
fn take_unread(query: &Query, fold: &mut PageFold<'_>, outline: &FeatureOutline) -> bool
    ensures taken { IsTrue result → (fs : List FeatureValue) (f : FeatureValue)
        → IsOutlineOf outline.now f → IsFeature f
        → HoldsCandidates (query_value query.now) fold.old fs
        → HoldsCandidates (query_value query.now) fold.new (fs ++ f ∷ []) }
    ensures unchanged { result ≡ false → fold.new ≡ fold.old }
    ensures candidate { result ≡ false → (f : FeatureValue) → IsOutlineOf outline.now f
        → is_candidate_of (query_value query.now) f ≡ true }
{
    !is_candidate(query, outline) || count_unread(query, fold, outline)
}

/// Whether a page shows none of the next features: those that do not come after the query's id, and
/// those that do once the page is full.
fn hides(fold: &PageFold<'_>, following: bool) -> bool
    ensures { IsTrue result → IsTrue following → IsFull fold.now }
{
    !following || fold.is_full()
}

/// Counts the next features, which are those of a chunk, if the chunk says how many the query
/// selects and the page shows none of them, and returns whether it did.
fn count_chunk(query: &Query, fold: &mut PageFold<'_>, chunk: &Chunk) -> bool
    ensures counted { IsTrue result → IsBounded chunk.now →
        AreInOrder chunk.now.outlines.items →
        TakesChunk (query_value query.now) chunk.now fold.old fold.new }
    ensures unchanged { result ≡ false → fold.new ≡ fold.old }
{
    let Some(following) = all_come_after(query, chunk) else {
        return false;
    };
    if !hides(fold, following) {
        return false;
    }
    match count_selected(query, chunk) {
        Some(count) => {
            fold.count_all_hidden(count, following);
            true
        }
        None => false,
    }
}

/// How many features a page shows at most after the next one, if it has read this many: no fewer if
/// each of these is shown.
fn room_after(query: &Query, read: usize) -> usize {
    (query.limit as usize)
        .saturating_sub(read)
        .saturating_sub(1)
}

/// Takes the next features, which are those with a chunk's outlines, and returns whether it did:
/// not if one of them does not exist, or one more than `MOST_READ` would have to be read. `read`
/// counts those that were read.
fn take_outlined<K: Outlined>(
    alloc: Global,
    keeper: &mut K,
    collection: &str,
    chunk: &Chunk,
    query: &Query,
    fold: &mut PageFold<'_>,
    read: &mut usize,
) -> Result<bool, Fault>
    requires { K.model.cause keeper.old ≡ None }
    ensures { IsRead K.model keeper.old keeper.new result
        (TakesOutlined collection.now (query_value query.now) chunk.now fold.old fold.new) }
{
    let window = window_of(query);
    let extents = chunk.extents.as_slice();
    let outlines = chunk.outlines.as_slice();
    let mut place = 0;
    while place < outlines.len() {
        let outline = &outlines[place];
        if lies_outside(window, extents, place) {
            place += 1;
            continue;
        }
        if take_unread(query, fold, outline) {
            place += 1;
            continue;
        }
        if *read >= MOST_READ {
            return Ok(false);
        }
        let more = run_length(query, &outlines[place + 1..], room_after(query, *read));
        let end = place + 1 + more;
        *read = read.saturating_add(1 + more);
        match take_run(alloc, keeper, collection, &outlines[place..end], fold) {
            Ok(true) => place = end,
            Ok(false) => return Ok(false),
            Err(fault) => return Err(fault),
        }
    }
    Ok(true)
}

/// The page of an open keeper's collection by the outlines of its features; none if one of these
/// does not exist, or more than `MOST_READ` would have to be read.
fn page_by_outlines<K: Outlined>(
    alloc: Global,
    keeper: &mut K,
    collection: &str,
    outlines: &Chunks,
    query: &Query,
) -> Result<Option<Page>, Fault>
    requires { K.model.cause keeper.old ≡ None }
    ensures { IsRead K.model keeper.old keeper.new result
        (IsOutlinedPage collection.now (query_value query.now) outlines.now) }
{
    let mut fold = PageFold::new(alloc, query);
    let mut read: usize = 0;
    let found = outlines.marks(alloc, query);
    let marks = found.as_ref();
    let chunks = outlines.chunks.as_slice();
    for chunk in chunks {
        if is_unmarked(marks, chunk) {
            continue;
        }
        if is_passed_over(query, chunk) {
            continue;
        }
        if count_chunk(query, &mut fold, chunk) {
            continue;
        }
        match take_outlined(
            alloc, keeper, collection, chunk, query, &mut fold, &mut read,
        ) {
            Ok(true) => {}
            Ok(false) => return Ok(None),
            Err(fault) => return Err(fault),
        }
    }
    match fold.end(alloc) {
        Ok(page) => Ok(Some(page)),
        Err(_) => Err(Fault::Memory),
    }
}

/// The page of a collection by what is known of it.
pub(crate) fn page_with<K: Outlined>(
    alloc: Global,
    keeper: &mut K,
    collection: &str,
    outlined: &OutlinedCollection,
    query: &Query,
) -> Result<Option<Page>, Fault>
    ensures { IsRead K.model keeper.old keeper.new result
        (IfOutlined outlined.now collection.now (IsPageOf collection.now query.now)) }
{
    if !keeper.is_open() {
        return Err(Fault::Reopen);
    }
    match page_by_outlines(alloc, keeper, collection, &outlined.outlines, query) {
        Ok(Some(page)) => Ok(Some(page)),
        Ok(None) => keeper.page(collection, query),
        Err(fault) => Err(fault),
    }
}
