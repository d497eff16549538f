//! Summaries of collections by what is known of them.
ghost use Rattle.std.specs.Prelude.{◌≡◌, List, Some, None, IfOk, option_map};
ghost use Rattle.std.specs.Prelude.{option_copied, string_bytes};
ghost use Rattle.streetmap_grid.specs.Bounds.{AreBounds};
ghost use Rattle.streetmap_geojson.specs.FeatureValue.{FeatureValue};
ghost use Rattle.streetmap_ledger.specs.State.{State, Collection, Features};
ghost use Rattle.streetmap_ledger.specs.WellFormed.{IsState, HoldsFeatures};
ghost use Rattle.streetmap_ledger.specs.Summaries.{all_vertices, summary_of, summaries_in};
ghost use Rattle.streetmap_ledger.specs.SummaryView.{summary_value, summary_values};
ghost use Rattle.streetmap_ledger.specs.Keep.{IsRead, IsSummaryOf, AreSummaries};
ghost use Rattle.streetmap_outlines.specs.Outlines.{joined, AreBounded};
ghost use Rattle.streetmap_index.specs.Index.{IsOutlined, IfOutlined};
ghost use Rattle.streetmap_index.specs.Index.{AreKnown, KnowsAll};
ghost use Rattle.streetmap_outlines.specs.Outlines.{Pairs};

use crate::outlined::OutlinedCollection;
use std::alloc::{AllocError, Global};
use std::collections::BTreeMap;
use streetmap_grid::GridBox;
use streetmap_ledger::{Fault, Keeper, Summary};
use streetmap_outlines::{Chunk, bounds_of_both};

/// The extent of the features with the outlines in these chunks, in millimetres; none if none has a
/// geometry.
fn extent_of(chunks: &[Chunk]) -> Option<GridBox>
    ensures { AreBounded chunks.now → (features : Features) (fs : List FeatureValue) →
        Pairs features (joined chunks.now) fs → AreBounds (all_vertices fs) result }
{
    let mut bounds = None;
    for chunk in chunks {
        bounds = bounds_of_both(bounds, chunk.bounds);
    }
    bounds
}

/// An owned copy of a text, if any.
fn owned(alloc: Global, text: Option<&str>) -> Result<Option<String>, AllocError>
    ensures { IfOk result (λ own. option_map string_bytes own ≡ option_copied text.entry) }
{
    match text {
        Some(text) => Ok(Some(String::from_str(alloc, text)?)),
        None => Ok(None),
    }
}

/// The summary of a collection by what is known of it.
fn summary(alloc: Global, id: &str, outlined: &OutlinedCollection) -> Result<Summary, AllocError>
    ensures { (c : Collection) → IsOutlined outlined.now c → HoldsFeatures c
        → IfOk result (λ made. summary_value made ≡ summary_of id.now c) }
{
    Ok(Summary {
        id: String::from_str(alloc, id)?,
        title: String::from_str(alloc, outlined.title.as_str())?,
        time: owned(alloc, outlined.time.as_deref())?,
        extent: extent_of(outlined.outlines.chunks.as_slice()),
    })
}

/// The summaries of collections by what is known of them, in byte order of ids.
fn summaries(
    alloc: Global,
    known: &BTreeMap<String, OutlinedCollection>,
) -> Result<Vec<Summary>, AllocError>
    ensures { (s : State) → IsState s → AreKnown known.now.entries s
        → KnowsAll known.now.entries s
        → IfOk result (λ made. summary_values made.items ≡ summaries_in s) }
{
    let mut made = Vec::new(alloc);
    for (id, outlined) in known.iter() {
        made.push(summary(alloc, id.as_str(), outlined)?)?;
    }
    Ok(made)
}

/// The summary of a keeper's collection by what is known of it.
pub(crate) fn collection_with<K: Keeper>(
    alloc: Global,
    keeper: &K,
    id: &str,
    outlined: &OutlinedCollection,
) -> Result<Option<Summary>, Fault>
    ensures { IsRead K.model keeper.now keeper.now result
        (IfOutlined outlined.now id.now (IsSummaryOf id.now)) }
{
    if !keeper.is_open() {
        return Err(Fault::Reopen);
    }
    match summary(alloc, id, outlined) {
        Ok(summary) => Ok(Some(summary)),
        Err(_) => Err(Fault::Memory),
    }
}

/// The summaries of all collections of a keeper by what is known of them, in byte order of ids.
pub(crate) fn collections_with<K: Keeper>(
    alloc: Global,
    keeper: &K,
    known: &BTreeMap<String, OutlinedCollection>,
) -> Result<Vec<Summary>, Fault>
    ensures { IsRead K.model keeper.now keeper.now result (λ s made.
        AreKnown known.now.entries s → KnowsAll known.now.entries s → AreSummaries s made) }
{
    if !keeper.is_open() {
        return Err(Fault::Reopen);
    }
    match summaries(alloc, known) {
        Ok(summaries) => Ok(summaries),
        Err(_) => Err(Fault::Memory),
    }
}
