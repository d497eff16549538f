//! The collections of two keepers.
ghost use Rattle.std.specs.Prelude.{◌≡◌, Some, None, IfOk, IfErr, IfSome, IsTrue, All, slice_get};
ghost use Rattle.std.specs.Prelude.{option_map, string_bytes, false};
ghost use Rattle.std.specs.Bool.{Decides};
ghost use Rattle.std.specs.FinMap.{get, entries};
ghost use Rattle.streetmap_ledger.specs.State.{State};
ghost use Rattle.streetmap_ledger.specs.Summaries.{summary_in, summaries_in};
ghost use Rattle.streetmap_ledger.specs.SummaryView.{summary_value, summary_values};
ghost use Rattle.streetmap_ledger.specs.declared.summary.Summary.{Summary};
ghost use Rattle.streetmap_replay.specs.Alike.{AreAlike, AreSame, Compares, IsUnlike, is_named};
ghost use Rattle.streetmap_replay.specs.Calls.{AreReads};
ghost use Rattle.streetmap_replay.specs.Stops.{kept_end, fresh_end, IsStop};

use crate::fault::ReplayFault;
use crate::features::has_same_features;
use std::alloc::Global;
use streetmap_ledger::{Keeper, Summary};

/// Whether two time properties are the same.
fn is_same_property(ours: &Option<String>, theirs: &Option<String>) -> bool
    ensures { Decides result (option_map string_bytes ours.now ≡
        option_map string_bytes theirs.now) }
{
    match (ours, theirs) {
        (Some(our), Some(their)) => our.as_str() == their.as_str(),
        (None, None) => true,
        _ => false,
    }
}

/// Whether two collections are declared alike: by their titles and their time properties.
fn is_declared_alike(ours: &Summary, theirs: &Summary) -> bool
    ensures { Decides result (AreAlike (summary_value ours.now) (summary_value theirs.now)) }
{
    ours.title.as_str() == theirs.title.as_str() && is_same_property(&ours.time, &theirs.time)
}

/// Whether a collection of the first keeper, of which it returned this, is the same in the second.
fn is_alike<K: Keeper, L: Keeper>(
    alloc: Global,
    keeper: &mut K,
    fresh: &mut L,
    ours: &Summary,
) -> Result<bool, ReplayFault>
    ensures kept { AreReads K.model keeper.old keeper.new (kept_end result) }
    ensures fresh { AreReads L.model fresh.old fresh.new (fresh_end result) }
    ensures stop { IfErr result IsStop }
    ensures compares { K.model.is_clean keeper.new → L.model.is_clean fresh.new → (s t : State) →
        K.model.represents keeper.old s → L.model.represents fresh.old t →
        summary_in s (string_bytes ours.now.id) ≡ Some (summary_value ours.now) →
        IfOk result (λ same. Decides same (get s.collections (string_bytes ours.now.id) ≡
        get t.collections (string_bytes ours.now.id))) }
{
    match fresh.collection(ours.id.as_str()) {
        Ok(Some(theirs)) => {
            if is_declared_alike(ours, &theirs) {
                has_same_features(alloc, keeper, fresh, ours.id.as_str())
            } else {
                Ok(false)
            }
        }
        Ok(None) => Ok(false),
        Err(fault) => Err(ReplayFault::Fresh(fault)),
    }
}

/// The fault that a collection differs, unless memory for its id runs out.
fn unlike(alloc: Global, name: &str) -> ReplayFault
    ensures { IsUnlike name.now result }
{
    match String::from_str(alloc, name) {
        Ok(name) => ReplayFault::Collection(name),
        Err(_) => ReplayFault::Memory,
    }
}

/// Compares the collections of the first keeper, which returned these, with those of the second, in
/// order, up to the first that differs.
fn compare_each<K: Keeper, L: Keeper>(
    alloc: Global,
    keeper: &mut K,
    fresh: &mut L,
    ours: &[Summary],
) -> Result<(), ReplayFault>
    ensures kept { AreReads K.model keeper.old keeper.new (kept_end result) }
    ensures fresh { AreReads L.model fresh.old fresh.new (fresh_end result) }
    ensures compares { K.model.is_clean keeper.new → L.model.is_clean fresh.new → (s t : State) →
        K.model.represents keeper.old s → L.model.represents fresh.old t →
        summary_values ours.now ≡ summaries_in s →
        Compares s t (AreSame s t (entries s.collections)) result }
{
    for summary in ours {
        match is_alike(alloc, keeper, fresh, summary) {
            Ok(true) => {}
            Ok(false) => return Err(unlike(alloc, summary.id.as_str())),
            Err(fault) => return Err(fault),
        }
    }
    Ok(())
}

/// Whether one of the collections has this id.
fn is_among(name: &str, summaries: &[Summary]) -> bool
    ensures { result ≡ is_named name.now summaries.now }
{
    summaries.iter().any(|summary| summary.id.as_str() == name)
}

/// The place of a collection that is none of the others.
fn find_other(theirs: &[Summary], ours: &[Summary]) -> Option<usize>
    ensures found { IfSome result (λ place. (other : Summary) × (slice_get theirs.now place ≡
        Some other) × (is_named (string_bytes other.id) ours.now ≡ false)) }
    ensures none { result ≡ None → All (λ other. IsTrue (is_named (string_bytes other.id)
        ours.now)) theirs.now }
{
    for place in 0..theirs.len() {
        if !is_among(theirs[place].id.as_str(), ours) {
            return Some(place);
        }
    }
    None
}

/// Compares the collections of two keepers: their titles, their time properties and their features.
///
/// # Errors
///
/// `Collection` with the id of the first collection of the first keeper that differs in the second,
/// or else of one that only the second has; `Stopped` with the fault of a keeper, or with `Memory`.
pub fn compare_collections<K: Keeper, L: Keeper>(
    alloc: Global,
    keeper: &mut K,
    fresh: &mut L,
) -> Result<(), ReplayFault>
    ensures kept { AreReads K.model keeper.old keeper.new (kept_end result) }
    ensures fresh { AreReads L.model fresh.old fresh.new (fresh_end result) }
    ensures compares { K.model.is_clean keeper.new → L.model.is_clean fresh.new → (s t : State) →
        K.model.represents keeper.old s → L.model.represents fresh.old t →
        Compares s t (s.collections ≡ t.collections) result }
{
    let ours = match keeper.collections() {
        Ok(ours) => ours,
        Err(fault) => return Err(ReplayFault::Kept(fault)),
    };
    let theirs = match fresh.collections() {
        Ok(theirs) => theirs,
        Err(fault) => return Err(ReplayFault::Fresh(fault)),
    };
    match compare_each(alloc, keeper, fresh, ours.as_slice()) {
        Ok(()) => match find_other(theirs.as_slice(), ours.as_slice()) {
            Some(place) => Err(unlike(alloc, theirs[place].id.as_str())),
            None => Ok(()),
        },
        Err(fault) => Err(fault),
    }
}
