//! What is known of a collection, learnt from a keeper.
ghost use Rattle.streetmap_ledger.specs.Keep.{IsRead};
ghost use Rattle.streetmap_index.specs.Index.{Learns, LearnsUnder};

use crate::outlined::OutlinedCollection;
use std::alloc::Global;
use streetmap_ledger::{Fault, Outlined};
use streetmap_outlines::Chunks;

/// The outlines of a keeper's collection, with its title and the property that the times are read
/// from; none if the collection does not exist.
fn learn_outlines<K: Outlined>(
    alloc: Global,
    keeper: &mut K,
    collection: &str,
    title: String,
    time: Option<String>,
) -> Result<Option<OutlinedCollection>, Fault>
    ensures { IsRead K.model keeper.old keeper.new result
        (LearnsUnder collection.now title time) }
{
    match keeper.outlines(collection) {
        Ok(Some(outlines)) => match Chunks::new(alloc, outlines) {
            Ok(outlines) => Ok(Some(OutlinedCollection {
                title,
                time,
                outlines,
            })),
            Err(_) => Err(Fault::Memory),
        },
        Ok(None) => Ok(None),
        Err(fault) => Err(fault),
    }
}

/// What is known of a keeper's collection; none if the collection does not exist.
pub fn learn<K: Outlined>(
    alloc: Global,
    keeper: &mut K,
    collection: &str,
) -> Result<Option<OutlinedCollection>, Fault>
    ensures { IsRead K.model keeper.old keeper.new result (Learns collection.now) }
{
    match keeper.collection(collection) {
        Ok(Some(summary)) => {
            learn_outlines(alloc, keeper, collection, summary.title, summary.time)
        }
        Ok(None) => Ok(None),
        Err(fault) => Err(fault),
    }
}
