//! The options of a load.
ghost use Rattle.std.specs.Prelude.{◌≤◌, IsTrue, length, string_bytes};
ghost use Rattle.streetmap_batch.specs.Names.{is_key, is_collection_id};

use crate::load_fault::LoadFault;
use crate::opened_collection::read_opening;
use crate::rules::{FeatureRules, HeldTimes};
use crate::source::PlacedEdit;
use std::alloc::Global;
use streetmap_batch::{is_collection_id, is_key};
use streetmap_placing::Numbers;

/// The most bytes of a load's key, which leaves room for any number after it.
pub const MAX_KEY: usize = 44;

/// The opening of a collection: its title, which is its id if none is given, and the property that
/// the times of its features are read from.
#[derive(Clone, Copy)]
pub struct Opening<'a> {
    pub title: Option<&'a str>,
    pub time: Option<&'a str>,
}

/// The options of a load.
#[derive(Clone, Copy)]
pub struct LoadOptions<'a> {
    /// The key of its batches, without the number after it.
    pub key: &'a str,
    /// The most edits in a batch.
    pub each: usize,
    /// The collection of the features.
    pub collection: &'a str,
    /// Each replaces the feature with its id.
    pub replace: bool,
    /// How the numbers of features are read.
    pub numbers: Numbers,
    /// The collection is opened first.
    pub opening: Option<Opening<'a>>,
}

/// A load that can begin.
#[derive(Drop)]
pub struct Load {
    pub key: String,
    pub each: usize,
    pub rules: FeatureRules,
    pub opening: Option<PlacedEdit>,
    pub ghost named: { IsTrue (is_key (string_bytes key)) },
    pub ghost short: { length (string_bytes key) ≤ 44 },
    pub ghost some: { 1 ≤ each },
    pub ghost most: { each ≤ 10000 },
}

impl Load {
    ghost use Rattle.streetmap_loading.specs.Options.{AsRequested, load_of, load_value, skipping};
    ghost use Rattle.streetmap_loading.specs.TextView.{property_of};
    ghost use Rattle.std.specs.Prelude.{◌≡◌};

    /// The load with these options. It skips no fault.
    ///
    /// # Errors
    ///
    /// `BadKey` if the key is not valid or has more than 44 bytes; then `BadCount`, if a batch is
    /// to have no edit or more than 10,000; then `BadBatch`, if a name of the collection is not
    /// valid.
    pub fn new(alloc: Global, options: LoadOptions<'_>) -> Result<Load, LoadFault>
        ensures { AsRequested load_value result (load_of options.entry) }
    {
        if !is_key(options.key) || options.key.len() > MAX_KEY {
            return Err(LoadFault::BadKey);
        }
        if options.each == 0 || options.each > 10_000 {
            return Err(LoadFault::BadCount);
        }
        if !is_collection_id(options.collection) {
            return Err(LoadFault::BadBatch);
        }
        let opening = read_opening(alloc, options.collection, options.opening)?;
        let key = String::from_str(alloc, options.key)?;
        let collection = String::from_str(alloc, options.collection)?;
        let rules = FeatureRules {
            collection,
            replace: options.replace,
            numbers: options.numbers,
            skip: None,
        };
        Ok(Load {
            key,
            each: options.each,
            rules,
            opening,
        })
    }

    /// The same load, which skips features at fault, and requires that times can be read from a
    /// property.
    pub fn skipping(self, times: HeldTimes) -> Load
        ensures { load_value result ≡ skipping (load_value self) (property_of times) }
    {
        let Load {
            key,
            each,
            rules,
            opening,
        } = self;
        let FeatureRules {
            collection,
            replace,
            numbers,
            skip: _,
        } = rules;
        let rules = FeatureRules {
            collection,
            replace,
            numbers,
            skip: Some(times),
        };
        Load {
            key,
            each,
            rules,
            opening,
        }
    }
}
