//! Edits, whose types keep the rules of the names in them.
ghost use Rattle.std.specs.Prelude.{◌≡◌, All, IsTrue, IfOk, string_bytes};
ghost use Rattle.streetmap_batch.specs.Names.{is_collection_id, is_title, is_time_property};
ghost use Rattle.streetmap_batch.specs.Names.{passing};
ghost use Rattle.streetmap_batch.specs.BatchFacts.{IsSoundEdit};
ghost use Rattle.streetmap_batch.specs.BatchFaults.{Gives};
ghost use Rattle.streetmap_batch.specs.ParsedBatches.{collection_in};
ghost use Rattle.streetmap_batch.specs.BatchView.{edit_value};

use crate::batch_fault::BatchFault;
use crate::names::{is_collection_id, is_time_property, is_title};
use std::alloc::{AllocError, Global};
use std::marker::Model;
use streetmap_feature_text::WrittenFeature;
use streetmap_geojson::{Feature, Id};

/// The id of a collection: 1 to 64 bytes, each an ASCII letter, a digit, or one of `.` `_` `-`, the
/// first a letter or a digit.
#[derive(Drop)]
pub struct CollectionId {
    id: String,
}

impl Model for CollectionId {
    ghost use Rattle.std.specs.Prelude.{ℕ, List, IsTrue, string_bytes};
    ghost use Rattle.streetmap_batch.specs.Names.{is_collection_id};

    ghost Value = { List ℕ };

    ghost view = { λ c. string_bytes c.id };

    ghost invariant = { λ c. IsTrue (is_collection_id (string_bytes c.id)) };
}

impl CollectionId {
    /// The id with that text, if it may be one.
    pub fn new(id: String) -> Option<CollectionId>
        ensures { result ≡ passing is_collection_id (string_bytes id) }
    {
        if is_collection_id(id.as_str()) {
            Some(CollectionId { id })
        } else {
            None
        }
    }

    pub fn as_str(&self) -> &str
        ensures value { result.now ≡ self.now }
        ensures named { IsTrue (is_collection_id self.now) }
    {
        self.id.as_str()
    }
}

/// The title of a collection: at most 256 bytes, without control characters.
#[derive(Drop)]
pub struct Title {
    text: String,
}

impl Model for Title {
    ghost use Rattle.std.specs.Prelude.{ℕ, List, IsTrue, string_bytes};
    ghost use Rattle.streetmap_batch.specs.Names.{is_title};

    ghost Value = { List ℕ };

    ghost view = { λ title. string_bytes title.text };

    ghost invariant = { λ title. IsTrue (is_title (string_bytes title.text)) };
}

impl Title {
    /// The title with that text, if it may be one.
    pub fn new(text: String) -> Option<Title>
        ensures { result ≡ passing is_title (string_bytes text) }
    {
        if is_title(text.as_str()) {
            Some(Title { text })
        } else {
            None
        }
    }

    /// The title of a collection that was given none: its id.
    #[tactic(auto, using(crate::proofs::NameFacts::id_is_title))]
    pub fn from_id(alloc: Global, id: &CollectionId) -> Result<Title, AllocError>
        ensures { IfOk result (λ title. title ≡ id.now) }
    {
        let text = String::from_str(alloc, id.as_str())?;
        Ok(Title { text })
    }

    pub fn as_str(&self) -> &str
        ensures value { result.now ≡ self.now }
        ensures named { IsTrue (is_title self.now) }
    {
        self.text.as_str()
    }
}

/// The name of the property that holds a feature's time: 1 to 128 bytes.
#[derive(Drop)]
pub struct TimeProperty {
    name: String,
}

impl Model for TimeProperty {
    ghost use Rattle.std.specs.Prelude.{ℕ, List, IsTrue, string_bytes};
    ghost use Rattle.streetmap_batch.specs.Names.{is_time_property};

    ghost Value = { List ℕ };

    ghost view = { λ property. string_bytes property.name };

    ghost invariant = { λ property. IsTrue (is_time_property (string_bytes property.name)) };
}

impl TimeProperty {
    /// The property of that name, if it may be one.
    pub fn new(name: String) -> Option<TimeProperty>
        ensures { result ≡ passing is_time_property (string_bytes name) }
    {
        if is_time_property(name.as_str()) {
            Some(TimeProperty { name })
        } else {
            None
        }
    }

    pub fn as_str(&self) -> &str
        ensures value { result.now ≡ self.now }
        ensures named { IsTrue (is_time_property self.now) }
    {
        self.name.as_str()
    }
}

/// One edit of a batch.
#[derive(Drop)]
pub enum Edit {
    /// A collection is opened. Its features' times are read from the time property, if one is
    /// given.
    Open {
        collection: CollectionId,
        title: Title,
        time: Option<TimeProperty>,
    },
    /// A feature is inserted into the collection, which has none with its id.
    Insert {
        collection: CollectionId,
        feature: WrittenFeature,
    },
    /// A feature takes the place of the one with its id.
    Replace {
        collection: CollectionId,
        feature: WrittenFeature,
    },
    /// The feature with that id is deleted from the collection.
    Delete {
        collection: CollectionId,
        id: Id,
    },
}

impl Edit {
    ghost use Rattle.streetmap_batch.specs.ParsedBatches.{edit_in};
    ghost use Rattle.streetmap_batch.specs.BatchValue as value;

    /// What is true of every edit.
    pub fn facts(&self)
        ensures { IsSoundEdit (edit_value self.now) }
    {
        match self {
            Edit::Open {
                collection,
                title,
                time,
            } => {
                let _name = collection.as_str();
                let _title = title.as_str();
                match time {
                    Some(time) => {
                        let _property = time.as_str();
                    }
                    None => {}
                }
            }
            Edit::Insert {
                collection,
                feature,
            }
            | Edit::Replace {
                collection,
                feature,
            } => {
                let _name = collection.as_str();
                feature.facts();
            }
            Edit::Delete { collection, id } => {
                let _name = collection.as_str();
                let _id = id.as_str();
            }
        }
    }

    /// The edit that inserts a feature. It is refused as `BadBatch` if the text is not a collection
    /// id.
    pub fn insert(alloc: Global, collection: &str, feature: Feature) -> Result<Edit, BatchFault>
        ensures { Gives edit_value result (edit_in value.insert collection.now feature) }
    {
        let collection = read_collection_id(alloc, collection)?;
        let feature = WrittenFeature::new(alloc, feature)?;
        Ok(Edit::Insert {
            collection,
            feature,
        })
    }

    /// The edit that replaces the feature with the same id. It is refused as `insert` is.
    pub fn replace(alloc: Global, collection: &str, feature: Feature) -> Result<Edit, BatchFault>
        ensures { Gives edit_value result (edit_in value.replace collection.now feature) }
    {
        let collection = read_collection_id(alloc, collection)?;
        let feature = WrittenFeature::new(alloc, feature)?;
        Ok(Edit::Replace {
            collection,
            feature,
        })
    }
}

/// What is true of each edit of a list.
pub(crate) fn facts_of_each(edits: &[Edit])
    ensures { All (λ edit. IsSoundEdit (edit_value edit)) edits.now }
{
    for edit in edits {
        edit.facts();
    }
}

/// The id of a collection from a text.
fn read_collection_id(alloc: Global, text: &str) -> Result<CollectionId, BatchFault>
    ensures { Gives (λ id. id) result (collection_in text.now) }
{
    let text = String::from_str(alloc, text)?;
    match CollectionId::new(text) {
        Some(id) => Ok(id),
        None => Err(BatchFault::BadBatch { place: None }),
    }
}
