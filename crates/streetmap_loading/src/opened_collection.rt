//! The opening of a collection.
ghost use Rattle.std.specs.Prelude.{◌≡◌, None, IfOk, option_map};
ghost use Rattle.streetmap_batch.specs.BatchView.{edit_value};
ghost use Rattle.streetmap_batch.specs.Names.{is_collection_id};
ghost use Rattle.streetmap_loading.specs.Sources.{placed_value};
ghost use Rattle.streetmap_loading.specs.Options.{AsRequested, named, title_of, time_of};
ghost use Rattle.streetmap_loading.specs.Options.{opening_of};
ghost use Rattle.streetmap_loading.specs.Options.{opening_if, IsOpening};

use crate::load::Opening;
use crate::load_fault::LoadFault;
use crate::source::PlacedEdit;
use std::alloc::{AllocError, Global};
use streetmap_batch::{CollectionId, Edit, TimeProperty, Title};

/// The id of a collection.
fn read_id(alloc: Global, text: &str) -> Result<CollectionId, LoadFault>
    ensures { AsRequested (λ id. id) result (named is_collection_id text.now) }
{
    let text = String::from_str(alloc, text)?;
    match CollectionId::new(text) {
        Some(id) => Ok(id),
        None => Err(LoadFault::BadBatch),
    }
}

/// The title of a collection.
fn read_title(alloc: Global, id: &CollectionId, title: Option<&str>) -> Result<Title, LoadFault>
    ensures { AsRequested (λ t. t) result (title_of id.now (option_map (λ t. t.now) title.entry)) }
{
    match title {
        None => Ok(Title::from_id(alloc, id)?),
        Some(text) => {
            let text = String::from_str(alloc, text)?;
            match Title::new(text) {
                Some(title) => Ok(title),
                None => Err(LoadFault::BadBatch),
            }
        }
    }
}

/// The name of a time property, if one is given.
fn read_time(alloc: Global, time: Option<&str>) -> Result<Option<TimeProperty>, LoadFault>
    ensures { AsRequested (λ t. t) result (time_of (option_map (λ t. t.now) time.entry)) }
{
    match time {
        None => Ok(None),
        Some(name) => {
            let name = String::from_str(alloc, name)?;
            match TimeProperty::new(name) {
                Some(time) => Ok(Some(time)),
                None => Err(LoadFault::BadBatch),
            }
        }
    }
}

/// The opening of a collection.
fn open_edit(
    alloc: Global,
    collection: &str,
    title: Option<&str>,
    time: Option<&str>,
) -> Result<Edit, LoadFault>
    ensures opens { IfOk result (λ e. IsOpening (edit_value e)) }
    ensures exact { AsRequested edit_value result (opening_of collection.now
        (option_map (λ t. t.now) title.entry) (option_map (λ t. t.now) time.entry)) }
{
    let collection = read_id(alloc, collection)?;
    let title = read_title(alloc, &collection, title)?;
    let time = read_time(alloc, time)?;
    Ok(Edit::Open {
        collection,
        title,
        time,
    })
}

/// An opening, which has no place in a text.
fn place_opening(alloc: Global, edit: Edit) -> Result<PlacedEdit, AllocError>
    requires { IsOpening (edit_value edit) }
    ensures { IfOk result (λ p. placed_value p
        ≡ record { place = None; edit = edit_value edit }) }
{
    edit.facts();
    match PlacedEdit::new(alloc, None, edit)? {
        Some(placed) => Ok(placed),
        None => unreachable!(),
    }
}

/// The opening, if the options include one.
pub(crate) fn read_opening(
    alloc: Global,
    collection: &str,
    opening: Option<Opening<'_>>,
) -> Result<Option<PlacedEdit>, LoadFault>
    ensures { AsRequested (λ o. option_map placed_value o) result
        (opening_if collection.now opening.entry) }
{
    match opening {
        None => Ok(None),
        Some(opening) => {
            let edit = open_edit(alloc, collection, opening.title, opening.time)?;
            Ok(Some(place_opening(alloc, edit)?))
        }
    }
}
