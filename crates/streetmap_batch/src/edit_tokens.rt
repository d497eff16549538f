//! The edits of a batch, gathered from its tokens one at a time.
ghost use Rattle.std.specs.Prelude.{◌≡◌, ◌+◌, ◌∷◌, ◌++◌, ◌<◌, [], List, length, Err, OnOk};
ghost use Rattle.serde_json.specs.Data.{Data};
ghost use Rattle.streetmap_json.specs.Values.{value_at, items_at};
ghost use Rattle.streetmap_batch.specs.BatchFaults.{Gives};
ghost use Rattle.streetmap_batch.specs.ParsedBatches.{edits_after};
ghost use Rattle.streetmap_batch.specs.BatchTokens.{Takes, edits_view, AreItemsRead, IsArrayRead};
ghost use Rattle.streetmap_batch.specs.EditMembers.{IsObjectRead};
ghost use Rattle.streetmap_batch.specs.declared.batch_fault.BatchFault.TheVariants.{TooManyEdits};

use crate::batch_fault::BatchFault;
use crate::edit::Edit;
use crate::edit_members::EditMembers;
use crate::edit_parser::read_edit;
use crate::opening::opens_array;
use json::Reader;
use std::alloc::Global;
use streetmap_json::{ParseFault, read_token};

/// The edits of an array, or why a batch with them is refused.
pub(crate) type Edits = Result<Vec<Edit>, BatchFault>;

/// How many edits a batch may have.
const MOST_EDITS: u64 = 10000;

/// The edits, with that of the next place after them. It has no members if it is no object.
fn with_next(alloc: Global, edits: Edits, members: Option<EditMembers>, place: u64) -> Edits
    ensures { (ds : List Data) (d : Data) → place ≡ length ds + 1 → IsObjectRead d members
        → Gives edits_view edits (edits_after 0 ds)
        → Gives edits_view result (edits_after 0 (ds ++ d ∷ [])) }
{
    let mut edits = edits?;
    let edit = read_edit(alloc, members, place)?;
    edits.push(edit)?;
    Ok(edits)
}

/// The fault of edits with one more than a batch may have.
fn refuse_more(edits: Edits, members: Option<EditMembers>) -> Edits
    ensures { result ≡ Err TooManyEdits }
{
    drop(edits);
    drop(members);
    Err(BatchFault::TooManyEdits)
}

/// The edits of an array whose opening bracket was read.
fn read_items(alloc: Global, reader: &mut Reader<'_>, depth: usize) -> Result<Edits, ParseFault>
    requires { 1 < depth }
    ensures takes { Takes AreItemsRead result reader.new (items_at depth reader.old) }
    ensures shorter { OnOk result (length reader.new < length reader.old) }
{
    let mut edits = Ok(Vec::new(alloc));
    let mut count = 0;
    'items: while !reader.take_end_array() {
        let members = EditMembers::read(alloc, reader, depth)?;
        if count < MOST_EDITS {
            count += 1;
            edits = with_next(alloc, edits, members, count);
        } else {
            edits = refuse_more(edits, members);
        }
    }
    Ok(edits)
}

/// The edits of the next value, if it is an array.
pub(crate) fn read_array(
    alloc: Global,
    reader: &mut Reader<'_>,
    depth: usize,
) -> Result<Option<Edits>, ParseFault>
    requires { 2 < depth }
    ensures takes { Takes IsArrayRead result reader.new (value_at depth reader.old) }
    ensures shorter { OnOk result (length reader.new < length reader.old) }
{
    let Some(token) = reader.next() else {
        return Err(ParseFault::NotJson);
    };
    if opens_array(&token) {
        Ok(Some(read_items(alloc, reader, depth - 1)?))
    } else {
        drop(read_token(alloc, token, reader, depth)?);
        Ok(None)
    }
}
