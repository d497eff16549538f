//! The members of an object.
ghost use Rattle.std.specs.Prelude.{◌≡◌, option_map, string_bytes};
ghost use Rattle.std.specs.BTreeMap.{keys};
ghost use Rattle.std.specs.List.{list_all};
ghost use Rattle.serde_json.specs.Find.{get_member};
ghost use Rattle.serde_json.specs.View.{view, members_view};
ghost use Rattle.streetmap_batch.specs.ParsedBatches.{may_have};

use crate::format::Format;
use serde_json::{Map, Value};

/// Whether an object may have a member of that name.
pub(crate) fn may_have(format: Format, name: &str) -> bool
    ensures { result ≡ may_have format name.now }
{
    match format {
        Format::Batch => matches!(name, "edits" | "key"),
        Format::Open => matches!(name, "collection" | "op" | "time" | "title"),
        Format::Feature => matches!(name, "collection" | "feature" | "op"),
        Format::Delete => matches!(name, "collection" | "id" | "op"),
    }
}

/// Whether there is no member other than those of the format.
pub(crate) fn names_pass(format: Format, members: &Map<String, Value>) -> bool
    ensures { result ≡ list_all (λ name. may_have format (string_bytes name))
        (keys members.now) }
{
    members.keys().all(|name| may_have(format, name.as_str()))
}

/// The value of the member of that name.
pub(crate) fn member_at<'m>(members: &'m Map<String, Value>, name: &str) -> Option<&'m Value>
    ensures { option_map (λ v. view v.now) result
        ≡ get_member name.now (members_view members.now.entries) }
{
    members.get(name)
}
