//! The members of an edit, read from its tokens.
ghost use Rattle.std.specs.Prelude.{IsTrue, codes, is_none};
ghost use Rattle.serde_json.specs.Find.{get_member};
ghost use Rattle.serde_json.specs.View.{members_view};

use crate::format::Format;
use crate::member::{may_have, member_at, names_pass};
use crate::opening::opens_object;
use json::Reader;
use serde_json::{Map, Value};
use std::alloc::Global;
use streetmap_feature_reader::{StatedFeature, read_stated};
use streetmap_json::{ParseFault, read_token, read_value};

/// The members of an edit. Its feature is kept apart, since it is read by its own members.
#[derive(Drop)]
pub(crate) struct EditMembers {
    others: Map<String, Value>,
    feature: Option<StatedFeature>,
    ghost apart: { IsTrue (is_none (get_member (codes "feature") (members_view others.entries))) },
}

impl EditMembers {
    ghost use Rattle.std.specs.Prelude.{◌≡◌, ◌≢◌, ◌<◌, OnOk, codes, length, option_map};
    ghost use Rattle.serde_json.specs.Data.{no_members, object, put};
    ghost use Rattle.serde_json.specs.Find.{get};
    ghost use Rattle.serde_json.specs.View.{view};
    ghost use Rattle.streetmap_json.specs.Values.{value_at, members_at};
    ghost use Rattle.streetmap_feature_reader.specs.StatedFeature.{stated_data};
    ghost use Rattle.streetmap_batch.specs.BatchTokens.{Takes};
    ghost use Rattle.streetmap_batch.specs.EditMembers.{stated_members, IsObjectRead};
    ghost use Rattle.streetmap_batch.specs.ParsedBatches.{has_only, text_at};

    fn none(alloc: Global) -> EditMembers
        ensures { stated_members result ≡ no_members }
    {
        EditMembers {
            others: Map::new(alloc),
            feature: None,
        }
    }

    /// Reads the value of the member of that name. It replaces an earlier one.
    fn read_member(
        &mut self,
        alloc: Global,
        name: &str,
        reader: &mut Reader<'_>,
        depth: usize,
    ) -> Result<(), ParseFault>
        requires { 0 < depth }
        ensures takes { Takes
            (λ d u. stated_members self.new ≡ put name.now d (stated_members self.old))
            result reader.new (value_at depth reader.old) }
        ensures shorter { OnOk result (length reader.new < length reader.old) }
    {
        if name == "feature" {
            self.feature = Some(read_stated(alloc, reader, depth)?);
        } else {
            let value = read_value(alloc, reader, depth)?;
            let name = String::from_str(alloc, name)?;
            drop(self.others.insert(name, value)?);
        }
        Ok(())
    }

    /// The members up to the closing brace.
    fn read_members(
        alloc: Global,
        reader: &mut Reader<'_>,
        depth: usize,
    ) -> Result<EditMembers, ParseFault>
        requires { 0 < depth }
        ensures takes { Takes (λ ms members. ms ≡ stated_members members) result reader.new
            (members_at depth reader.old) }
        ensures shorter { OnOk result (length reader.new < length reader.old) }
    {
        let mut members = EditMembers::none(alloc);
        'names: while let Some(name) = reader.next_key()? {
            members.read_member(alloc, name, reader, depth)?;
        }
        Ok(members)
    }

    /// The members of the next value, if it is an object.
    pub(crate) fn read(
        alloc: Global,
        reader: &mut Reader<'_>,
        depth: usize,
    ) -> Result<Option<EditMembers>, ParseFault>
        requires { 1 < depth }
        ensures takes { Takes IsObjectRead result reader.new (value_at depth reader.old) }
        ensures shorter { OnOk result (length reader.new < length reader.old) }
    {
        let Some(token) = reader.next() else {
            return Err(ParseFault::NotJson);
        };
        if opens_object(&token) {
            Ok(Some(EditMembers::read_members(alloc, reader, depth - 1)?))
        } else {
            drop(read_token(alloc, token, reader, depth)?);
            Ok(None)
        }
    }

    /// Whether there is no member other than those of the format.
    pub(crate) fn has_only(&self, format: Format) -> bool
        ensures { result ≡ has_only format (object (stated_members self.now)) }
    {
        names_pass(format, &self.others) && (self.feature.is_none() || may_have(format, "feature"))
    }

    /// The value of the member of that name, which is not the feature.
    pub(crate) fn get(&self, name: &str) -> Option<&Value>
        requires { name.now ≢ codes "feature" }
        ensures { option_map (λ v. view v.now) result
            ≡ get name.now (object (stated_members self.now)) }
    {
        member_at(&self.others, name)
    }

    /// The text of the member of that name, which is not the feature.
    pub(crate) fn text_at(&self, name: &str) -> Option<&str>
        requires { name.now ≢ codes "feature" }
        ensures { option_map (λ t. t.now) result
            ≡ text_at name.now (object (stated_members self.now)) }
    {
        self.get(name).and_then(Value::as_str)
    }

    /// The value of the member `feature`.
    pub(crate) fn into_feature(self) -> Option<StatedFeature>
        ensures { option_map stated_data result
            ≡ get (codes "feature") (object (stated_members self)) }
    {
        self.feature
    }
}
