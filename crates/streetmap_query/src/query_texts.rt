//! Queries, written as texts.
ghost use Rattle.std.specs.Prelude.{◌≡◌, ℕ, [], option_map, option_copied, string_bytes, IfOk};
ghost use Rattle.std.specs.Prelude.{OnOk, IsTrue, Ok, Some, None, codes, decimal};
ghost use Rattle.std.specs.Option.{ForSome};
ghost use Rattle.form_urlencoded.specs.Form as spec;
ghost use Rattle.streetmap_geojson.specs.Id.{is_id};
ghost use Rattle.streetmap_grid.specs.Views.{box_value};
ghost use Rattle.streetmap_query.specs.Box.{box_text};
ghost use Rattle.streetmap_query.specs.Query.{pair_if, query_text, query_of};
ghost use Rattle.streetmap_query.specs.Text.{IsText};
ghost use Rattle.streetmap_query.specs.Views.{query_value, datetime_value};

use crate::box_texts::write_box;
use crate::datetimes::Datetime;
use crate::queries::Query;
use form_urlencoded::Serializer;
use std::alloc::{AllocError, Global};
use streetmap_grid::GridBox;

// Appends a pair.
fn append(form: &mut Serializer, name: &str, value: &str) -> Result<(), AllocError>
    ensures pair { OnOk result (form.new
        ≡ record form.old { form = spec.append_pair form.old.form name.now value.now }) }
    ensures text { IsText value.now }
{
    form.append_pair(name, value)
}

// Appends the id after which the page starts, if any.
fn append_after(form: &mut Serializer, after: Option<&str>) -> Result<(), AllocError>
    ensures pair { OnOk result (form.new
        ≡ record form.old {
          form = spec.extend_pairs form.old.form
              (pair_if (codes "after") (option_copied after.entry) []);
        }) }
    ensures text { ForSome (option_copied after.entry) IsText }
{
    match after {
        Some(after) => append(form, "after", after),
        None => Ok(()),
    }
}

// Appends the box, if any.
fn append_bbox(
    alloc: Global,
    form: &mut Serializer,
    bbox: Option<GridBox>,
) -> Result<(), AllocError>
    ensures { OnOk result (form.new
        ≡ record form.old {
          form = spec.extend_pairs form.old.form
              (pair_if (codes "bbox") (option_map box_text (option_map box_value bbox)) []);
        }) }
{
    match bbox {
        Some(bbox) => {
            let text = write_box(alloc, bbox)?;
            form.append_pair("bbox", text.as_str())
        }
        None => Ok(()),
    }
}

// Appends the interval of time, if any.
fn append_datetime(form: &mut Serializer, datetime: &Option<Datetime>) -> Result<(), AllocError>
    ensures pair { OnOk result (form.new
        ≡ record form.old {
          form = spec.extend_pairs form.old.form
              (pair_if (codes "datetime") (option_map (λ t.
              t.text) (option_map datetime_value datetime.now)) []);
        }) }
    ensures text { ForSome (option_map datetime_value datetime.now) (λ t. IsText t.text) }
{
    match datetime {
        Some(datetime) => append(form, "datetime", datetime.text.as_str()),
        None => Ok(()),
    }
}

// Appends the limit.
fn append_limit(alloc: Global, form: &mut Serializer, limit: u32) -> Result<(), AllocError>
    ensures { OnOk result (form.new
        ≡ record form.old {
          form = spec.append_pair form.old.form (codes "limit")
              (decimal limit);
        }) }
{
    let text = format!(in alloc; "{limit}")?;
    form.append_pair("limit", text.as_str())
}

// The text of a query whose page starts after another id.
fn spell(alloc: Global, after: Option<&str>, query: &Query) -> Result<String, AllocError>
    ensures spelled { IfOk result (λ text. string_bytes text
        ≡ query_text (record (query_value query.now) { after = option_copied after.entry })) }
    ensures after_text { IfOk result (λ _. ForSome (option_copied after.entry) IsText) }
    ensures datetime_text { IfOk result (λ _.
        ForSome (query_value query.now).datetime (λ t. IsText t.text)) }
{
    let mut form = Serializer::new(String::new(alloc));
    append_after(&mut form, after)?;
    append_bbox(alloc, &mut form, query.bbox)?;
    append_datetime(&mut form, &query.datetime)?;
    append_limit(alloc, &mut form, query.limit)?;
    Ok(form.finish())
}

// The same, which reads as that query.
fn write(alloc: Global, after: Option<&str>, query: &Query) -> Result<String, AllocError>
    requires { ForSome (option_copied after) (λ id. IsTrue (is_id id)) }
    ensures spelled { IfOk result (λ text. string_bytes text
        ≡ query_text (record (query_value query.now) { after = option_copied after.entry })) }
    ensures again { IfOk result (λ text. query_of (Some (string_bytes text))
        ≡ Ok (record (query_value query.now) { after = option_copied after.entry })) }
{
    spell(alloc, after, query)
}

/// The text of a query, for the link to the page itself: `after`, `bbox` and `datetime` if they are
/// given, and `limit` always, in this order (URL Standard, 5.2).
pub fn self_query(alloc: Global, query: &Query) -> Result<String, AllocError>
    ensures spelled { IfOk result (λ text. string_bytes text
        ≡ query_text (query_value query.now)) }
    // The text reads as the same query.
    ensures again { IfOk result (λ text. query_of (Some (string_bytes text))
        ≡ Ok (query_value query.now)) }
{
    match &query.after {
        Some(after) => write(alloc, Some(after.as_str()), query),
        None => write(alloc, None, query),
    }
}

/// The text of a query, for the link to the page that starts after the id `last` (OGC 17-069,
/// 7.15.7).
pub fn next_query(alloc: Global, query: &Query, last: &str) -> Result<String, AllocError>
    requires { IsTrue (is_id last.now) }
    ensures spelled { IfOk result (λ text. string_bytes text
        ≡ query_text (record (query_value query.now) { after = Some last.now })) }
    // The text reads as the same query, after `last`.
    ensures again { IfOk result (λ text. query_of (Some (string_bytes text))
        ≡ Ok (record (query_value query.now) { after = Some last.now })) }
{
    write(alloc, Some(last), query)
}
