//! Queries, read from their texts.
ghost use Rattle.std.specs.Prelude.{◌≡◌, MatchResult, Err, option_copied, IfSome};
ghost use Rattle.std.specs.Cow.{cow_str_bytes};
ghost use Rattle.streetmap_query.specs.Faults.{Gives};
ghost use Rattle.streetmap_query.specs.Limit.{limit_of, IsLimit};
ghost use Rattle.streetmap_query.specs.Parameters.{no_parameters, query_by, set_limit, set_bbox};
ghost use Rattle.streetmap_query.specs.Parameters.{set_datetime, set_after, with_pair};
ghost use Rattle.streetmap_query.specs.Query.{has_pair, parameters_of, query_of};
ghost use Rattle.streetmap_query.specs.Views.{DatetimeRead, parameters_value, query_value};

use crate::box_texts::read_box;
use crate::datetimes::Datetime;
use crate::fault::QueryFault;
use crate::queries::{Parameters, Query};
use std::alloc::{AllocError, Global};
use std::borrow::CowStr;
use streetmap_geojson::{Id, is_id};
use streetmap_moment::read_interval;

// The limit of a text of digits: 1 to 1000, and 1000 for any number above it.
fn read_limit(text: &[u8]) -> Option<u32>
    ensures value { result ≡ limit_of text.now }
    ensures bound { IfSome result IsLimit }
{
    if text.is_empty() {
        return None;
    }
    let mut number = 0;
    for &byte in text {
        if !byte.is_ascii_digit() {
            return None;
        }
        number = (10 * number + (byte - b'0') as u32).min(1000);
    }
    if number == 0 { None } else { Some(number) }
}

fn read_datetime(alloc: Global, value: &str) -> Result<Datetime, QueryFault>
    ensures { DatetimeRead result value.now }
{
    let Ok(interval) = read_interval(value) else {
        return Err(QueryFault::BadDatetime);
    };
    Ok(Datetime {
        text: String::from_str(alloc, value)?,
        interval,
    })
}

impl Parameters {
    // No parameter yet.
    fn none() -> Parameters
        ensures { parameters_value result ≡ no_parameters }
    {
        Parameters {
            bbox: None,
            datetime: None,
            limit: None,
            after: None,
        }
    }

    #[tactic(auto, unfolding(crate::specs::Parameters::set_limit))]
    fn with_limit(mut self, value: &str) -> Result<Parameters, QueryFault>
        ensures { Gives parameters_value result (set_limit (parameters_value self) value.now) }
    {
        if self.limit.is_some() {
            return Err(QueryFault::RepeatedParameter);
        }
        let limit = read_limit(value.as_bytes()).ok_or(QueryFault::BadLimit)?;
        self.limit = Some(limit);
        Ok(self)
    }

    #[tactic(auto, unfolding(crate::specs::Parameters::set_bbox))]
    fn with_bbox(mut self, value: &str) -> Result<Parameters, QueryFault>
        ensures { Gives parameters_value result (set_bbox (parameters_value self) value.now) }
    {
        if self.bbox.is_some() {
            return Err(QueryFault::RepeatedParameter);
        }
        let bbox = read_box(value.as_bytes()).ok_or(QueryFault::BadBbox)?;
        self.bbox = Some(bbox);
        Ok(self)
    }

    #[tactic(auto, unfolding(crate::specs::Parameters::set_datetime))]
    fn with_datetime(mut self, alloc: Global, value: &str) -> Result<Parameters, QueryFault>
        ensures { Gives parameters_value result (set_datetime (parameters_value self) value.now) }
    {
        if self.datetime.is_some() {
            return Err(QueryFault::RepeatedParameter);
        }
        let datetime = read_datetime(alloc, value)?;
        self.datetime = Some(datetime);
        Ok(self)
    }

    #[tactic(auto, unfolding(crate::specs::Parameters::set_after))]
    fn with_after(mut self, alloc: Global, value: &str) -> Result<Parameters, QueryFault>
        ensures { Gives parameters_value result (set_after (parameters_value self) value.now) }
    {
        if self.after.is_some() {
            return Err(QueryFault::RepeatedParameter);
        }
        // A value that is not an id is refused before memory is allocated.
        if !is_id(value) {
            return Err(QueryFault::BadAfter);
        }
        let text = String::from_str(alloc, value)?;
        let Ok(id) = Id::new(text) else {
            return Err(QueryFault::BadAfter);
        };
        self.after = Some(id);
        Ok(self)
    }

    // Takes one more pair of name and value.
    #[tactic(auto, unfolding(crate::specs::Parameters::with_pair))]
    fn with(self, alloc: Global, name: &str, value: &str) -> Result<Parameters, QueryFault>
        ensures { Gives parameters_value result
            (with_pair (parameters_value self) name.now value.now) }
    {
        match name {
            "limit" => self.with_limit(value),
            "bbox" => self.with_bbox(value),
            "datetime" => self.with_datetime(alloc, value),
            "after" => self.with_after(alloc, value),
            _ => Err(QueryFault::UnknownParameter),
        }
    }

    // Takes a pair as the decoder gave it.
    fn with_decoded(
        self,
        alloc: Global,
        pair: Result<(CowStr<'_>, CowStr<'_>), AllocError>,
    ) -> Result<Parameters, QueryFault>
        ensures { MatchResult pair.entry (λ p.
            Gives parameters_value result (with_pair (parameters_value self) (cow_str_bytes p.0)
            (cow_str_bytes p.1))) (λ _. result ≡ Err QueryFault.Memory) }
    {
        let (name, value) = pair?;
        self.with(alloc, name.as_str(), value.as_str())
    }

    // The query of these parameters, with the limit 10 if none was read.
    fn query(self) -> Query
        ensures { query_value result ≡ query_by (parameters_value self) }
    {
        let limit = self.limit.unwrap_or(10);
        Query {
            bbox: self.bbox,
            datetime: self.datetime,
            limit,
            after: self.after,
        }
    }
}

// The parameters of a text.
fn read_parameters(alloc: Global, text: &str) -> Result<Parameters, QueryFault>
    ensures { Gives parameters_value result (parameters_of text.now) }
{
    let mut parameters = Parameters::none();
    for pair in form_urlencoded::parse(alloc, text.as_bytes()) {
        parameters = parameters.with_decoded(alloc, pair)?;
    }
    Ok(parameters)
}

/// The query of a query text, the part of a target after its `?`; without a text, the query of no
/// parameters.
///
/// The text is read as the pairs of a form (URL Standard, 5.1), from left to right. It returns the
/// first fault: of each pair first an unknown name (OGC 17-069, 7.6), then a repeated name, then a
/// bad value.
///
/// - `bbox`: four numbers with commas between them, in millimetres, from -2,000,000,000 to
///   2,000,000,000, `x0 <= x1` and `y0 <= y1`. A number is an optional `-`, 1 to 19 digits, and
///   optionally a point and zeros (OGC 17-069, 7.15.3).
/// - `datetime`: a date-time of RFC 3339, or an interval of two of them (OGC 17-069, 7.15.4).
/// - `limit`: digits, any number of them; 0 is refused, and above 1000 it is 1000
///   (OGC 17-069, 7.15.2). Without it the limit is 10.
/// - `after`: an id, 1 to 128 bytes without control characters.
pub fn read_query(alloc: Global, text: Option<&str>) -> Result<Query, QueryFault>
    ensures { Gives query_value result (query_of (option_copied text.entry)) }
{
    match text {
        Some(text) => Ok(read_parameters(alloc, text)?.query()),
        None => Ok(Parameters::none().query()),
    }
}

/// Whether a parameter occurs in the query text, for a resource that has none (OGC 17-069, 7.6). It
/// allocates no memory.
pub fn has_parameter(text: Option<&str>) -> bool
    ensures { result ≡ has_pair (option_copied text.entry) }
{
    match text {
        Some(text) => form_urlencoded::raw_pairs(text.as_bytes()).next().is_some(),
        None => false,
    }
}
