//! What a request for changes wants.
ghost use Rattle.std.specs.Prelude.{◌≡◌, IfOk, option_copied};
ghost use Rattle.std.specs.Char.{is_ascii_digit};
ghost use Rattle.std.specs.List.{list_all};
ghost use Rattle.streetmap_query.specs.Limit.{limit_of};
ghost use Rattle.streetmap_routes.specs.ChangesQuery as spec;
ghost use Rattle.streetmap_routes.specs.ChangesView.{changes_value, changes_read};
ghost use Rattle.streetmap_routes.specs.Operations.{changes_wanted};
ghost use Rattle.streetmap_routes.specs.OperationView.{operation_value};

use crate::operations::{Operation, allows};
use std::alloc::{AllocError, Global};
use streetmap_bodies::RequestFault;
use streetmap_http::Methods;
use streetmap_query::QueryFault;

/// The serial after which changes are requested, if none is given.
const DEFAULT_SERIAL: u64 = 0;

/// The limit, if none is given.
const DEFAULT_LIMIT: u32 = 100;

/// The greatest limit.
const GREATEST_LIMIT: u32 = 1000;

/// The parameters that were read so far, each absent until it occurs in the text.
#[derive(Drop, Clone, Copy)]
pub(crate) struct Parameters {
    after: Option<u64>,
    limit: Option<u32>,
}

/// Whether a text consists of digits only.
fn is_digits(text: &str) -> bool
    ensures { result ≡ list_all is_ascii_digit text.now }
{
    text.bytes().all(|byte| byte.is_ascii_digit())
}

/// Whether a text is one digit or more, and nothing else.
#[tactic(auto, using(crate::proofs::NumberTexts::digits_alone))]
fn is_number(text: &str) -> bool
    ensures { result ≡ spec.is_number text.now }
{
    !text.is_empty() && is_digits(text)
}

/// The serial of a text: a whole number in decimal that fits into 64 bits.
#[tactic(auto, unfolding(crate::specs::ChangesQuery::serial_of))]
fn read_serial(text: &str) -> Option<u64>
    ensures { result ≡ spec.serial_of text.now }
{
    if !is_number(text) {
        return None;
    }
    match text.parse::<u64>() {
        Ok(serial) => Some(serial),
        Err(_) => None,
    }
}

/// The limit of a text: a whole number in decimal from 1; above 1000 it is 1000.
fn read_limit(text: &str) -> Option<u32>
    ensures { result ≡ limit_of text.now }
{
    if !is_number(text) {
        return None;
    }
    match text.parse::<u64>() {
        Ok(0) => None,
        Ok(number) => Some(number.min(GREATEST_LIMIT as u64) as u32),
        Err(_) => Some(GREATEST_LIMIT),
    }
}

impl Parameters {
    /// With the serial of a text.
    #[tactic(auto, unfolding(crate::specs::ChangesQuery::set_after))]
    fn with_after(self, value: &str) -> Result<Parameters, RequestFault>
        ensures { changes_read result ≡ spec.set_after (changes_value self) value.now }
    {
        if self.after.is_some() {
            return Err(RequestFault::Query(QueryFault::RepeatedParameter));
        }
        match read_serial(value) {
            Some(serial) => Ok(Parameters {
                after: Some(serial),
                limit: self.limit,
            }),
            None => Err(RequestFault::BadSerial),
        }
    }

    /// With the limit of a text.
    #[tactic(auto, unfolding(crate::specs::ChangesQuery::set_limit))]
    fn with_limit(self, value: &str) -> Result<Parameters, RequestFault>
        ensures { changes_read result ≡ spec.set_limit (changes_value self) value.now }
    {
        if self.limit.is_some() {
            return Err(RequestFault::Query(QueryFault::RepeatedParameter));
        }
        match read_limit(value) {
            Some(limit) => Ok(Parameters {
                after: self.after,
                limit: Some(limit),
            }),
            None => Err(RequestFault::Query(QueryFault::BadLimit)),
        }
    }

    /// With one more pair of name and value.
    #[tactic(auto, unfolding(crate::specs::ChangesQuery::with_pair))]
    fn with(self, name: &str, value: &str) -> Result<Parameters, RequestFault>
        ensures { changes_read result
            ≡ spec.with_pair (changes_value self) name.now value.now }
    {
        match name {
            "after" => self.with_after(value),
            "limit" => self.with_limit(value),
            _ => Err(RequestFault::Query(QueryFault::UnknownParameter)),
        }
    }
}

/// The parameters of a query text, or the first fault in it.
fn read_text(alloc: Global, text: &str) -> Result<Result<Parameters, RequestFault>, AllocError>
    ensures { IfOk result (λ read. changes_read read ≡ spec.changes_of (Some text.now)) }
{
    let mut parameters = Parameters {
        after: None,
        limit: None,
    };
    for pair in form_urlencoded::parse(alloc, text.as_bytes()) {
        let (name, value) = pair?;
        match parameters.with(name.as_str(), value.as_str()) {
            Ok(more) => parameters = more,
            Err(fault) => return Ok(Err(fault)),
        }
    }
    Ok(Ok(parameters))
}

/// The same of a query, if there is one.
fn read_changes(
    alloc: Global,
    query: Option<&str>,
) -> Result<Result<Parameters, RequestFault>, AllocError>
    ensures { IfOk result (λ read. changes_read read
        ≡ spec.changes_of (option_copied query.entry)) }
{
    match query {
        Some(text) => read_text(alloc, text),
        None => Ok(Ok(Parameters {
            after: None,
            limit: None,
        })),
    }
}

/// What a request for changes wants: by the method, and then by the query.
pub(crate) fn changes_operation(
    alloc: Global,
    method: &[u8],
    query: Option<&str>,
) -> Result<Operation, AllocError>
    ensures { IfOk result (λ a. operation_value a
        ≡ changes_wanted method.now (option_copied query.entry)) }
{
    if !allows(Methods::Reads, method) {
        let fault = RequestFault::MethodNotAllowed(Methods::Reads);
        return Ok(Operation::Faulty(fault));
    }
    match read_changes(alloc, query)? {
        Ok(parameters) => Ok(Operation::Changes(
            parameters.after.unwrap_or(DEFAULT_SERIAL),
            parameters.limit.unwrap_or(DEFAULT_LIMIT),
        )),
        Err(fault) => Ok(Operation::Faulty(fault)),
    }
}
