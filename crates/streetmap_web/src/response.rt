//! Answers without their heads.
use http::StatusCode;
use streetmap_http::{MediaType, Methods};

/// An answer without its head.
#[derive(Drop)]
pub struct Response {
    pub status: StatusCode,
    pub kind: MediaType,
    /// The number of the tag, if what is there has one.
    pub tag: Option<u64>,
    /// The serial of the state after the request, if the answer shows it.
    pub serial: Option<u64>,
    /// The methods of the path, if the request has another.
    pub allow: Option<Methods>,
    pub body: String,
}
