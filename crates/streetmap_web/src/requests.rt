//! One request, answered over its bytes.
ghost use Rattle.streetmap_http.specs.Arrivals.{IsAnswered};
ghost use Rattle.streetmap_web.specs.Site.{site_value};
ghost use Rattle.streetmap_connections.specs.Answers.{answer_text};
ghost use Rattle.streetmap_web.specs.AnsweredRequests.{AnswersOne};
ghost use Rattle.streetmap_web.specs.Response.{sent_so};

use crate::answer::{answer_to, refused};
use crate::site::Site;
use httparse::spans::EMPTY_HEADER_SPAN;
use std::alloc::Global;
use streetmap_connections::Answer;
use streetmap_http::{FIELD_LIMIT, Framed, split_request};
use streetmap_tags::Tagged;

/// Answers the bytes of one request over a keeper: returns the answer, and whether the connection
/// closes after it. No memory is allocated after a batch was applied; the caller may write the
/// answer piece by piece.
///
/// `streetmap_http::arrival_of` says which received bytes are one request.
pub fn answer_request<K: Tagged>(
    alloc: Global,
    keeper: &mut K,
    site: &Site,
    request: &[u8],
) -> (Answer, bool)
    requires { IsAnswered request.now }
    ensures { AnswersOne K.model (site_value site.now) keeper.old request.now
        (sent_so (answer_text result.0) result.1) keeper.new }
{
    let mut headers = [EMPTY_HEADER_SPAN; FIELD_LIMIT];
    let (framed, body) = split_request(request, &mut headers);
    match framed {
        Framed::Broken(bare, fault) => (refused(alloc, fault, bare), true),
        Framed::Request(head) => answer_to(alloc, keeper, site, head, body),
    }
}
