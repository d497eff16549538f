//! A line for each answer.
ghost use Rattle.std.specs.Prelude.{◌≡◌, codes, if◌then◌else◌};
ghost use Rattle.std.specs.Str.Lines.{strip_carriage_return};
ghost use Rattle.streetmap_http.specs.Lines.{is_full as is_full_text};
ghost use Rattle.streetmap_web.specs.Log.{is_logged_byte, is_plain_text, request_line_of};

use std::alloc::Global;
use std::io::Write;
use std::str;
use streetmap_connections::Answer;

/// The most bytes of a request line that is logged.
const MOST_LOGGED: usize = 2_048;

/// Whether a byte can be logged between double quotes.
fn is_logged(byte: &u8) -> bool
    ensures { result ≡ is_logged_byte byte.now }
{
    (b' '..=b'~').contains(byte) && *byte != b'"'
}

/// Whether the text of a line is more than a CR or nothing.
#[tactic(auto, unfolding(streetmap_http::specs::Lines::is_full))]
fn is_full(text: &[u8]) -> bool
    ensures { result ≡ is_full_text text.now }
{
    !text.is_empty() && text != b"\r".as_slice()
}

/// A line without the CR that may end it.
fn without_return(line: &[u8]) -> &[u8]
    ensures { result.now ≡ strip_carriage_return line.now }
{
    line.strip_suffix(b"\r").unwrap_or(line)
}

/// The request line: empty lines before it are skipped, as in reading it.
fn request_line(request: &[u8]) -> &[u8]
    ensures { result.now ≡ request_line_of request.now }
{
    let found = request
        .split(|byte| *byte == b'\n')
        .find(|line| is_full(line));
    match found {
        Some(line) => without_return(line),
        None => &[],
    }
}

/// Whether a line is logged as it is.
fn is_plain(line: &[u8]) -> bool
    ensures { result ≡ is_plain_text line.now }
{
    (1..=MOST_LOGGED).contains(&line.len()) && line.iter().all(|byte| is_logged(byte))
}

/// A request line, or `-` if it is empty, too long, or has bytes that are not logged.
fn shown(line: &[u8]) -> &str
    ensures { result.now ≡ (if is_plain_text line.now then line.now else codes "-") }
{
    match str::from_utf8(line) {
        Ok(text) if is_plain(line) => text,
        _ => "-",
    }
}

/// The status in the head of an answer: three digits after the version.
fn status(head: &[u8]) -> &str {
    match head.get(9..12).map(|bytes| str::from_utf8(bytes)) {
        Some(Ok(status)) => status,
        _ => "-",
    }
}

/// Writes a request and its answer as one line, if a log is kept: the request line, the status and
/// the bytes of the body, as in the common log format (`"GET /collections HTTP/1.1" 200 1234`). A
/// line that cannot be written is left out.
pub(crate) fn log_request<W: Write>(
    alloc: Global,
    log: &mut Option<W>,
    request: &[u8],
    answer: &Answer,
) {
    let Some(log) = log else {
        return;
    };
    let (requested, status, len) = (
        shown(request_line(request)),
        status(answer.head()),
        answer.body().len(),
    );
    if let Ok(line) = format!(in alloc; "\"{requested}\" {status} {len}\n") {
        let _ = log.write_all(line.as_bytes());
    }
}
