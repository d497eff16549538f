//! The request of a line of input.
ghost use Rattle.std.specs.Prelude.{◌≡◌, Option, Some, None, option_map, IfSome, IsSome, IsUtf8};
ghost use Rattle.streetmap_lines.specs.Request.{LineRequest, split_space, page_request_of};
ghost use Rattle.streetmap_lines.specs.Request.{request_by, request_of, request_in, IsRequestLine};
ghost use Rattle.streetmap_lines.specs.RequestView.{request_value};

/// The request of a line of input, by texts of the line.
#[derive(Clone, Copy)]
pub enum Request<'a> {
    /// A batch of edits to be applied.
    Batch {
        text: &'a str,
    },
    /// A page of a collection, with the text of a query if it has one.
    Page {
        collection: &'a str,
        query: Option<&'a str>,
    },
    /// A feature of a collection, by its id.
    Feature {
        collection: &'a str,
        id: &'a str,
    },
}

/// Cuts a text at its first space.
fn split_at_space(text: &str) -> Option<(&str, &str)>
    ensures { option_map (λ x. (x.0.now, x.1.now)) result ≡ split_space text.now }
{
    text.split_once(' ')
}

/// The request of the text after `page `.
fn read_page_request<'a>(text: &'a str) -> Option<Request<'a>>
    ensures { option_map request_value result ≡ page_request_of text.entry.now }
{
    match split_at_space(text) {
        None => Some(Request::Page {
            collection: text,
            query: None,
        }),
        Some((collection, query)) => match split_at_space(query) {
            None => Some(Request::Page {
                collection,
                query: Some(query),
            }),
            Some(_) => None,
        },
    }
}

/// The request of the text after `feature `.
fn read_feature_request<'a>(text: &'a str) -> Option<Request<'a>>
    ensures { option_map request_value result
        ≡ option_map (λ p. LineRequest.feature p.0 p.1) (split_space text.entry.now) }
{
    let (collection, id) = split_at_space(text)?;
    Some(Request::Feature { collection, id })
}

/// The request of a line's first word and the text after it.
#[tactic(auto, unfolding(crate::specs::Request::request_by))]
fn read_by_word<'a>(word: &str, text: &'a str) -> Option<Request<'a>>
    ensures { option_map request_value result ≡ request_by word.now text.entry.now }
{
    match word {
        "batch" => Some(Request::Batch { text }),
        "page" => read_page_request(text),
        "feature" => read_feature_request(text),
        _ => None,
    }
}

/// The request of a line that is text, by its first word.
fn read_words<'a>(line: &'a str) -> Option<Request<'a>>
    ensures { option_map request_value result ≡ request_of line.entry.now }
{
    let (word, text) = split_at_space(line)?;
    read_by_word(word, text)
}

/// The request of a line, if it is text.
fn read_line<'a>(line: &'a [u8]) -> Option<Request<'a>>
    ensures text { IsUtf8 line.entry.now
        → option_map request_value result ≡ request_of line.entry.now }
    ensures other { ¬ (IsUtf8 line.entry.now) → result ≡ None }
    ensures is_text { IsSome result → IsUtf8 line.entry.now }
{
    match str::from_utf8(line) {
        Ok(text) => read_words(text),
        Err(_) => None,
    }
}

/// The request of a line, without its line feed: `batch TEXT`, `page COLLECTION`,
/// `page COLLECTION QUERY` or `feature COLLECTION ID`, its parts separated by one space; none if it
/// is none of these, or not UTF-8. Each text may be empty; a collection and a query hold no space.
pub fn read_request<'a>(line: &'a [u8]) -> Option<Request<'a>>
    ensures value { option_map request_value result ≡ request_in line.entry.now }
    // What is read is the request that the line spells.
    ensures found { IfSome result (λ r. IsRequestLine line.entry.now (request_value r)) }
    // The request that the line spells is read.
    ensures only { (r : LineRequest) → IsRequestLine line.entry.now r
        → option_map request_value result ≡ Some r }
{
    read_line(line)
}
