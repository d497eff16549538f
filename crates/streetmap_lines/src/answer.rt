//! Lines, answered over a ledger in memory.
ghost use Rattle.std.specs.Prelude.{◌≡◌, ◌≢◌, ◌≤◌, ◌+◌, IfOk, Ok, None, option_map};
ghost use Rattle.std.specs.Prelude.{string_bytes, string_len, string_capacity, []};
ghost use Rattle.std.specs.Option.{option_copied};
ghost use Rattle.serde_json.specs.Written.{compact_text};
ghost use Rattle.streetmap_query.specs.Query.{query_of};
ghost use Rattle.streetmap_batch.specs.ParsedBatches.{batch_of};
ghost use Rattle.streetmap_batch.specs.BatchView.{batch_value};
ghost use Rattle.streetmap_ledger.specs.State.{State};
ghost use Rattle.streetmap_memory.specs.Plain.{IsPlainState};
ghost use Rattle.streetmap_ledger.specs.Pages.{feature_in};
ghost use Rattle.streetmap_bodies.specs.RequestFaults.{fault_body};
ghost use Rattle.streetmap_lines.specs.Answers.{answer_to, batch_answer, page_body, found_feature};
ghost use Rattle.streetmap_lines.specs.Answers.{unknown_command};
ghost use Rattle.streetmap_lines.specs.AnswerView.{SaysOf, SaysOr, LineSays};
ghost use Rattle.streetmap_lines.specs.BatchAnswers.{AsKeeper, AnswersBatch};
ghost use Rattle.streetmap_lines.specs.Request.{request_in};
ghost use Rattle.streetmap_lines.specs.RequestView.{request_value};

use crate::request::{Request, read_request};
use std::alloc::{AllocError, Global};
use streetmap_bodies::{
    RequestFault, line_feature_text, line_page_text, push_error, push_fault, push_reply_body,
};
use streetmap_ledger::{Batch, BatchFault, Fault, Keeper, read_batch};
use streetmap_memory::PlainKeeper;
use streetmap_query::{QueryFault, read_query};

/// The room that is allocated for an answer to a batch before the batch is applied, in bytes.
const ROOM: usize = 1024;

/// An empty text with room for an answer, which then allocates no memory.
fn room(alloc: Global) -> Result<String, AllocError>
    ensures empty { IfOk result (λ text. string_bytes text ≡ []) }
    ensures wide { IfOk result (λ text. string_len text + 1024 ≤ string_capacity text) }
{
    String::with_capacity(alloc, ROOM)
}

/// The text of an error.
fn fault_text(alloc: Global, fault: RequestFault) -> Result<String, AllocError>
    ensures { IfOk result (λ text. string_bytes text ≡ compact_text (fault_body fault)) }
{
    let mut answer = room(alloc)?;
    push_fault(&mut answer, &fault);
    Ok(answer)
}

fn unknown_command_text(alloc: Global) -> Result<String, AllocError>
    ensures { IfOk result (λ text. string_bytes text ≡ compact_text unknown_command) }
{
    let mut answer = room(alloc)?;
    push_error(
        &mut answer,
        "bad_command",
        "The command is not known.",
        None,
        None,
    );
    Ok(answer)
}

/// Applies a batch, and answers what the keeper answered, in room that was allocated before.
fn apply_batch<K: Keeper>(
    keeper: &mut K,
    batch: &Batch,
    mut answer: String,
) -> Result<String, Fault>
    requires empty { string_bytes answer ≡ [] }
    requires wide { string_len answer + 1024 ≤ string_capacity answer }
    ensures answered { AsKeeper K.model keeper.old keeper.new (batch_value batch.now) result }
    ensures says { K.model.is_clean keeper.new → (s : State) → K.model.represents keeper.old s →
        SaysOf K.model s (batch_answer s (Ok (batch_value batch.now))) result keeper.new }
{
    let reply = keeper.apply(batch)?;
    push_reply_body(&mut answer, batch, reply);
    Ok(answer)
}

/// The answer to a batch over any keeper, in room that is allocated before the batch is
/// applied.
///
/// # Errors
///
/// The fault of the keeper, or `Memory`, if the keeper was not called.
fn answer_batch_over<K: Keeper>(alloc: Global, keeper: &mut K, text: &str) -> Result<String, Fault>
    ensures answered { AnswersBatch K.model keeper.old keeper.new (batch_of text.now) result }
    ensures says { K.model.is_clean keeper.new → (s : State) → K.model.represents keeper.old s →
        SaysOf K.model s (batch_answer s (batch_of text.now)) result keeper.new }
{
    let Ok(mut answer) = room(alloc) else {
        return Err(Fault::Memory);
    };
    match read_batch(alloc, text.as_bytes()) {
        Ok(batch) => apply_batch(keeper, &batch, answer),
        Err(BatchFault::Memory) => Err(Fault::Memory),
        Err(fault) => {
            push_fault(&mut answer, &RequestFault::Batch(fault));
            Ok(answer)
        }
    }
}

/// The answer to a batch. In memory the only fault is `Memory`.
fn answer_batch(alloc: Global, keeper: &mut PlainKeeper, text: &str) -> Result<String, AllocError>
    ensures { (s : State) → IsPlainState keeper.old s
        → SaysOr s (batch_answer s (batch_of text.now)) result keeper.new }
{
    match answer_batch_over(alloc, keeper, text) {
        Ok(answer) => Ok(answer),
        Err(_) => Err(AllocError),
    }
}

/// The answer to a page.
fn answer_page(
    alloc: Global,
    keeper: &mut PlainKeeper,
    collection: &str,
    query: Option<&str>,
) -> Result<String, AllocError>
    ensures { (s : State) → IsPlainState keeper.old s
        → SaysOr s (record {
          body = page_body s collection.now
              (query_of (option_copied query.entry));
          state = s;
        }) result keeper.new }
{
    match read_query(alloc, query) {
        Ok(query) => match keeper.page(collection, &query) {
            Ok(Some(page)) => line_page_text(alloc, &page),
            Ok(None) => fault_text(alloc, RequestFault::NotFound),
            Err(_) => Err(AllocError),
        },
        Err(QueryFault::Memory) => Err(AllocError),
        Err(fault) => fault_text(alloc, RequestFault::Query(fault)),
    }
}

/// The answer to a lookup of a feature.
fn answer_feature(
    alloc: Global,
    keeper: &mut PlainKeeper,
    collection: &str,
    id: &str,
) -> Result<String, AllocError>
    ensures { (s : State) → IsPlainState keeper.old s
        → SaysOr s (record { body = found_feature (feature_in s collection.now id.now); state = s })
        result keeper.new }
{
    match keeper.feature(collection, id) {
        Ok(Some(feature)) => line_feature_text(alloc, &feature),
        Ok(None) => fault_text(alloc, RequestFault::NotFound),
        Err(_) => Err(AllocError),
    }
}

/// The answer to a request, or to a line that is not a request.
#[tactic(auto, unfolding(crate::specs::Answers::answer_to))]
fn answer_request(
    alloc: Global,
    keeper: &mut PlainKeeper,
    request: Option<Request<'_>>,
) -> Result<String, AllocError>
    ensures { (s : State) → IsPlainState keeper.old s
        → SaysOr s (answer_to s (option_map request_value request.entry)) result keeper.new }
{
    match request {
        Some(Request::Batch { text }) => answer_batch(alloc, keeper, text),
        Some(Request::Page { collection, query }) => answer_page(alloc, keeper, collection, query),
        Some(Request::Feature { collection, id }) => answer_feature(alloc, keeper, collection, id),
        None => unknown_command_text(alloc),
    }
}

/// Answers a line, without its line feed: the reply to a batch, a page, a feature or an error, as
/// compact JSON. An empty line is not answered.
///
/// # Errors
///
/// Out of memory. The ledger is then as it was, and the line may be answered again. Once a batch
/// was applied no memory is allocated, so it is always answered.
pub fn answer_line(
    alloc: Global,
    keeper: &mut PlainKeeper,
    line: &[u8],
) -> Result<Option<String>, AllocError>
    // The text and the state afterwards are those of the answer to the line in the state before;
    // if memory ran out the state is the one before.
    ensures answered { (s : State) → IsPlainState keeper.old s → line.now ≢ []
        → LineSays s (answer_to s (request_in line.now)) result keeper.new }
    // An empty line is skipped.
    ensures empty { line.now ≡ [] → (result ≡ Ok None)
        × ((s : State) → IsPlainState keeper.old s → IsPlainState keeper.new s) }
{
    if line.is_empty() {
        return Ok(None);
    }
    let request = read_request(line);
    Ok(Some(answer_request(alloc, keeper, request)?))
}
