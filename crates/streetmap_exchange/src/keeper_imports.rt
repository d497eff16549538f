//! Texts of features, imported into a keeper.
ghost use Rattle.std.specs.Prelude.{◌≡◌, ◌≤◌, ◌+◌, [], Ok, IfOk, IfErr};
ghost use Rattle.std.specs.Prelude.{string_bytes, string_len, string_capacity};
ghost use Rattle.streetmap_batch.specs.BatchValue.{BatchValue};
ghost use Rattle.streetmap_batch.specs.BatchView.{batch_value};
ghost use Rattle.streetmap_ledger.specs.State.{State};
ghost use Rattle.streetmap_replay.specs.Calls.{AreCalls};
ghost use Rattle.streetmap_exchange.specs.Imports.{import_of};
ghost use Rattle.streetmap_exchange.specs.KeeperImports.{IsReported, IsOfReply, ImportsBatch};
ghost use Rattle.streetmap_exchange.specs.KeeperImports.{Imports, import_answer};

use crate::fault::ImportFault;
use crate::imports::import_batch;
use crate::progress::Progress;
use std::alloc::Global;
use streetmap_batch::Batch;
use streetmap_bodies::push_reply_body;
use streetmap_ledger::{Keeper, Reply};

/// The room that is allocated for the body of a reply before its batch is applied, in bytes.
const ROOM: usize = 320;

/// An empty text with room for the body of a reply, which then allocates no memory.
fn room(alloc: Global) -> Result<String, ImportFault>
    ensures empty { IfOk result (λ body. string_bytes body ≡ []) }
    ensures wide { IfOk result (λ body. string_len body + 320 ≤ string_capacity body) }
    ensures memory { IfErr result (λ fault. fault ≡ ImportFault.Memory) }
{
    Ok(String::with_capacity(alloc, ROOM)?)
}

/// The result for the keeper's reply to a batch, in room that was allocated before.
fn report(body: String, batch: &Batch, reply: Reply) -> Result<String, ImportFault>
    requires empty { string_bytes body ≡ [] }
    requires wide { string_len body + 320 ≤ string_capacity body }
    ensures { IsReported (batch_value batch.now).key reply result }
{
    match reply {
        Reply::Accepted(_, _) | Reply::Repeated(_, _) => {
            let mut body = body;
            push_reply_body(&mut body, batch, reply);
            Ok(body)
        }
        Reply::Refused(refusal, place) => Err(ImportFault::Refused(refusal, place)),
    }
}

/// Has the keeper act on a batch, and returns its reply in room that was allocated before.
fn apply<K: Keeper>(keeper: &mut K, batch: &Batch, body: String) -> Result<String, ImportFault>
    requires empty { string_bytes body ≡ [] }
    requires wide { string_len body + 320 ≤ string_capacity body }
    ensures reported { IsOfReply (batch_value batch.now).key
        (λ r. K.model.applies keeper.old (batch_value batch.now) r keeper.new)
        (keeper.new ≡ keeper.old) result }
    ensures calls { AreCalls K.model keeper.old keeper.new (import_answer result) }
    ensures imports { K.model.is_clean keeper.new → (s : State) → K.model.represents keeper.old s →
        ImportsBatch K.model keeper.old keeper.new s (batch_value batch.now) result }
{
    match keeper.apply(batch) {
        Ok(reply) => report(body, batch, reply),
        Err(fault) => Err(ImportFault::Stopped(fault)),
    }
}

/// Applies the batch that a text was imported by (`import_batch`) to a keeper, and returns the body
/// of its reply, as compact JSON text. The room for it is allocated before the keeper receives the
/// batch, so a batch that acted is answered.
///
/// # Errors
///
/// `Memory` if the room cannot be allocated: the keeper received no request. `Refused` if the batch
/// is refused: nothing changed. `Stopped` with the fault of the keeper.
pub fn apply_import<K: Keeper>(
    alloc: Global,
    keeper: &mut K,
    batch: &Batch,
) -> Result<String, ImportFault>
    // The keeper received no request and is as it was, or what is returned is what it replied.
    ensures reported { IsOfReply (batch_value batch.now).key
        (λ r. K.model.applies keeper.old (batch_value batch.now) r keeper.new)
        (keeper.new ≡ keeper.old) result }
    ensures calls { AreCalls K.model keeper.old keeper.new (import_answer result) }
    // What is returned, and the state afterwards, are those of the batch.
    ensures imports { K.model.is_clean keeper.new → (s : State) → K.model.represents keeper.old s →
        Imports K.model keeper.old keeper.new s (Ok (batch_value batch.now)) result }
{
    let body = room(alloc)?;
    apply(keeper, batch, body)
}

/// Puts the features of a FeatureCollection text into a collection by one batch: `import_batch`,
/// and then `apply_import`. It reports to `progress` how many features are read.
///
/// # Errors
///
/// The first refusal of `import_batch`, and `Refused` if the batch is refused: nothing changed.
/// `Stopped` with the fault of the keeper.
pub fn import<K: Keeper, P: Progress>(
    alloc: Global,
    keeper: &mut K,
    text: &[u8],
    key: &str,
    collection: &str,
    replace: bool,
    progress: &mut P,
) -> Result<String, ImportFault>
    // The keeper received no request and is as it was, or what is returned is what it replied to
    // the batch that the text means.
    ensures reported { (b : BatchValue) → import_of replace key.now collection.now text.now ≡ Ok b →
        IsOfReply b.key (λ r. K.model.applies keeper.old b r keeper.new)
        (keeper.new ≡ keeper.old) result }
    ensures calls { AreCalls K.model keeper.old keeper.new (import_answer result) }
    // What is returned, and the state afterwards, are those of the batch that the text means.
    ensures imports { K.model.is_clean keeper.new → (s : State) → K.model.represents keeper.old s →
        Imports K.model keeper.old keeper.new s
        (import_of replace key.now collection.now text.now) result }
{
    let batch = import_batch(alloc, text, key, collection, replace, progress)?;
    apply_import(alloc, keeper, &batch)
}
