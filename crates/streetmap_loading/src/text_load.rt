//! The features of a text, loaded.
ghost use Rattle.std.specs.Prelude.{◌≤◌, IsTrue, length, string_bytes};
ghost use Rattle.streetmap_batch.specs.Names.{is_key};
ghost use Rattle.streetmap_ledger.specs.Keep.{AreCalls};
ghost use Rattle.streetmap_ledger.specs.State.{State};
ghost use Rattle.streetmap_loading.specs.KeeperLoads.{LoadsTo, keeper_fault};
ghost use Rattle.streetmap_loading.specs.TextLoads.{SendsItems, SendsText};
ghost use Rattle.streetmap_loading.specs.Loads.{Skips};
ghost use Rattle.streetmap_loading.specs.Options.{load_value, load_items, load_skips};

use crate::keeper_sink::KeeperSink;
use crate::listener::Listener;
use crate::load::Load;
use crate::loaded::Loaded;
use crate::sink::Sink;
use crate::source::Edits;
use crate::text_edits::TextEdits;
use crate::whole::send_all;
use json::Scratch;
use std::alloc::Global;
use std::io::BufRead;
use streetmap_ledger::Keeper;

/// Sends the edits of a source, of which nothing remains.
fn send_source<S: Sink, E: Edits + Drop>(
    alloc: Global,
    sink: &mut S,
    edits: E,
    key: String,
    each: usize,
) -> Loaded
    requires named { IsTrue (is_key (string_bytes key)) }
    requires short { length (string_bytes key) ≤ 44 }
    requires some { 1 ≤ each }
    requires most { each ≤ 10000 }
    ensures sends { SendsItems S.takes each (string_bytes key) sink.old sink.new (E.left edits)
        result }
    ensures skips { Skips (E.skips edits) result }
{
    let mut edits = edits;
    send_all(alloc, sink, &mut edits, key, each)
}

/// Sends the edits of the features of a text in batches of the load's key, after the opening if the
/// load has one: `specs/Texts` defines the items of the text, and `specs/Packs` of
/// `streetmap_packing` the batches.
pub fn send_text<S: Sink, R: BufRead + Drop, L: Listener + Drop>(
    alloc: Global,
    sink: &mut S,
    reader: R,
    load: Load,
    listener: L,
) -> Loaded
    ensures sends { SendsText S.takes (load_value load) sink.old sink.new (R.remaining reader)
        result }
    ensures skips { Skips (load_skips (load_value load) (R.remaining reader)) result }
{
    let Load {
        key,
        each,
        rules,
        opening,
    } = load;
    let edits = TextEdits {
        alloc,
        reader,
        listener,
        line: Vec::new(alloc),
        scratch: Scratch::new(alloc),
        rules,
        opening,
        features: 0,
        skipped: 0,
        bytes: 0,
    };
    send_source(alloc, sink, edits, key, each)
}

/// Applies the features of a text to a keeper in batches of the load's key. A batch that was
/// accepted before is repeated, and changes nothing: so the same load again changes nothing, and a
/// load that was interrupted continues by the same call (`laws`).
///
/// The load ends at the first fault: nothing of the current batch and after it is applied.
pub fn load_text<K: Keeper, R: BufRead + Drop, L: Listener + Drop>(
    alloc: Global,
    sink: &mut KeeperSink<K>,
    reader: R,
    load: Load,
    listener: L,
) -> Loaded
    ensures calls { AreCalls K.model sink.old.keeper sink.new.keeper (keeper_fault result.fault) }
    // The features that were read, the batches of them that were sent, how the load ended, and the
    // state that the keeper then represents; if its store failed, what a crash can leave.
    ensures loads { K.model.is_clean sink.new.keeper → (s : State) →
        K.model.represents sink.old.keeper s →
        LoadsTo K.model sink.old.keeper sink.new.keeper s load.each (load_value load).key
        (load_items (load_value load) (R.remaining reader)) result }
    // How many features at fault were skipped.
    ensures skips { Skips (load_skips (load_value load) (R.remaining reader)) result }
{
    send_text(alloc, sink, reader, load, listener)
}
