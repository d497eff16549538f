//! All edits of a source, sent.
ghost use Rattle.std.specs.Prelude.{◌≤◌, IsTrue, length, string_bytes};
ghost use Rattle.streetmap_batch.specs.Names.{is_key};
ghost use Rattle.streetmap_loading.specs.Loads.{Loads, Skips};

use crate::load_fault::LoadFault;
use crate::loaded::Loaded;
use crate::progress::Sending;
use crate::sink::Sink;
use crate::source::Edits;
use std::alloc::Global;

/// The most edits of a load.
pub const MAX_EDITS: u64 = 100_000_000_000_000;

/// Sends edits in batches K.1, K.2, .. of the key K, each the longest next run of them with at most
/// `each` edits and 8,388,608 bytes of batch text. A batch that is full by its number of edits is
/// sent before the next edit is read.
///
/// An edit at fault ends the load: the batches before the current one are sent, and nothing of that
/// one and after it. After `MAX_EDITS` edits the load ends as if a read of the text failed.
pub fn send_all<S: Sink, E: Edits>(
    alloc: Global,
    sink: &mut S,
    edits: &mut E,
    key: String,
    each: usize,
) -> Loaded
    requires named { IsTrue (is_key (string_bytes key)) }
    requires short { length (string_bytes key) ≤ 44 }
    requires some { 1 ≤ each }
    requires most { each ≤ 10000 }
    ensures sends { Loads S.takes each (string_bytes key) sink.old sink.new
        (E.left edits.old) (E.left edits.new) result }
    ensures skips { Skips (E.skips edits.old) result }
{
    let mut sending = match Sending::new(alloc, key, each) {
        Ok(sending) => sending,
        Err(_) => {
            return Loaded {
                edits: 0,
                batches: 0,
                taken: 0,
                serial: None,
                skipped: edits.skipped(),
                fault: Some(LoadFault::Memory),
            };
        }
    };
    for turn in 0..MAX_EDITS {
        if let Err(fault) = sending.fill(alloc, sink) {
            return sending.ended(turn, edits.skipped(), fault);
        }
        match edits.next_edit() {
            Ok(Some(placed)) => {
                if let Err(fault) = sending.put(alloc, sink, placed) {
                    return sending.ended(turn + 1, edits.skipped(), fault);
                }
            }
            Ok(None) => return sending.finish(alloc, sink, turn, edits.skipped()),
            Err(fault) => return sending.ended(turn, edits.skipped(), fault),
        }
    }
    sending.ended(MAX_EDITS, edits.skipped(), LoadFault::ReadFailed)
}
