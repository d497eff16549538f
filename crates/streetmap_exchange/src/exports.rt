//! Collections, written as texts.
ghost use Rattle.std.specs.Prelude.{◌≡◌, Some, None};
ghost use Rattle.streetmap_ledger.specs.Pages.{page_in};
ghost use Rattle.streetmap_ledger.specs.PageView.{page_value};
ghost use Rattle.streetmap_ledger.specs.State.{State};
ghost use Rattle.streetmap_replay.specs.Calls.{AreReads};
ghost use Rattle.streetmap_exchange.specs.ExportFaults.{export_answer};
ghost use Rattle.streetmap_exchange.specs.Exports.{Exports, part_query};

use crate::fault::ExportFault;
use crate::part::{next_id, page_after, write_bytes, write_end, write_part};
use crate::progress::{Progress, report};
use std::alloc::Global;
use std::io::Write;
use streetmap_ledger::{Keeper, Page};

/// Writes the text of a collection, of which this is the first page.
fn write_pages<K: Keeper, W: Write, P: Progress>(
    alloc: Global,
    keeper: &mut K,
    collection: &str,
    writer: &mut W,
    first: Page,
    progress: &mut P,
) -> Result<(), ExportFault>
    requires { K.model.cause keeper.old ≡ None }
    ensures reads { AreReads K.model keeper.old keeper.new (export_answer result) }
    ensures exports { K.model.is_clean keeper.new → (s : State) → K.model.represents keeper.old s →
        page_in s collection.now (part_query None) ≡ Some (page_value first) →
        Exports s collection.now result (W.contents writer.old) (W.contents writer.new) }
{
    write_bytes(writer, b"{\"features\":[")?;
    let mut page = first;
    let mut later = false;
    let mut written = 0u64;
    for _turn in 0..u64::MAX {
        write_part(alloc, writer, page.features.as_slice(), later)?;
        later = later || !page.features.is_empty();
        written = written.saturating_add(page.features.len() as u64);
        report(progress, written);
        match next_id(page) {
            Some(id) => page = page_after(keeper, collection, Some(id))?,
            None => return write_end(writer),
        }
    }
    Err(ExportFault::WriteFailed)
}

/// Writes the FeatureCollection (RFC 7946, section 3.3) of all features of a collection, in byte
/// order of their ids, as compact JSON text with a line feed after it. It reads pages of a thousand
/// features from the keeper, and reports to `progress` how many are written.
///
/// # Errors
///
/// `NoCollection` if the collection does not exist: nothing is written. `Stopped` at a fault of the
/// keeper, or if memory ran out: a prefix of the text is written. `WriteFailed` if a write failed:
/// a prefix is written, and not all of the text. `FlushFailed` if a flush failed: all of the text
/// is written. After 2^64 - 1 pages it ends as after a failed write.
pub fn export<K: Keeper, W: Write, P: Progress>(
    alloc: Global,
    keeper: &mut K,
    collection: &str,
    writer: &mut W,
    progress: &mut P,
) -> Result<(), ExportFault>
    // The state stays, and a fault of the keeper is returned.
    ensures reads { AreReads K.model keeper.old keeper.new (export_answer result) }
    // What is written is the text of the collection, or a prefix of it: not all of the text if a
    // write failed, and all of it if only a flush failed.
    ensures exports { K.model.is_clean keeper.new → (s : State) → K.model.represents keeper.old s →
        Exports s collection.now result (W.contents writer.old) (W.contents writer.new) }
{
    let first = page_after(keeper, collection, None)?;
    write_pages(alloc, keeper, collection, writer, first, progress)
}
