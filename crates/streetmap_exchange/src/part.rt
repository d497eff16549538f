//! Parts of an export: its pages, and their texts.
ghost use Rattle.std.specs.Prelude.{◌≡◌, ◌++◌, Err, OnOk, OnErr, IfErr, map, string_bytes};
ghost use Rattle.std.specs.Prelude.{codes};
ghost use Rattle.std.specs.Io.KnownBytes.{Appends};
ghost use Rattle.streetmap_ledger.specs.PageView.{page_value};
ghost use Rattle.streetmap_ledger.specs.State.{State};
ghost use Rattle.streetmap_replay.specs.Calls.{AreReads};
ghost use Rattle.streetmap_exchange.specs.ExportFaults.{IsWriteFault, IsEndFault, export_answer};
ghost use Rattle.streetmap_text_lines.specs.Written.{AppendsBeginning, AppendsLess};
ghost use Rattle.streetmap_exchange.specs.Exports.{ShowsPart, part_text};

use crate::fault::ExportFault;
use std::alloc::{AllocError, Global};
use std::io::Write;
use streetmap_feature_text::{PackedFeature, push_comma};
use streetmap_geojson::Id;
use streetmap_ledger::{Keeper, Page};
use streetmap_query::Query;
use streetmap_text_lines::WriteFault;

/// The page of a thousand features after an id.
pub(crate) fn page_after<K: Keeper>(
    keeper: &mut K,
    collection: &str,
    after: Option<Id>,
) -> Result<Page, ExportFault>
    ensures reads { AreReads K.model keeper.old keeper.new (export_answer result) }
    ensures shows { K.model.is_clean keeper.new → (s : State) → K.model.represents keeper.old s →
        ShowsPart s collection.now after result }
{
    let query = Query {
        bbox: None,
        datetime: None,
        limit: 1000,
        after,
    };
    match keeper.page(collection, &query) {
        Ok(Some(page)) => Ok(page),
        Ok(None) => Err(ExportFault::NoCollection),
        Err(fault) => Err(ExportFault::Stopped(fault)),
    }
}

/// The last id of a page, if more features follow.
pub(crate) fn next_id(page: Page) -> Option<Id>
    ensures { result ≡ (page_value page).next }
{
    let next = page.next;
    match next {
        Some(text) => match Id::new(text) {
            Ok(id) => Some(id),
            Err(_) => None,
        },
        None => None,
    }
}

/// Appends features as they are in an array, each after a comma; the first has one only if others
/// come before it.
fn push_part(out: &mut String, features: &[PackedFeature], later: bool) -> Result<(), AllocError>
    ensures { OnOk result (string_bytes out.new
        ≡ string_bytes out.old ++ part_text later features.now) }
{
    let mut following = later;
    for feature in features {
        push_comma(out, following)?;
        out.push_str(feature.text())?;
        following = true;
    }
    Ok(())
}

/// Writes bytes.
pub(crate) fn write_bytes<W: Write>(writer: &mut W, bytes: &[u8]) -> Result<(), ExportFault>
    ensures ok { OnOk result (Appends (W.contents writer.old) (W.contents writer.new) bytes.now) }
    ensures err { OnErr result (AppendsBeginning (W.contents writer.old) (W.contents writer.new)
        bytes.now) }
    ensures less { result ≡ Err ExportFault.WriteFailed →
        AppendsLess (W.contents writer.old) (W.contents writer.new) bytes.now }
    ensures fault { IfErr result IsWriteFault }
{
    match streetmap_text_lines::write_bytes(writer, bytes) {
        Ok(()) => Ok(()),
        Err(stopped) => Err(ExportFault::of_write(stopped.why)),
    }
}

/// Writes features as they are in an array.
pub(crate) fn write_part<W: Write>(
    alloc: Global,
    writer: &mut W,
    features: &[PackedFeature],
    later: bool,
) -> Result<(), ExportFault>
    ensures ok { OnOk result (Appends (W.contents writer.old) (W.contents writer.new)
        (part_text later features.now)) }
    ensures err { OnErr result (AppendsBeginning (W.contents writer.old) (W.contents writer.new)
        (part_text later features.now)) }
    ensures less { result ≡ Err ExportFault.WriteFailed →
        AppendsLess (W.contents writer.old) (W.contents writer.new)
        (part_text later features.now) }
    ensures fault { IfErr result IsWriteFault }
{
    let mut text = String::new(alloc);
    push_part(&mut text, features, later)?;
    write_bytes(writer, text.as_str().as_bytes())
}

/// Writes what follows the features, and flushes the writer.
pub(crate) fn write_end<W: Write>(writer: &mut W) -> Result<(), ExportFault>
    ensures ok { OnOk result (Appends (W.contents writer.old) (W.contents writer.new)
        (codes "],\"type\":\"FeatureCollection\"}\n")) }
    ensures err { OnErr result (AppendsBeginning (W.contents writer.old) (W.contents writer.new)
        (codes "],\"type\":\"FeatureCollection\"}\n")) }
    ensures less { result ≡ Err ExportFault.WriteFailed →
        AppendsLess (W.contents writer.old) (W.contents writer.new)
        (codes "],\"type\":\"FeatureCollection\"}\n") }
    ensures flush { result ≡ Err ExportFault.FlushFailed →
        Appends (W.contents writer.old) (W.contents writer.new)
        (codes "],\"type\":\"FeatureCollection\"}\n") }
    ensures fault { IfErr result IsEndFault }
{
    write_bytes(writer, b"],\"type\":\"FeatureCollection\"}\n")?;
    match writer.flush() {
        Ok(()) => Ok(()),
        Err(error) => Err(ExportFault::of_flush(WriteFault::of_write(&error))),
    }
}
