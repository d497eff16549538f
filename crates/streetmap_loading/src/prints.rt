//! The batches of a text, written.
ghost use Rattle.streetmap_loading.specs.Loads.{Skips};
ghost use Rattle.streetmap_loading.specs.Options.{load_value, load_skips};
ghost use Rattle.streetmap_loading.specs.TextPrints.{PrintsText};

use crate::line_sink::LineSink;
use crate::listener::Listener;
use crate::load::Load;
use crate::loaded::Loaded;
use crate::text_load::send_text;
use std::alloc::Global;
use std::io::{BufRead, Write};

/// Writes the batches of a text's features, a line each, instead of applying them.
pub fn print_text<W: Write, R: BufRead + Drop, L: Listener + Drop>(
    alloc: Global,
    sink: &mut LineSink<W>,
    reader: R,
    load: Load,
    listener: L,
) -> Loaded
    ensures prints { PrintsText (load_value load) (R.remaining reader)
        (W.contents sink.old.writer) (W.contents sink.new.writer) result }
    ensures skips { Skips (load_skips (load_value load) (R.remaining reader)) result }
{
    send_text(alloc, sink, reader, load, listener)
}
