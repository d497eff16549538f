//! A text, read without being loaded.
ghost use Rattle.streetmap_loading.specs.CheckedTexts.{ChecksText};
ghost use Rattle.streetmap_loading.specs.Loads.{Skips};
ghost use Rattle.streetmap_loading.specs.Options.{load_value, load_skips};

use crate::listener::Listener;
use crate::load::Load;
use crate::load_fault::LoadFault;
use crate::loaded::Loaded;
use crate::sink::Sink;
use crate::text_load::send_text;
use std::alloc::Global;
use std::io::BufRead;
use streetmap_batch::Batch;

/// A sink that drops each batch.
#[derive(Drop)]
struct Nowhere;

impl Sink for Nowhere {
    ghost use Rattle.std.specs.Prelude.{◌≡◌, None, Ok};

    ghost takes = { λ _ _ result _. result ≡ Ok None };

    fn take(&mut self, _batch: &Batch) -> Result<Option<u64>, LoadFault> {
        Ok(None)
    }
}

/// Reads a text as a load does, and loads nothing: if a load skips features at fault, each is
/// reported to the listener.
pub fn check_text<R: BufRead + Drop, L: Listener + Drop>(
    alloc: Global,
    reader: R,
    load: Load,
    listener: L,
) -> Loaded
    ensures checks { ChecksText (load_value load) (R.remaining reader) result }
    ensures skips { Skips (load_skips (load_value load) (R.remaining reader)) result }
{
    let mut sink = Nowhere;
    send_text(alloc, &mut sink, reader, load, listener)
}
