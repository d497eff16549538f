//! The text that is imported.
ghost use Rattle.std.specs.Prelude.{◌≡◌, IfOk, IfSome, take};

use crate::fault;
use std::alloc::Global;
use std::fs::File;
use std::io::Read;
use streetmap_faults::ProgramFault;

/// The most bytes that are read of a text: one more than `streetmap_exchange::MAX_TEXT`, so that a
/// text that is too large is recognised, and is not read to its end.
const MOST_READ: u64 = 8_388_609;

/// The bytes of a text, or the first of them if it is too large.
fn read_first<R: Read + Drop>(alloc: Global, reader: R) -> Result<Vec<u8>, ProgramFault>
    ensures { IfOk result (λ text.
        IfSome (R.remaining reader) (λ all. text.items ≡ take 8388609 all)) }
{
    let mut first = reader.take(MOST_READ);
    let mut text = Vec::new(alloc);
    match first.read_to_end(&mut text) {
        Ok(_) => Ok(text),
        Err(error) => Err(fault::of_text(&error)),
    }
}

/// Reads the text of a file, or its first bytes if it is too large.
pub(crate) fn read(rt: &HostRuntime, path: &str) -> Result<Vec<u8>, ProgramFault> {
    match File::open(rt, path) {
        Ok(file) => read_first(rt.alloc(), file),
        Err(error) => Err(fault::of_text(&error)),
    }
}
