//! Lines over a ledger in memory.
use std::io::{BufReader, BufWriter, writer};
use streetmap_lines::{LinesFault, lines};

/// Answers the lines of standard input on standard output.
pub(crate) fn run(rt: &HostRuntime) -> Result<(), LinesFault> {
    let Ok(mut reader) = BufReader::new(rt.alloc(), rt.reader()) else {
        return Err(LinesFault::Memory);
    };
    let Ok(mut output) = BufWriter::new(rt.alloc(), writer(rt)) else {
        return Err(LinesFault::Memory);
    };
    lines(rt.alloc(), &mut reader, &mut output)
}
