//! Bytes, written in as many calls as the writer needs.
ghost use Rattle.std.specs.Prelude.{◌≡◌, ◌-◌, ◌<◌, length, OnOk, IfErr};
ghost use Rattle.std.specs.Io.KnownBytes.{Appends};
ghost use Rattle.streetmap_text_lines.specs.Written.{AppendsFirst};

use crate::fault::WriteFault;
use std::io::{ErrorKind, Write};

/// Bytes were not written whole: a write failed, or took none.
#[derive(Clone, Copy, Drop)]
pub struct NotWritten {
    /// How many of them were written.
    pub written: usize,
    /// Why no more were.
    pub why: WriteFault,
}

/// All but the rest were written.
fn all_but(bytes: &[u8], rest: &[u8], why: WriteFault) -> NotWritten
    ensures written { result.written ≡ length bytes.now - length rest.now }
    ensures why { result.why ≡ why }
{
    NotWritten {
        written: bytes.len().saturating_sub(rest.len()),
        why,
    }
}

/// Writes bytes whole.
///
/// # Errors
///
/// If a write fails, or takes none of them: a prefix of the bytes was written, and not all.
#[tactic(auto, using(crate::proofs::WriteLemmas::part_first))]
pub fn write_bytes<W: Write>(writer: &mut W, bytes: &[u8]) -> Result<(), NotWritten>
    ensures ok { OnOk result
        (Appends (W.contents writer.old) (W.contents writer.new) bytes.now) }
    ensures err { IfErr result (λ stopped. AppendsFirst stopped.written
        (W.contents writer.old) (W.contents writer.new) bytes.now) }
    ensures less { IfErr result (λ stopped. stopped.written < length bytes.now) }
{
    let mut rest = bytes;
    for _turn in 0..u64::MAX {
        if rest.is_empty() {
            return Ok(());
        }
        match writer.write(rest) {
            Ok(0) => return Err(all_but(bytes, rest, WriteFault::WriteFailed)),
            Ok(count) => rest = &rest[count..],
            Err(error) if error.kind() == ErrorKind::Interrupted => {}
            Err(error) => return Err(all_but(bytes, rest, WriteFault::of_write(&error))),
        }
    }
    if rest.is_empty() {
        Ok(())
    } else {
        Err(all_but(bytes, rest, WriteFault::WriteFailed))
    }
}
