//! Answers, sent to any writer.
ghost use Rattle.std.specs.Prelude.{◌++◌};
ghost use Rattle.streetmap_http.specs.SentAnswers.{SentSays};

use std::io::Write;
use streetmap_text_lines::write_bytes;

/// How much of an answer a writer took.
#[derive(Clone, Copy, PartialEq, Eq)]
pub enum Sent {
    /// All of it.
    Whole,
    /// A prefix of it, and whether that has a byte: a write failed or took no byte.
    Part(bool),
}

/// Writes the head and the body of an answer. If a write fails or takes no byte, a prefix of the
/// two was written.
pub fn send<W: Write>(writer: &mut W, head: &[u8], body: &[u8]) -> Sent
    ensures { SentSays result (head.now ++ body.now) (W.contents writer.old)
        (W.contents writer.new) }
{
    if let Err(stopped) = write_bytes(writer, head) {
        return Sent::Part(stopped.written > 0);
    }
    match write_bytes(writer, body) {
        Ok(()) => Sent::Whole,
        Err(stopped) => Sent::Part(!head.is_empty() || stopped.written > 0),
    }
}
