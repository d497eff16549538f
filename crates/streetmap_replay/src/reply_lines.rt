//! Replies, written as lines of text.
ghost use Rattle.std.specs.Prelude.{◌≡◌, ◌≤◌, ◌++◌, ◌∷◌, [], IfOk, string_capacity};
ghost use Rattle.std.specs.Io.KnownBytes.{Appends};
ghost use Rattle.streetmap_replay.specs.Replies.{reply_line};

use crate::replies::{NotReported, Replies};
use std::alloc::{AllocError, Global};
use std::io::Write;
use streetmap_batch::Batch;
use streetmap_bodies::push_reply_body;
use streetmap_ledger::Reply;
use streetmap_text_lines::write_bytes;

/// The room that the body of a reply needs, in bytes.
const ROOM: usize = 320;

/// A writer that receives replies and writes for each the body that HTTP answers, compact JSON, and
/// a line feed, in room that was allocated before.
#[derive(Drop)]
pub struct ReplyLines<W> {
    pub writer: W,
    body: String,
    ghost wide: { 320 ≤ string_capacity body },
}

impl<W: Write + Drop> ReplyLines<W> {
    /// Allocates the room for a reply.
    pub fn new(alloc: Global, writer: W) -> Result<ReplyLines<W>, AllocError>
        ensures { IfOk result (λ lines. lines.writer ≡ writer) }
    {
        let body = String::with_capacity(alloc, ROOM)?;
        Ok(ReplyLines { writer, body })
    }
}

impl<W: Write> Replies for ReplyLines<W> {
    ghost use Rattle.std.specs.Io.KnownBytes.{Appends};
    ghost use Rattle.streetmap_replay.specs.Replies.{reply_line};

    ghost reports = { λ before key reply after.
        Appends (W.contents before.writer) (W.contents after.writer) (reply_line key reply) };

    fn report(&mut self, batch: &Batch, reply: Reply) -> Result<(), NotReported> {
        self.body.clear();
        push_reply_body(&mut self.body, batch, reply);
        if write_bytes(&mut self.writer, self.body.as_str().as_bytes()).is_err() {
            return Err(NotReported);
        }
        if write_bytes(&mut self.writer, b"\n").is_err() || self.writer.flush().is_err() {
            return Err(NotReported);
        }
        Ok(())
    }
}
