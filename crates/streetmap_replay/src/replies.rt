//! Where the replies to lines are reported.
ghost use Rattle.std.specs.Prelude.{OnOk};
ghost use Rattle.streetmap_batch.specs.BatchView.{batch_value};
ghost use Rattle.streetmap_batch.specs.Text.{Text};
ghost use Rattle.streetmap_ledger.specs.declared.reply.Reply.{Reply};

use streetmap_batch::Batch;
use streetmap_ledger::Reply;

/// A reply was not reported.
#[derive(Clone, Copy, Drop)]
pub struct NotReported;

/// Receives the replies to lines.
pub trait Replies {
    /// From the first value to the second it received this reply to the batch with this key.
    ghost reports: { Self → Text → Reply → Self → Type 0 };

    /// Receives the reply to a batch. No memory should be allocated, since the batch has acted.
    fn report(&mut self, batch: &Batch, reply: Reply) -> Result<(), NotReported>
        ensures { OnOk result (reports self.old (batch_value batch.now).key reply self.new) };
}
