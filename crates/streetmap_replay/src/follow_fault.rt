//! Why lines are not followed to their end.
use streetmap_batch::BatchFault;
use streetmap_ledger::{Fault, Refusal};
use streetmap_text_lines::LineFault;

/// Why the next line is not followed, or its reply is not reported.
#[derive(Clone, Copy, Drop)]
pub enum FollowFault {
    /// It is not a batch, or memory ran out while it was read.
    Unread(BatchFault),
    /// Its serial is neither the next one nor that of its key.
    NotNext,
    /// Its batch is refused, with the place of the edit at fault, if any.
    Refused(Refusal, Option<u64>),
    /// The keeper answered with a fault.
    Stopped(Fault),
    /// It lacks its line feed.
    CutLine,
    /// It is too long, a read failed or memory ran out.
    NotRead(LineFault),
    /// It was followed, and its reply was not reported.
    NotReported,
}
