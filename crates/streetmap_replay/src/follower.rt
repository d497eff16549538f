//! Lines, followed in order.
ghost use Rattle.std.specs.Prelude.{ℕ, List, All as AllOf};
ghost use Rattle.streetmap_batch.specs.BatchValue.{BatchValue};
ghost use Rattle.streetmap_ledger.specs.State.{State};
ghost use Rattle.streetmap_batch.specs.BatchFacts.{IsSoundBatch};
ghost use Rattle.streetmap_replay.specs.FollowedLines.{follower};
ghost use Rattle.streetmap_replay.specs.Lines.{Line};
ghost use Rattle.streetmap_replay.specs.Beginnings.{IsOfJournal, FollowerBy};
ghost use Rattle.streetmap_replay.specs.Ends.{FollowsLines, end_answer};
ghost use Rattle.streetmap_replay.specs.Calls.{AreCalls};

use crate::actions::follow_line;
use crate::follow_fault::FollowFault;
use crate::length::MAX_LINE;
use crate::replies::Replies;
use std::alloc::Global;
use std::io::BufRead;
use streetmap_ledger::KeepsBatches;
use streetmap_text_lines::{LineFault, WholeLine, next_whole_line};

/// How many lines were followed and their replies reported, and why the next was not, if not all
/// lines were: it has the number after theirs.
#[derive(Clone, Copy, Drop)]
pub struct Followed {
    pub count: u64,
    pub fault: Option<FollowFault>,
}

/// Follows the lines of a reader, in order, up to the first that is not followed (`follow_line`),
/// has more than `MAX_LINE` bytes or lacks its line feed, and reports the reply to each. A batch
/// that was accepted before is repeated, and changes nothing: so the same lines, given again, go on
/// from the point at which this ended.
pub fn follow_lines<K: KeepsBatches, R: BufRead, T: Replies>(
    alloc: Global,
    keeper: &mut K,
    reader: &mut R,
    replies: &mut T,
) -> Followed
    ensures calls { AreCalls K.model keeper.old keeper.new (end_answer result.fault) }
    ensures follows { K.model.is_clean keeper.new → (s : State) → K.model.represents keeper.old s →
        FollowsLines K.model keeper.old keeper.new s (R.remaining reader.old)
        (R.remaining reader.new) T.reports replies.old replies.new result }
    // If the lines are a journal's, a follower goes on, or is as before.
    ensures beginnings { K.model.is_clean keeper.new → (bs : List BatchValue) (k : ℕ)
        (lines : List Line) → AllOf IsSoundBatch bs →
        K.model.represents keeper.old (follower bs k) →
        IsOfJournal bs lines (R.remaining reader.old) →
        FollowerBy bs k lines result.count result.fault (K.model.represents keeper.new) }
{
    for turn in 0..u64::MAX {
        let fault = match next_whole_line(alloc, reader, MAX_LINE) {
            Ok(WholeLine::Line(line)) => match follow_line(alloc, keeper, line.as_slice()) {
                Ok(it) => {
                    if replies.report(&it.batch, it.reply).is_ok() {
                        continue;
                    }
                    Some(FollowFault::NotReported)
                }
                Err(fault) => Some(fault),
            },
            Ok(WholeLine::Cut) => Some(FollowFault::CutLine),
            Ok(WholeLine::End) => None,
            Err(fault) => Some(FollowFault::NotRead(fault)),
        };
        return Followed { count: turn, fault };
    }
    Followed {
        count: u64::MAX,
        fault: Some(FollowFault::NotRead(LineFault::ReadFailed)),
    }
}
