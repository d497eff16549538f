//! One line, followed.
ghost use Rattle.std.specs.Prelude.{Ok};
ghost use Rattle.streetmap_batch.specs.BatchView.{batch_value};
ghost use Rattle.streetmap_replay.specs.FollowedLines.{acted, acted_next};
ghost use Rattle.streetmap_replay.specs.LineEffects.{acted_with, IsFollowed};
ghost use Rattle.streetmap_replay.specs.ParsedLines.{FollowsLine};

use crate::follow_fault::FollowFault;
use crate::line_bytes::read_line;
use crate::serial::is_next;
use std::alloc::Global;
use streetmap_batch::{Batch, read_batch};
use streetmap_ledger::{Keeper, KeepsBatches, Reply};

/// A batch that was accepted or repeated, and the reply to it.
#[derive(Drop)]
pub struct Acknowledged {
    pub batch: Batch,
    pub reply: Reply,
}

/// Applies a batch.
fn apply<K: Keeper>(keeper: &mut K, batch: &Batch) -> Result<Reply, FollowFault>
    ensures { IsFollowed K.model keeper.old keeper.new
        (λ s. acted s (Ok (batch_value batch.now))) result }
{
    match keeper.apply(batch) {
        Ok(Reply::Accepted(counts, serial)) => Ok(Reply::Accepted(counts, serial)),
        Ok(Reply::Repeated(counts, serial)) => Ok(Reply::Repeated(counts, serial)),
        Ok(Reply::Refused(why, place)) => Err(FollowFault::Refused(why, place)),
        Err(fault) => Err(FollowFault::Stopped(fault)),
    }
}

/// Applies a batch if its serial is the next one, or that of its key.
fn apply_next<K: KeepsBatches>(
    keeper: &mut K,
    serial: u64,
    batch: &Batch,
) -> Result<Reply, FollowFault>
    ensures { IsFollowed K.model keeper.old keeper.new
        (λ s. acted_next s serial (Ok (batch_value batch.now))) result }
{
    match is_next(keeper, serial, batch) {
        Ok(true) => apply(keeper, batch),
        Ok(false) => Err(FollowFault::NotNext),
        Err(fault) => Err(FollowFault::Stopped(fault)),
    }
}

/// Applies the batch of a line, which may have a serial.
fn apply_line<K: KeepsBatches>(
    keeper: &mut K,
    serial: Option<u64>,
    batch: &Batch,
) -> Result<Reply, FollowFault>
    ensures { IsFollowed K.model keeper.old keeper.new
        (λ s. acted_with s serial (Ok (batch_value batch.now))) result }
{
    match serial {
        Some(serial) => apply_next(keeper, serial, batch),
        None => apply(keeper, batch),
    }
}

/// Reads a line, without its line feed, and applies its batch: a batch alone, or one whose serial
/// is the next one or that of its key. A batch that was accepted before is repeated, and changes
/// nothing.
///
/// # Errors
///
/// `Unread` if the line is not a batch, or memory runs out while it is read, `NotNext` if its
/// serial is another, and `Refused` if its batch is: nothing changed; `Stopped` with the fault of
/// the keeper.
pub fn follow_line<K: KeepsBatches>(
    alloc: Global,
    keeper: &mut K,
    bytes: &[u8],
) -> Result<Acknowledged, FollowFault>
    ensures { FollowsLine K.model keeper.old keeper.new bytes.now result }
{
    let line = read_line(bytes);
    let batch = match read_batch(alloc, line.text) {
        Ok(batch) => batch,
        Err(fault) => return Err(FollowFault::Unread(fault)),
    };
    match apply_line(keeper, line.serial, &batch) {
        Ok(reply) => Ok(Acknowledged { batch, reply }),
        Err(fault) => Err(fault),
    }
}
