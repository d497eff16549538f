//! The body of an answer with accepted batches: a line each.
ghost use Rattle.std.specs.Prelude.{◌≡◌, ◌++◌, IfOk, OnOk, string_bytes};
ghost use Rattle.streetmap_ledger.specs.KeptView.{keyed_batch, keyed_batches};
ghost use Rattle.streetmap_bodies.specs.Changes as spec;

use crate::links::add_number;
use std::alloc::{AllocError, Global};
use streetmap_ledger::KeptBatch;

/// Appends the line of a batch.
fn add_change(alloc: Global, out: &mut String, batch: &KeptBatch) -> Result<(), AllocError>
    ensures { OnOk result (string_bytes out.new
        ≡ string_bytes out.old ++ spec.change_line (keyed_batch batch.now)) }
{
    let text = String::from_utf8_lossy(alloc, batch.text.as_slice())?;
    add_number(out, batch.serial)?;
    out.push_str("\t")?;
    out.push_str(text.as_str())?;
    out.push_str("\n")
}

/// The lines of accepted batches, in this order: the serial of each, a tab, its text and a line
/// feed, as in a journal.
///
/// # Errors
///
/// Only that memory runs out.
#[tactic(auto, unfolding(crate::specs::Changes::changes_text))]
pub fn changes_text(alloc: Global, batches: &[KeptBatch]) -> Result<String, AllocError>
    ensures { IfOk result (λ text. string_bytes text
        ≡ spec.changes_text (keyed_batches batches.now)) }
{
    let mut out = String::new(alloc);
    for batch in batches {
        add_change(alloc, &mut out, batch)?;
    }
    Ok(out)
}
