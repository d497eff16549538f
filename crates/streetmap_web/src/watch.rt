//! What is done once the store of a keeper has failed.
ghost use Rattle.std.specs.Prelude.{◌≡◌, ◌||◌, true, false, bytes_eq};
ghost use Rattle.std.specs.Option.{is_some};
ghost use Rattle.streetmap_connections.specs.Answers.{head_bytes};
ghost use Rattle.streetmap_web.specs.StoreWatch.{IsOver, fault_head, reports_failure};

use crate::answer::fixed_head;
use std::io::Write;
use streetmap_connections::Answer;
use streetmap_ledger::Fault;

/// Watches for the first answer that says that the store of a keeper failed.
#[derive(Drop)]
pub struct Watch<W> {
    /// Where the name of the fault is then written, once.
    messages: W,
    /// No request is answered any more after that.
    ends: bool,
    /// The store has failed.
    failed: bool,
}

impl<W: Write> Watch<W> {
    /// A store that has not failed. Its fault is written to `messages`; `ends` says whether
    /// requests are no longer answered then.
    pub fn new(messages: W, ends: bool) -> Watch<W>
        ensures { (result.ends ≡ ends) × (result.failed ≡ false) }
    {
        Watch {
            messages,
            ends,
            failed: false,
        }
    }

    /// Records an answer: if it is the first that says that the store failed, a line has the
    /// fault's name. A line that cannot be written is left out.
    pub(crate) fn note(&mut self, answer: &Answer)
        ensures ends { self.new.ends ≡ self.old.ends }
        ensures failed { self.new.failed ≡
            (self.old.failed || reports_failure (head_bytes answer.now)) }
    {
        if self.failed {
            return;
        }
        if let Some(fault) = failure_in(answer) {
            self.failed = true;
            let _ = writeln!(self.messages, "streetmap: {}", fault.code());
        }
    }

    /// Whether the store has failed, and no request is answered any more.
    pub fn is_over(&self) -> bool
        ensures { result ≡ true → IsOver self.now }
    {
        self.ends && self.failed
    }
}

/// Whether the head of an answer is that of a fault, which allocates no memory.
fn has_head(answer: &Answer, fault: Fault) -> bool
    ensures { result ≡ bytes_eq (head_bytes answer.now) (fault_head fault) }
{
    answer.head() == fixed_head(fault).as_bytes()
}

/// The fault of a store that failed, if an answer reports one.
fn failure_in(answer: &Answer) -> Option<Fault>
    ensures { is_some result ≡ reports_failure (head_bytes answer.now) }
{
    if has_head(answer, Fault::Device) {
        Some(Fault::Device)
    } else if has_head(answer, Fault::Damaged) {
        Some(Fault::Damaged)
    } else {
        None
    }
}
