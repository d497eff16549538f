//! Where batches go.
ghost use Rattle.std.specs.Prelude.{Option, Result};
ghost use Rattle.streetmap_batch.specs.BatchValue.{BatchValue};
ghost use Rattle.streetmap_batch.specs.BatchView.{batch_value};
ghost use Rattle.std.specs.Prelude.{ℕ};
ghost use Rattle.streetmap_loading.specs.declared.load_fault.LoadFault.{LoadFault};

use crate::load_fault::LoadFault;
use streetmap_batch::Batch;

/// Takes batches, one after the other.
pub trait Sink {
    ghost use Rattle.std.specs.Prelude.{IfErr};
    ghost use Rattle.streetmap_loading.specs.Ends.{IsOfBatch};

    /// From the first value to the second a batch was taken with this serial, or not taken for this
    /// reason.
    ghost takes: { Self → BatchValue → Result (Option ℕ) LoadFault → Self → Type 0 };

    /// Takes a batch, and returns its serial if it has one.
    fn take(&mut self, batch: &Batch) -> Result<Option<u64>, LoadFault>
        ensures takes { takes self.old (batch_value batch.now) result self.new }
        ensures of_batch { IfErr result IsOfBatch };
}
