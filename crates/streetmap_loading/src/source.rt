//! Where edits come from.
ghost use Rattle.std.specs.Prelude.{◌≡◌, ◌≤◌, ℕ, Option, List, IfSome, length};
ghost use Rattle.serde_json.specs.Written.{compact_text};
ghost use Rattle.streetmap_batch.specs.BatchText.{edit_data};
ghost use Rattle.streetmap_batch.specs.BatchView.{edit_value};

use crate::load_fault::LoadFault;
use streetmap_batch::Edit;

/// An edit of at most 8,388,480 bytes of batch text.
#[derive(Drop)]
pub struct PlacedEdit {
    /// The place of its feature in the text, counted from 1; none for an opening.
    pub place: Option<u64>,
    pub edit: Edit,
    /// How many bytes its text has.
    pub size: usize,
    pub ghost measured: { length (compact_text (edit_data (edit_value edit))) ≡ size },
    pub ghost small: { size ≤ 8388480 },
}

/// Edits, one after the other.
pub trait Edits {
    ghost use Rattle.streetmap_loading.specs.Sources.{Item, SourceGives, SourceSkips};

    /// The edits that are left, if they are known, and the faults among them.
    ghost left: { Self → Option (List Item) };

    /// How many features were skipped.
    ghost has_skipped: { Self → ℕ };

    /// How many are skipped in all, up to the end or to the fault that ends it, if that is known.
    ghost skips: { Self → Option ℕ };

    /// How many features were skipped.
    fn skipped(&self) -> u64
        ensures skipped { result ≡ has_skipped self.now }
        ensures within { IfSome (skips self.now) (λ all. result ≤ all) };

    /// The next edit; none at the end.
    fn next_edit(&mut self) -> Result<Option<PlacedEdit>, LoadFault>
        ensures gives { SourceGives (left self.old) (left self.new) result }
        ensures skips { SourceSkips (skips self.old) (skips self.new) (has_skipped self.new)
            result };
}
