//! The collections that features name.
ghost use Rattle.std.specs.Prelude.{◌≡◌, ◌↔◌, ◌∷◌, [], IsTrue, map, string_bytes};
ghost use Rattle.sqlite.specs.declared.types.Value.TheVariants.{Text as Words};
ghost use Rattle.sqlite_rules.specs.Lists.{Has};
ghost use Rattle.streetmap_batch.specs.Text.{Text};

use crate::cells::is_text;
use crate::collections::Head;
use sqlite::Row;
use streetmap_reading::RowFold;
use streetmap_rows::ReadFault;

/// The existing collections.
#[derive(Drop)]
pub struct OwnerRows {
    pub heads: Vec<Head>,
}

/// Whether a row names one of these collections.
fn names_one(row: &Row, heads: &[Head]) -> bool
    ensures { IsTrue result ↔ ((name : Text) × Has (map (λ h. string_bytes h.id) heads.now) name
        × (row.now ≡ Words name ∷ [])) }
{
    if row.column_count() != 1 {
        return false;
    }
    for head in heads {
        if is_text(row, 0, head.id.as_bytes()) {
            return true;
        }
    }
    false
}

impl RowFold for OwnerRows {
    ghost use Rattle.streetmap_checking.specs.Held.{HoldsOwnerRows, IsGoodOwners};

    ghost holds = { HoldsOwnerRows };

    ghost is_good = { IsGoodOwners };

    fn take(&mut self, row: &Row) -> Result<(), ReadFault> {
        if names_one(row, self.heads.as_slice()) {
            Ok(())
        } else {
            Err(ReadFault::Unread)
        }
    }
}
