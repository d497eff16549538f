//! The row of the format.
ghost use Rattle.std.specs.Prelude.{◌≡◌, ◌↔◌, [], ◌∷◌, codes, pos, IsTrue};
ghost use Rattle.sqlite.specs.declared.types.Value.TheVariants.{Int, Text as Words};

use crate::cells::{is_number, is_text};
use sqlite::Row;
use streetmap_reading::RowFold;
use streetmap_rows::ReadFault;

/// How many rows of the format were found.
#[derive(Drop)]
pub struct FormatRows {
    pub found: u64,
}

/// Whether a row is that of the format.
fn is_format(row: &Row) -> bool
    ensures { IsTrue result ↔ row.now ≡ Words (codes "format") ∷ Int (pos 2) ∷ [] }
{
    row.column_count() == 2 && is_text(row, 0, b"format") && is_number(row, 1, Some(2))
}

impl RowFold for FormatRows {
    ghost use Rattle.streetmap_checking.specs.Held.{HoldsFormatRows, IsGoodFormat};

    ghost holds = { HoldsFormatRows };

    ghost is_good = { IsGoodFormat };

    fn take(&mut self, row: &Row) -> Result<(), ReadFault> {
        if self.found != 0 || !is_format(row) {
            return Err(ReadFault::Unread);
        }
        self.found = 1;
        Ok(())
    }
}
