//! The values in the cells of a row, whatever it is.
ghost use Rattle.std.specs.Prelude.{◌≡◌, ◌↔◌, ◌<◌, ◌+◌, suc, length, IsTrue};
ghost use Rattle.std.specs.Prelude.{MatchResult};
ghost use Rattle.std.specs.Option.{option_copied};
ghost use Rattle.sqlite.specs.Order.{column};
ghost use Rattle.sqlite.specs.Values.{or_null};
ghost use Rattle.sqlite.specs.declared.types.Value.TheVariants.{Int, Text as Words};
ghost use Rattle.streetmap_batch.specs.Text.{Text};
ghost use Rattle.streetmap_reading.specs.FoldEffects.{Refuses};
ghost use Rattle.streetmap_checking.specs.Held.{ComesAfterLast};

use sqlite::Row;
use sqlite::types::ValueRef;
use streetmap_rows::ReadFault;

/// Whether a cell has this text.
pub fn is_text(row: &Row, at: usize, text: &[u8]) -> bool
    ensures { IsTrue result ↔ (at < length row.now) × (column row.now at ≡ Words text.now) }
{
    match row.get_ref(at) {
        Ok(ValueRef::Text(found)) => found == text,
        _ => false,
    }
}

/// Whether a cell has a text.
pub(crate) fn has_text(row: &Row, at: usize) -> bool
    ensures { IsTrue result ↔ (at < length row.now)
        × ((text : Text) × (column row.now at ≡ Words text)) }
{
    matches!(row.get_ref(at), Ok(ValueRef::Text(_)))
}

/// Whether a cell has this number, or NULL for none.
pub fn is_number(row: &Row, at: usize, number: Option<i64>) -> bool
    ensures { IsTrue result ↔ (at < length row.now)
        × (column row.now at ≡ or_null Int number) }
{
    match (row.get_ref(at), number) {
        (Ok(ValueRef::Int(found)), Some(number)) => found == number,
        (Ok(ValueRef::Null), None) => true,
        _ => false,
    }
}

/// Whether a key comes after the last in byte order.
pub fn follows(last: Option<&str>, key: &str) -> bool
    ensures { IsTrue result ↔ ComesAfterLast (option_copied last.entry) key.now }
{
    match last {
        Some(last) => last.as_bytes().cmp(key.as_bytes()).is_lt(),
        None => true,
    }
}

/// One more than a count; if no number is left, the error is the one for memory.
pub fn one_more(count: u64) -> Result<u64, ReadFault>
    ensures { MatchResult result (λ more. more ≡ suc count) (Refuses ⊥) }
{
    match count.checked_add(1) {
        Some(more) => Ok(more),
        None => Err(ReadFault::Memory),
    }
}

/// The sum of two counts; if no number is left, the error is the one for memory.
pub(crate) fn sum_of(one: u64, other: u64) -> Result<u64, ReadFault>
    ensures { MatchResult result (λ sum. sum ≡ one + other) (Refuses ⊥) }
{
    match one.checked_add(other) {
        Some(sum) => Ok(sum),
        None => Err(ReadFault::Memory),
    }
}
