//! The names in a batch.
ghost use Rattle.std.specs.Prelude.{◌≡◌};
ghost use Rattle.std.specs.List.{list_all};
ghost use Rattle.streetmap_batch.specs.Names.{is_long, is_id_byte, is_key_byte, is_key};
ghost use Rattle.streetmap_batch.specs.Names.{begins_alphanumeric, is_collection_id, is_title};
ghost use Rattle.streetmap_batch.specs.Names.{is_time_property};

use streetmap_geojson::has_no_controls;

fn is_id_byte(byte: u8) -> bool
    ensures { result ≡ is_id_byte byte }
{
    byte.is_ascii_alphanumeric() || byte == b'.' || byte == b'_' || byte == b'-'
}

fn is_key_byte(byte: u8) -> bool
    ensures { result ≡ is_key_byte byte }
{
    is_id_byte(byte) || byte == b':'
}

fn is_long(least: usize, most: usize, text: &str) -> bool
    ensures { result ≡ is_long least most text.now }
{
    least <= text.len() && text.len() <= most
}

fn are_key_bytes(text: &[u8]) -> bool
    ensures { result ≡ list_all is_key_byte text.now }
{
    text.iter().all(|byte| is_key_byte(*byte))
}

fn are_id_bytes(text: &[u8]) -> bool
    ensures { result ≡ list_all is_id_byte text.now }
{
    text.iter().all(|byte| is_id_byte(*byte))
}

/// Whether a text may be the key of a batch: 1 to 64 bytes, each an ASCII letter, a digit, or one
/// of `.` `_` `-` `:`.
#[tactic(auto, unfolding(crate::specs::Names::is_key))]
pub fn is_key(text: &str) -> bool
    ensures { result ≡ is_key text.now }
{
    is_long(1, 64, text) && are_key_bytes(text.as_bytes())
}

fn begins_alphanumeric(text: &[u8]) -> bool
    ensures { result ≡ begins_alphanumeric text.now }
{
    match text {
        [first, ..] => first.is_ascii_alphanumeric(),
        [] => false,
    }
}

/// Whether a text may be the id of a collection: 1 to 64 bytes, each an ASCII letter, a digit, or
/// one of `.` `_` `-`, the first a letter or a digit.
#[tactic(auto, unfolding(crate::specs::Names::is_collection_id))]
pub fn is_collection_id(text: &str) -> bool
    ensures { result ≡ is_collection_id text.now }
{
    is_long(1, 64, text) && begins_alphanumeric(text.as_bytes()) && are_id_bytes(text.as_bytes())
}

/// Whether a text may be the title of a collection: at most 256 bytes, without control characters
/// (U+0000 to U+001F, U+007F to U+009F).
#[tactic(auto, unfolding(crate::specs::Names::is_title))]
pub fn is_title(text: &str) -> bool
    ensures { result ≡ is_title text.now }
{
    text.len() <= 256 && has_no_controls(text)
}

/// Whether a text may name the time property of a collection: 1 to 128 bytes.
#[tactic(auto, unfolding(crate::specs::Names::is_time_property))]
pub fn is_time_property(text: &str) -> bool
    ensures { result ≡ is_time_property text.now }
{
    is_long(1, 128, text)
}
