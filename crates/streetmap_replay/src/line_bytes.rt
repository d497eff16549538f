//! The bytes of a line, read.
ghost use Rattle.std.specs.Prelude.{◌≡◌, ◌<◌, ◌^◌, ◌==◌, ℕ, true, false, None, IfSome, decimal};
ghost use Rattle.std.specs.List.{position_from, position_or_len};
ghost use Rattle.streetmap_replay.specs.Lines.{IsJournalLine};
ghost use Rattle.streetmap_replay.specs.View.{line_value};

use itoa::Buffer;

/// A line of a journal, or a batch alone.
#[derive(Clone, Copy)]
pub struct Line<'a> {
    /// The serial of a journal's line.
    pub serial: Option<u64>,
    /// The text of the batch.
    pub text: &'a [u8],
}

/// The place of the first tab.
fn find_tab(bytes: &[u8]) -> Option<usize>
    ensures { result ≡ position_from (λ b. b == 9) 0 bytes.now }
{
    bytes.iter().position(|byte| *byte == b'\t')
}

/// The number of bytes before the first tab; of all bytes if they have none.
fn field_length(bytes: &[u8]) -> usize
    ensures { result ≡ position_or_len (λ b. b == 9) bytes.now }
{
    match find_tab(bytes) {
        Some(tab) => tab,
        None => bytes.len(),
    }
}

/// Whether bytes are this number in decimal.
fn is_written(number: u64, bytes: &[u8]) -> bool
    ensures found { result ≡ true → decimal number ≡ bytes.now }
    ensures other { result ≡ false → decimal number ≡ bytes.now → ⊥ }
{
    let mut buffer = Buffer::new();
    buffer.format(number).as_bytes() == bytes
}

/// The number that bytes are in decimal, if they are one.
fn read_serial(bytes: &[u8]) -> Option<u64>
    ensures found { IfSome result (λ serial. decimal serial ≡ bytes.now) }
    ensures fits { IfSome result (λ serial. serial < 2 ^ 64) }
    ensures none { result ≡ None → (n : ℕ) → n < 2 ^ 64 → decimal n ≡ bytes.now
        → ⊥ }
{
    let Ok(text) = str::from_utf8(bytes) else {
        return None;
    };
    let Ok(serial) = text.parse::<u64>() else {
        return None;
    };
    if is_written(serial, bytes) {
        Some(serial)
    } else {
        None
    }
}

/// Reads the bytes of a line, without its line feed: a serial in decimal, a tab and a text are a
/// journal's line; all else is the text of a batch alone.
pub fn read_line<'a>(bytes: &'a [u8]) -> Line<'a>
    ensures { IsJournalLine bytes.entry.now (line_value result) }
{
    let tab = field_length(bytes);
    if tab >= bytes.len() {
        return Line {
            serial: None,
            text: bytes,
        };
    }
    match read_serial(&bytes[..tab]) {
        Some(serial) => Line {
            serial: Some(serial),
            text: &bytes[tab + 1..],
        },
        None => Line {
            serial: None,
            text: bytes,
        },
    }
}
