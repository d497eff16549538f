//! What comes next from a reader, compared with the bytes that are expected.
ghost use Rattle.std.specs.Prelude.{◌≡◌, ◌≢◌, ◌≤◌, ◌<◌, length, take, slice_index, IfOk, IfSome};
ghost use Rattle.streetmap_journal.specs.Front.{are_zeros, TakesFront, SeesFront, SeesZeros};
ghost use Rattle.streetmap_journal.specs.Front.{IsLeft};

use std::io::{BufRead, ErrorKind};
use streetmap_text_lines::LineFault;

/// What a reader showed, compared with the bytes that are expected.
#[derive(Clone, Copy, Drop)]
enum Seen {
    /// That number of bytes are as expected, one at least, and more may follow.
    Same(usize),
    /// After that number of bytes the input differs, or ends.
    Other(usize),
    /// Nothing: a signal interrupted the read.
    Interrupted,
}

/// What is left of an input.
#[derive(Clone, Copy, Drop, PartialEq, Eq)]
pub(crate) enum Left {
    /// No byte.
    Nothing,
    /// Only zero bytes, one at least.
    Zeros,
    /// Bytes of which at least one is not zero.
    Other,
}

/// How many bytes two slices have in common at their fronts.
fn common_len(shown: &[u8], expected: &[u8]) -> usize
    ensures within { (result ≤ length shown.now) × (result ≤ length expected.now) }
    ensures same { take result shown.now ≡ take result expected.now }
    ensures differ { result < length shown.now → result < length expected.now →
        slice_index shown.now result ≢ slice_index expected.now result }
{
    let most = shown.len().min(expected.len());
    if shown[..most] == expected[..most] {
        return most;
    }
    for at in 0..most {
        if shown[at] != expected[at] {
            return at;
        }
    }
    most
}

/// Takes off a reader what it shows of the bytes that are expected.
fn take_shown<R: BufRead>(reader: &mut R, expected: &[u8]) -> Result<Seen, LineFault>
    requires { 0 < length expected.now }
    ensures { IfOk result (SeesFront (R.remaining reader.old) (R.remaining reader.new)
        expected.now) }
{
    let shown = match reader.fill_buf() {
        Ok(shown) => shown,
        Err(error) if error.kind() == ErrorKind::Interrupted => return Ok(Seen::Interrupted),
        Err(error) => return Err(LineFault::of_read(&error)),
    };
    if shown.is_empty() {
        return Ok(Seen::Other(0));
    }
    let count = common_len(shown, expected);
    let differs = count < shown.len() && count < expected.len();
    reader.consume(count);
    if differs {
        Ok(Seen::Other(count))
    } else {
        Ok(Seen::Same(count))
    }
}

/// Takes bytes off a reader as long as they are those that are expected, and returns how many.
///
/// # Errors
///
/// `ReadFailed` and `Memory`, as the reader fails.
pub(crate) fn take_front<R: BufRead>(reader: &mut R, expected: &[u8]) -> Result<usize, LineFault>
    ensures { IfOk result (TakesFront (R.remaining reader.old) (R.remaining reader.new)
        expected.now) }
{
    let mut count = 0;
    for _turn in 0..u64::MAX {
        if count == expected.len() {
            return Ok(count);
        }
        match take_shown(reader, &expected[count..])? {
            Seen::Same(more) => count += more,
            Seen::Other(more) => return Ok(count + more),
            Seen::Interrupted => {}
        }
    }
    Err(LineFault::ReadFailed)
}

/// Whether all bytes are zero.
fn are_zeros(bytes: &[u8]) -> bool
    ensures { result ≡ are_zeros bytes.now }
{
    bytes.iter().all(|byte| *byte == 0)
}

/// Takes the zero bytes off a reader that it shows.
fn take_zeros<R: BufRead>(reader: &mut R) -> Result<Option<Left>, LineFault>
    ensures { IfOk result (SeesZeros (R.remaining reader.old) (R.remaining reader.new)) }
{
    let shown = match reader.fill_buf() {
        Ok(shown) => shown,
        Err(error) if error.kind() == ErrorKind::Interrupted => return Ok(None),
        Err(error) => return Err(LineFault::of_read(&error)),
    };
    if shown.is_empty() {
        return Ok(Some(Left::Nothing));
    }
    if !are_zeros(shown) {
        return Ok(Some(Left::Other));
    }
    let count = shown.len();
    reader.consume(count);
    Ok(Some(Left::Zeros))
}

/// What is left of an input: nothing, only zero bytes, or others too.
///
/// # Errors
///
/// `ReadFailed` and `Memory`, as the reader fails.
pub(crate) fn left_of<R: BufRead>(reader: &mut R) -> Result<Left, LineFault>
    ensures { IfOk result (λ left. IfSome (R.remaining reader.old) (IsLeft left)) }
{
    let mut left = Left::Nothing;
    for _turn in 0..u64::MAX {
        match take_zeros(reader)? {
            None => {}
            Some(Left::Nothing) => return Ok(left),
            Some(Left::Zeros) => left = Left::Zeros,
            Some(Left::Other) => return Ok(Left::Other),
        }
    }
    Err(LineFault::ReadFailed)
}
