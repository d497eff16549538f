//! One line of bounded length, read from a reader.
ghost use Rattle.std.specs.Prelude.{◌≡◌, ◌≤◌, ◌++◌, Some, Err, IfOk, OnOk, OnErr, IfSome};
ghost use Rattle.std.specs.Prelude.{vec_len, ◌==◌};
ghost use Rattle.std.specs.List.{position_or_len};
ghost use Rattle.std.specs.Str.Lines.{strip_carriage_return};
ghost use Rattle.std.specs.Io.KnownBytes.{Keeps};
ghost use Rattle.streetmap_text_lines.specs.Lines.{first_too_long};
ghost use Rattle.streetmap_text_lines.specs.LineReads.{HasNoLineFeed, TakesShown, TakesLine};
ghost use Rattle.streetmap_text_lines.specs.LineReads.{LosesPart, ReadsLine};

use crate::fault::LineFault;
use memchr::memchr;
use std::alloc::Global;
use std::io::{BufRead, ErrorKind};

/// What was at the front of the input.
#[derive(Drop)]
pub enum Line {
    /// A line, without its line feed and a carriage return before it.
    Text(Vec<u8>),
    /// The end of the input.
    End,
}

/// What was at the front of an input whose line is read into lent memory.
#[derive(Clone, Copy, PartialEq, Eq)]
pub enum Found {
    /// A line, which is now in the memory.
    Line,
    /// The end of the input.
    End,
}

/// How a line continues in the bytes that a reader shows.
#[derive(Clone, Copy)]
pub(crate) enum Shown {
    /// They are all of the line, and more may follow.
    More,
    /// The line ends in them, by a line feed.
    LineFeed,
    /// The reader shows none: the input ends.
    End,
}

/// How many bytes come before the first line feed.
fn line_length(shown: &[u8]) -> usize
    ensures { result ≡ position_or_len (λ b. b == 10) shown.now }
{
    match memchr(b'\n', shown) {
        Some(at) => at,
        None => shown.len(),
    }
}

/// Appends to a line what the reader shows of it, and takes it and its line feed from the reader.
pub(crate) fn take_shown<R: BufRead>(
    reader: &mut R,
    line: &mut Vec<u8>,
    most: usize,
) -> Result<Shown, LineFault>
    requires short { vec_len line.old ≤ most }
    requires one_line { HasNoLineFeed line.old.items }
    ensures short { OnOk result (vec_len line.new ≤ most) }
    ensures one_line { OnOk result (HasNoLineFeed line.new.items) }
    ensures taken { IfOk result (TakesShown (R.remaining reader.old) (R.remaining reader.new)
        line.old.items line.new.items) }
    ensures lost { OnErr result (Keeps (R.remaining reader.old) (R.remaining reader.new)) }
    ensures too_long { result ≡ Err LineFault.LineTooLong → IfSome (R.remaining reader.old)
        (λ rest. first_too_long most (line.old.items ++ rest) ≡ Some 0) }
{
    let shown = match reader.fill_buf() {
        Ok(shown) => shown,
        Err(error) if error.kind() == ErrorKind::Interrupted => return Ok(Shown::More),
        Err(error) => return Err(LineFault::of_read(&error)),
    };
    if shown.is_empty() {
        return Ok(Shown::End);
    }
    let count = line_length(shown);
    let ended = count < shown.len();
    if count > most - line.len() {
        return Err(LineFault::LineTooLong);
    }
    line.extend_from_slice(&shown[..count])?;
    if ended {
        reader.consume(count + 1);
        Ok(Shown::LineFeed)
    } else {
        reader.consume(count);
        Ok(Shown::More)
    }
}

/// Drops the carriage return at the end of a line, if any.
fn drop_carriage_return(line: &mut Vec<u8>)
    ensures { line.new.items ≡ strip_carriage_return line.old.items }
{
    if line.last() == Some(&b'\r') {
        let _ = line.pop();
    }
}

/// Reads the next line of the input, of at most `most` bytes, its line feed not counted, in place
/// of what `line` had: without its line feed and a carriage return before it. The last one may lack
/// its line feed. `line` keeps its memory for the next lines.
///
/// # Errors
///
/// `LineTooLong` if the first line has more bytes, `ReadFailed` and `Memory`: no byte that is lost
/// is a line feed, and what `line` has then is of no use.
pub fn read_line<R: BufRead>(
    reader: &mut R,
    line: &mut Vec<u8>,
    most: usize,
) -> Result<Found, LineFault>
    ensures read { IfOk result (ReadsLine most (R.remaining reader.old) (R.remaining reader.new)
        line.new.items) }
    ensures lost { OnErr result (LosesPart most (R.remaining reader.old) (R.remaining reader.new)) }
    ensures too_long { result ≡ Err LineFault.LineTooLong → IfSome (R.remaining reader.old)
        (λ input. first_too_long most input ≡ Some 0) }
{
    line.clear();
    for _turn in 0..u64::MAX {
        match take_shown(reader, line, most)? {
            Shown::More => {}
            Shown::LineFeed => {
                drop_carriage_return(line);
                return Ok(Found::Line);
            }
            Shown::End => {
                return Ok(if line.is_empty() {
                    Found::End
                } else {
                    Found::Line
                });
            }
        }
    }
    Err(LineFault::ReadFailed)
}

/// The next line of the input, of at most `most` bytes, its line feed not counted. The last one may
/// lack its line feed.
///
/// # Errors
///
/// `LineTooLong` if the first line has more bytes, `ReadFailed` and `Memory`: no byte that is lost
/// is a line feed.
pub fn next_line<R: BufRead>(alloc: Global, reader: &mut R, most: usize) -> Result<Line, LineFault>
    ensures taken { IfOk result (TakesLine most (R.remaining reader.old) (R.remaining reader.new)) }
    ensures lost { OnErr result (LosesPart most (R.remaining reader.old) (R.remaining reader.new)) }
    ensures too_long { result ≡ Err LineFault.LineTooLong → IfSome (R.remaining reader.old)
        (λ input. first_too_long most input ≡ Some 0) }
{
    let mut line = Vec::new(alloc);
    match read_line(reader, &mut line, most)? {
        Found::Line => {
            line.shrink_to_fit();
            Ok(Line::Text(line))
        }
        Found::End => Ok(Line::End),
    }
}
