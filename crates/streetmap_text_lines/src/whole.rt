//! One whole line of bounded length, read from a reader: with its line feed.
ghost use Rattle.std.specs.Prelude.{◌≡◌, ◌≤◌, Some, Err, IfOk, OnErr, IfSome};
ghost use Rattle.streetmap_text_lines.specs.Lines.{first_too_long};
ghost use Rattle.streetmap_text_lines.specs.LineReads.{LosesPart};
ghost use Rattle.streetmap_text_lines.specs.Whole.{TakesWhole};

use crate::fault::LineFault;
use crate::line::{Shown, take_shown};
use std::alloc::Global;
use std::io::BufRead;

/// What was at the front of an input whose lines end with a line feed each.
#[derive(Drop)]
pub enum WholeLine {
    /// A line, without its line feed.
    Line(Vec<u8>),
    /// The input ended within a line, which had at least one byte.
    Cut,
    /// The end of the input.
    End,
}

/// The next line of the input, of at most `most` bytes, its line feed not counted, as it is. A last
/// line without its line feed is `Cut`.
///
/// # Errors
///
/// `LineTooLong` if the first line has more bytes, `ReadFailed` and `Memory`: no byte that is lost
/// is a line feed.
pub fn next_whole_line<R: BufRead>(
    alloc: Global,
    reader: &mut R,
    most: usize,
) -> Result<WholeLine, LineFault>
    ensures taken { IfOk result
        (TakesWhole most (R.remaining reader.old) (R.remaining reader.new)) }
    ensures lost { OnErr result
        (LosesPart most (R.remaining reader.old) (R.remaining reader.new)) }
    ensures too_long { result ≡ Err LineFault.LineTooLong →
        IfSome (R.remaining reader.old) (λ input. first_too_long most input ≡ Some 0) }
{
    let mut line = Vec::new(alloc);
    for _turn in 0..u64::MAX {
        match take_shown(reader, &mut line, most)? {
            Shown::More => {}
            Shown::LineFeed => {
                line.shrink_to_fit();
                return Ok(WholeLine::Line(line));
            }
            Shown::End => {
                return Ok(if line.is_empty() {
                    WholeLine::End
                } else {
                    WholeLine::Cut
                });
            }
        }
    }
    Err(LineFault::ReadFailed)
}
