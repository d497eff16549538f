//! Lines of input, answered one by one.
ghost use Rattle.std.specs.Prelude.{◌≡◌, ◌++◌, ◌∷◌, [], Some, None, Err, IfOk, OnOk, IfErr};
ghost use Rattle.std.specs.Prelude.{OnErr, IfSome, OnSome, IsSomeAnd, take};
ghost use Rattle.std.specs.Str.Lines.{lines};
ghost use Rattle.std.specs.Io.KnownBytes.{Appends, IsAtEnd};
ghost use Rattle.streetmap_memory.specs.Plain.{IsPlainState, plain_state};
ghost use Rattle.streetmap_ledger.specs.State.{opening_state};
ghost use Rattle.streetmap_lines.specs.Faults.{IsLineFault, IsWriteFault, IsAnswerFault};
ghost use Rattle.streetmap_lines.specs.Lines.{line_answer, state_after, answer_text, answers_of};
ghost use Rattle.streetmap_lines.specs.Lines.{first_too_long, AnswersFirst};
ghost use Rattle.streetmap_text_lines.specs.LineReads.{TakesLine};
ghost use Rattle.streetmap_text_lines.specs.Written.{AppendsBeginning, AppendsLess};

use crate::answer::answer_line;
use crate::fault::LinesFault;
use std::alloc::Global;
use std::io::{BufRead, Write};
use streetmap_memory::PlainKeeper;
use streetmap_text_lines::{Line, WriteFault};

/// The most bytes that a line may have, without its line feed.
pub const MAX_LINE: usize = 8_388_608;

/// The next line of the input. The last one may lack its line feed.
fn next_line<R: BufRead>(alloc: Global, reader: &mut R) -> Result<Line, LinesFault>
    ensures taken { IfOk result
        (TakesLine 8388608 (R.remaining reader.old) (R.remaining reader.new)) }
    ensures too_long { result ≡ Err LinesFault.LineTooLong
        → IfSome (R.remaining reader.old) (λ input. first_too_long input ≡ Some 0) }
    ensures fault { IfErr result IsLineFault }
{
    match streetmap_text_lines::next_line(alloc, reader, MAX_LINE) {
        Ok(line) => Ok(line),
        Err(fault) => Err(LinesFault::of_line(fault)),
    }
}

/// Writes bytes.
fn write_bytes<W: Write>(writer: &mut W, bytes: &[u8]) -> Result<(), LinesFault>
    ensures ok { OnOk result (Appends (W.contents writer.old) (W.contents writer.new) bytes.now) }
    ensures err { OnErr result (AppendsBeginning (W.contents writer.old) (W.contents writer.new)
        bytes.now) }
    ensures less { result ≡ Err LinesFault.WriteFailed →
        AppendsLess (W.contents writer.old) (W.contents writer.new) bytes.now }
    ensures fault { IfErr result IsWriteFault }
{
    match streetmap_text_lines::write_bytes(writer, bytes) {
        Ok(()) => Ok(()),
        Err(stopped) => Err(LinesFault::of_write(stopped.why)),
    }
}

/// Writes an answer and a line feed, and flushes the writer.
fn write_line<W: Write>(writer: &mut W, answer: &str) -> Result<(), LinesFault>
    ensures ok { OnOk result (Appends (W.contents writer.old) (W.contents writer.new)
        (answer.now ++ 10 ∷ [])) }
    ensures err { OnErr result (AppendsBeginning (W.contents writer.old) (W.contents writer.new)
        (answer.now ++ 10 ∷ [])) }
    ensures less { result ≡ Err LinesFault.WriteFailed →
        AppendsLess (W.contents writer.old) (W.contents writer.new) (answer.now ++ 10 ∷ []) }
    ensures flush { result ≡ Err LinesFault.FlushFailed →
        Appends (W.contents writer.old) (W.contents writer.new) (answer.now ++ 10 ∷ []) }
    ensures fault { IfErr result IsAnswerFault }
{
    write_bytes(writer, answer.as_bytes())?;
    write_bytes(writer, b"\n")?;
    match writer.flush() {
        Ok(()) => Ok(()),
        Err(error) => Err(LinesFault::of_flush(WriteFault::of_write(&error))),
    }
}

/// Answers a line, by one line to the writer.
fn write_answer<W: Write>(
    alloc: Global,
    keeper: &mut PlainKeeper,
    line: &[u8],
    writer: &mut W,
) -> Result<(), LinesFault>
    ensures ok { IsPlainState keeper.old (plain_state keeper.old)
        → OnOk result (Appends (W.contents writer.old) (W.contents writer.new)
        (answer_text (line_answer (plain_state keeper.old) line.now))) }
    ensures state { IsPlainState keeper.old (plain_state keeper.old)
        → OnOk result (IsPlainState keeper.new (state_after (plain_state keeper.old) line.now)) }
    ensures err { IsPlainState keeper.old (plain_state keeper.old)
        → OnErr result (AppendsBeginning (W.contents writer.old) (W.contents writer.new)
        (answer_text (line_answer (plain_state keeper.old) line.now))) }
    ensures less { IsPlainState keeper.old (plain_state keeper.old) →
        result ≡ Err LinesFault.WriteFailed →
        AppendsLess (W.contents writer.old) (W.contents writer.new)
        (answer_text (line_answer (plain_state keeper.old) line.now)) }
    ensures flush { IsPlainState keeper.old (plain_state keeper.old) →
        result ≡ Err LinesFault.FlushFailed →
        Appends (W.contents writer.old) (W.contents writer.new)
        (answer_text (line_answer (plain_state keeper.old) line.now)) }
    ensures fault { IfErr result IsAnswerFault }
{
    match answer_line(alloc, keeper, line)? {
        Some(answer) => write_line(writer, answer.as_str()),
        None => Ok(()),
    }
}

/// Answers the lines of the reader in order, each by one line to the writer, over a ledger in
/// memory that begins empty. Empty lines are skipped.
///
/// # Errors
///
/// `LineTooLong` at a line of more than 8,388,608 bytes: the answers to all lines before it are
/// written. `ReadFailed`, and `FlushFailed` if a flush failed: the answers to a prefix of the lines
/// are written. `WriteFailed`: a prefix of the answers is written, and not all of them. `Memory`: a
/// prefix is written. After 2^64 - 1 lines it ends as after a failed read.
pub fn lines<R: BufRead, W: Write>(
    alloc: Global,
    reader: &mut R,
    writer: &mut W,
) -> Result<(), LinesFault>
    // All lines are answered, in order from the opening state on, and nothing else is written.
    ensures answered { OnOk result
        (IfSome (R.remaining reader.old) (λ input.
        Appends (W.contents writer.old) (W.contents writer.new)
        (answers_of opening_state (lines input)))) }
    // No line is too long.
    ensures short { OnOk result (IfSome (R.remaining reader.old) (λ input. first_too_long input
        ≡ None)) }
    // The whole input is read.
    ensures whole { OnOk result (OnSome (R.remaining reader.old)
        (IsAtEnd (R.remaining reader.new))) }
    // Some line is too long, and the lines before the first such line are answered.
    ensures too_long { result ≡ Err LinesFault.LineTooLong
        → IfSome (R.remaining reader.old) (λ input.
        IsSomeAnd (first_too_long input) (λ count.
        Appends (W.contents writer.old) (W.contents writer.new)
        (answers_of opening_state (take count (lines input))))) }
    // A prefix of the lines is answered, each whole, and no other line.
    ensures read_failed { result ≡ Err LinesFault.ReadFailed
        → IfSome (R.remaining reader.old) (λ input.
        AnswersFirst (W.contents writer.old) (W.contents writer.new) opening_state (lines input)) }
    // Some of the answers are not written, or not to the end.
    ensures write_failed { result ≡ Err LinesFault.WriteFailed →
        IfSome (R.remaining reader.old) (λ input.
        AppendsLess (W.contents writer.old) (W.contents writer.new)
        (answers_of opening_state (lines input))) }
    // A prefix of the lines is answered, each whole, and no other line.
    ensures flush_failed { result ≡ Err LinesFault.FlushFailed →
        IfSome (R.remaining reader.old) (λ input.
        AnswersFirst (W.contents writer.old) (W.contents writer.new) opening_state (lines input)) }
    // What was written is a prefix of the answers.
    ensures err { OnErr result (IfSome (R.remaining reader.old) (λ input.
        AppendsBeginning (W.contents writer.old) (W.contents writer.new)
        (answers_of opening_state (lines input)))) }
{
    let mut keeper = PlainKeeper::new(alloc);
    for _turn in 0..u64::MAX {
        match next_line(alloc, reader)? {
            Line::End => return Ok(()),
            Line::Text(line) => write_answer(alloc, &mut keeper, line.as_slice(), writer)?,
        }
    }
    Err(LinesFault::ReadFailed)
}
