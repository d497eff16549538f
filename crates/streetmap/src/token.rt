//! The token of a follower's script, which a file has in its first line.
ghost use Rattle.std.specs.Prelude.{◌≡◌, ◌<◌, ◌==◌, true, take, length, IfOk, IfErr, IfSome};
ghost use Rattle.std.specs.Prelude.{string_bytes, position};
ghost use Rattle.std.specs.List.{list_all};
ghost use Rattle.streetmap_command.specs.CommandView as command;
ghost use Rattle.streetmap_web.specs.Site.{guard_value};
ghost use Rattle.streetmap.specs.Tokens as spec;
ghost use Rattle.streetmap.specs.Tokens.{first_line, IsGuardOf};

use std::alloc::Global;
use std::fs::File;
use std::io::Read;
use streetmap_command::GuardArgument;
use streetmap_faults::ProgramFault;
use streetmap_web::Guard;

/// The most bytes that are read of a file: one more than a token has.
const MOST_READ: u64 = 129;

/// Whether a byte is a visible character of ASCII.
fn is_visible(byte: u8) -> bool
    ensures { result ≡ spec.is_visible byte }
{
    33 <= byte && byte <= 126
}

/// Whether all bytes of a text are visible.
fn are_visible(text: &[u8]) -> bool
    ensures { result ≡ list_all spec.is_visible text.now }
{
    text.iter().all(|byte| is_visible(*byte))
}

/// Whether a text is a token.
fn is_token(text: &[u8]) -> bool
    ensures { result ≡ spec.is_token text.now }
{
    16 <= text.len() && text.len() <= 128 && are_visible(text)
}

/// The index of the first line feed.
fn line_end(text: &[u8]) -> Option<usize>
    ensures value { result ≡ position (λ b. b == 10) text.now }
    ensures bound { IfSome result (λ at. at < length text.now) }
{
    text.iter().position(|byte| *byte == b'\n')
}

/// The first line of a text, without its line feed.
fn line_of(text: &[u8]) -> &[u8]
    ensures { result.now ≡ first_line text.now }
{
    match line_end(text) {
        Some(at) => &text[..at],
        None => text,
    }
}

/// The token in the first line of a text.
fn token_in(alloc: Global, text: &[u8]) -> Result<String, ProgramFault>
    ensures line { IfOk result (λ its. string_bytes its ≡ first_line text.now) }
    ensures token { IfOk result (λ its. spec.is_token (string_bytes its) ≡ true) }
    ensures refused { IfErr result (λ e.
        spec.is_token (first_line text.now) ≡ true → e ≡ ProgramFault.Memory) }
{
    let line = line_of(text);
    if !is_token(line) {
        return Err(ProgramFault::BadToken);
    }
    let Ok(its) = std::str::from_utf8(line) else {
        return Err(ProgramFault::BadToken);
    };
    match String::from_str(alloc, its) {
        Ok(its) => Ok(its),
        Err(_) => Err(ProgramFault::Memory),
    }
}

/// The token in the first line of what a reader has. Its first 129 bytes are read.
fn token_from<R: Read + Drop>(alloc: Global, reader: R) -> Result<String, ProgramFault>
    ensures line { IfOk result (λ its. IfSome (R.remaining reader) (λ all.
        string_bytes its ≡ first_line (take 129 all))) }
    ensures token { IfOk result (λ its. spec.is_token (string_bytes its) ≡ true) }
{
    let mut first = reader.take(MOST_READ);
    let mut text = Vec::new(alloc);
    match first.read_to_end(&mut text) {
        Ok(_) => token_in(alloc, &text),
        Err(_) => Err(ProgramFault::BadToken),
    }
}

/// The token in the first line of a file.
fn read_token(rt: &HostRuntime, path: &str) -> Result<String, ProgramFault>
    ensures { IfOk result (λ its. spec.is_token (string_bytes its) ≡ true) }
{
    match File::open(rt, path) {
        Ok(file) => token_from(rt.alloc(), file),
        Err(_) => Err(ProgramFault::BadToken),
    }
}

/// The guard that is requested. It reads the follower's file, and its fault is `BadToken` if that
/// cannot be read or has no token.
pub(crate) fn guard_of(
    rt: &HostRuntime,
    requested: GuardArgument<'_>,
) -> Result<Guard, ProgramFault>
    ensures { IfOk result (λ guard.
        IsGuardOf (command.guard_value requested.entry) (guard_value guard)) }
{
    match requested {
        GuardArgument::Free => Ok(Guard::Free),
        GuardArgument::Fenced => Ok(Guard::Fenced),
        GuardArgument::Follower(path) => match read_token(rt, path) {
            Ok(its) => Ok(Guard::Follower(its)),
            Err(fault) => Err(fault),
        },
    }
}
