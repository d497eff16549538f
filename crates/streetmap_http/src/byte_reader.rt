//! One byte from any reader.

ghost use Rattle.std.specs.Prelude.{◌≡◌, [], ◌∷◌, MatchResult, MatchOption};
ghost use Rattle.std.specs.Io.KnownBytes.{Keeps, Consumes, IsAtEnd};

use std::io::{ErrorKind, Read};

/// A read failed, or no byte was read in 2^64 - 1 tries.
#[derive(Drop, Clone, Copy, PartialEq, Eq)]
pub(crate) struct ReadFailed;

/// The next byte, or `None` at the end. A read that a signal interrupts is tried again.
pub(crate) fn read_byte<R: Read>(reader: &mut R) -> Result<Option<u8>, ReadFailed>
    ensures { MatchResult result
        (λ found. MatchOption found
        (Keeps (R.remaining reader.old) (R.remaining reader.new) × IsAtEnd (R.remaining reader.new))
        (λ byte. Consumes (R.remaining reader.old) (R.remaining reader.new) (byte ∷ [])))
        (λ _. Keeps (R.remaining reader.old) (R.remaining reader.new)) }
{
    let mut one = [0u8; 1];
    for _turn in 0..u64::MAX {
        match reader.read(&mut one) {
            Ok(0) => return Ok(None),
            Ok(_) => return Ok(Some(one[0])),
            Err(e) => {
                if e.kind() != ErrorKind::Interrupted {
                    return Err(ReadFailed);
                }
            }
        }
    }
    Err(ReadFailed)
}
