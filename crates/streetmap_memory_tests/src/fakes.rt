//! Readers and a writer that fail when a test says so.
ghost use Rattle.std.specs.Counts.{IsPrefixLen};
ghost use Rattle.std.specs.Result.{IfOk};

use std::io::{self, ErrorKind, Read, Write};

/// Gives a byte per read, and fails at the read after `reads` others.
#[derive(Drop)]
pub(crate) struct Steps<'a> {
    pub(crate) rest: &'a [u8],
    pub(crate) reads: usize,
}

impl Read for Steps<'_> {
    fn read(&mut self, buf: &mut [u8]) -> io::Result<usize> {
        if self.reads == 0 {
            return Err(io::Error::from(ErrorKind::BrokenPipe));
        }
        self.reads -= 1;
        give(&mut self.rest, buf, 1)
    }
}

/// Is interrupted before each read, which gives three bytes.
#[derive(Drop)]
pub(crate) struct Interrupted<'a> {
    pub(crate) rest: &'a [u8],
    pub(crate) again: bool,
}

impl Read for Interrupted<'_> {
    fn read(&mut self, buf: &mut [u8]) -> io::Result<usize> {
        self.again = !self.again;
        if self.again {
            return Err(io::Error::from(ErrorKind::Interrupted));
        }
        give(&mut self.rest, buf, 3)
    }
}

/// Gives at most `most` of the bytes that are left.
fn give(rest: &mut &[u8], buf: &mut [u8], most: usize) -> io::Result<usize>
    ensures { IfOk result (λ n. IsPrefixLen n buf.new) }
{
    let count = buf.len().min(rest.len()).min(most);
    buf[..count].copy_from_slice(&rest[..count]);
    *rest = &rest[count..];
    Ok(count)
}

/// Is interrupted before each write, takes a byte per write, and none after `room`; then it fails,
/// or takes no byte.
#[derive(Drop)]
pub(crate) struct Sink {
    pub(crate) taken: [u8; 8],
    pub(crate) len: usize,
    pub(crate) room: usize,
    pub(crate) fails: bool,
    pub(crate) again: bool,
}

impl Sink {
    /// What was taken.
    pub(crate) fn taken(&self) -> &[u8] {
        self.taken.get(..self.len).unwrap_or(&[])
    }
}

impl Write for Sink {
    fn write(&mut self, buf: &[u8]) -> io::Result<usize> {
        self.again = !self.again;
        if self.again {
            return Err(io::Error::from(ErrorKind::Interrupted));
        }
        match (buf.first(), self.taken.get_mut(self.len)) {
            (Some(byte), Some(place)) if self.len < self.room => {
                *place = *byte;
                self.len += 1;
                Ok(1)
            }
            _ if self.fails => Err(io::Error::from(ErrorKind::BrokenPipe)),
            _ => Ok(0),
        }
    }

    fn flush(&mut self) -> io::Result<()> {
        Ok(())
    }
}
