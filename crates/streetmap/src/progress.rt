//! How far a command is, on standard error.
use std::fs::metadata;
use std::io::{IsTerminal, Stderr, Write};
use std::time::Instant;
use streetmap_exchange::Progress;

/// Where lines on how far a command is go. A line that cannot be written is left out.
#[derive(Drop)]
pub(crate) struct ProgressOutput<W> {
    pub(crate) output: W,
    /// Whether each line is written over the one before, on a terminal.
    overwrites: bool,
}

/// Standard error, if progress is requested, or if it is a terminal. There each line is written
/// over the one before, unless the command prints on a terminal as well.
pub(crate) fn output(
    rt: &HostRuntime,
    is_requested: bool,
    prints: bool,
) -> Option<ProgressOutput<Stderr>> {
    let output = rt.stderr();
    let is_terminal = output.is_terminal();
    if is_requested || is_terminal {
        let overwrites = is_terminal && !(prints && rt.stdout().is_terminal());
        Some(ProgressOutput { output, overwrites })
    } else {
        None
    }
}

impl<W: Write> ProgressOutput<W> {
    /// Clears the line that is written over.
    pub(crate) fn clear(&mut self) {
        if self.overwrites {
            let _ = write!(self.output, "\r\x1b[K");
        }
    }

    /// Ends a line, unless it is written over.
    fn end(&mut self) {
        if !self.overwrites {
            let _ = writeln!(self.output);
        }
    }
}

/// Writes a line for each thousand features of an import or an export, if it has an output.
#[derive(Drop)]
pub(crate) struct ProgressLines<W> {
    /// Where the lines go, if they are written.
    pub(crate) output: Option<ProgressOutput<W>>,
}

impl<W: Write> ProgressLines<W> {
    /// Clears the line that is written over.
    pub(crate) fn clear(&mut self) {
        if let Some(output) = &mut self.output {
            output.clear();
        }
    }
}

impl<W: Write> Progress for ProgressLines<W> {
    /// A line that cannot be written is left out.
    fn reached(&mut self, features: u64) {
        if let Some(output) = &mut self.output {
            output.clear();
            let _ = write!(output.output, "streetmap: {features} features");
            output.end();
        }
    }
}

/// When a load began, and how long its text is.
#[derive(Clone, Copy, Drop)]
pub(crate) struct Pace {
    /// None if the clock could not be read.
    began: Option<Instant>,
    /// In bytes; 0 if that is not known.
    length: u64,
}

impl Pace {
    /// The pace of a load that begins now, of a text or of standard input.
    pub(crate) fn new(rt: &HostRuntime, text: Option<&str>) -> Pace {
        let found = text.and_then(|path| metadata(rt, path).ok());
        Pace {
            began: Instant::now(rt).ok(),
            length: found.map_or(0, |found| found.len()),
        }
    }

    /// The milliseconds since it began.
    fn milliseconds(&self, rt: &HostRuntime) -> Option<u64> {
        let took = self.began?.elapsed(rt).ok()?;
        let whole = took.as_secs().saturating_mul(1000);
        Some(whole.saturating_add(took.subsec_millis() as u64))
    }

    /// Writes a line on how many features were found, in how many bytes, how much of the text that
    /// is, how many features a second, and how long the rest may take, as far as these are known.
    pub(crate) fn report<W: Write>(
        &self,
        rt: &HostRuntime,
        lines: &mut ProgressOutput<W>,
        features: u64,
        bytes: u64,
    ) {
        lines.clear();
        let output = &mut lines.output;
        let _ = write!(output, "streetmap: {features} features, {bytes} bytes");
        if let Some(percent) = bytes.saturating_mul(100).checked_div(self.length) {
            let _ = write!(output, ", {percent} %");
        }
        let took = self.milliseconds(rt).unwrap_or(0);
        if let Some(pace) = features.saturating_mul(1000).checked_div(took) {
            let _ = write!(output, ", {pace} a second");
        }
        let rest = self.length.saturating_sub(bytes).saturating_mul(took);
        if let Some(left) = rest.checked_div(bytes.saturating_mul(1000)) {
            if self.length > 0 {
                let _ = write!(output, ", {left} s left");
            }
        }
        lines.end();
    }
}
