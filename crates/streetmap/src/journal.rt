//! The journal beside a file that is served: how it is begun, and what it is written to.
ghost use Rattle.std.specs.Prelude.{◌≡◌, ◌≤◌, true, IfOk, IsOk};
ghost use Rattle.streetmap_journal.specs.Reports.{WriterIsInformed};
ghost use Rattle.streetmap.specs.Counted.{HasFailed};
ghost use Rattle.streetmap.specs.Kept.{IsKept};

use crate::fault;
use std::fs::{File, OpenOptions};
use std::io::{BufReader, Error, ErrorKind, Stderr, Write};
use streetmap_command::JournalArguments;
use streetmap_faults::ProgramFault;
use streetmap_journal::{Journal, JournalPlace, JournalWriter, start_journal};
use streetmap_ledger::KeepsBatches;
use streetmap_text_lines::{NotWritten, write_bytes};

/// The file of a journal, to whose end its lines are written.
#[derive(Drop)]
pub(crate) struct JournalFile {
    /// The file, open for appending.
    file: File,
    /// Where it is reported that lines are missing, and that they no longer are.
    messages: Stderr,
    /// Whether lines are synchronised before answers.
    syncs: bool,
    /// The serial from which on lines were reported missing.
    reported: Option<u64>,
    /// Whether all that was written was synchronised, if that is requested. The contract speaks of
    /// this and the next field, and no code reads them.
    is_kept: bool,
    /// How many writes and synchronisations failed: at least that many, if it is the largest number
    /// of 64 bits.
    failures: u64,
}

/// One more failure.
fn one_more(failures: u64) -> u64
    ensures grows { failures ≤ result }
    ensures failed { HasFailed failures result }
{
    failures.saturating_add(1)
}

impl JournalWriter for JournalFile {
    ghost use Rattle.streetmap.specs.Counted as counted;

    ghost reported = { λ f. f.reported };

    ghost is_kept = { λ f. f.is_kept ≡ true };

    ghost goes = { λ k l. k.failures ≤ l.failures };

    ghost fails = { λ k l. counted.HasFailed k.failures l.failures };

    ghost goes_itself = { λ k. counted.itself k.failures };

    ghost goes_then = { λ k l m first next.
        counted.both k.failures l.failures m.failures first next };

    ghost fails_later = { λ k l m first failed.
        counted.later k.failures l.failures m.failures first failed };

    ghost fails_still = { λ k l m failed next.
        counted.still k.failures l.failures m.failures failed next };

    fn append(&mut self, bytes: &[u8]) -> Result<(), NotWritten> {
        self.is_kept = false;
        let written = write_bytes(&mut self.file, bytes);
        if written.is_err() {
            self.failures = one_more(self.failures);
        }
        written
    }

    fn sync(&mut self) -> Result<(), Error> {
        if self.syncs {
            if let Err(error) = self.file.sync_data() {
                self.failures = one_more(self.failures);
                return Err(error);
            }
        }
        self.is_kept = true;
        Ok(())
    }

    /// A line that cannot be written is left out.
    fn behind(&mut self, serial: u64) {
        self.reported = Some(serial);
        let _ = writeln!(
            self.messages,
            "streetmap: journal behind from serial {serial}"
        );
    }

    /// A line that cannot be written is left out.
    fn whole(&mut self, serial: u64) {
        if self.reported.is_some() {
            self.reported = None;
            let _ = writeln!(self.messages, "streetmap: journal whole at {serial}");
        }
    }
}

/// The path of the requested journal.
#[derive(Drop)]
struct JournalPath<'a> {
    rt: &'a HostRuntime,
    requested: JournalArguments<'a>,
}

impl<'a> JournalPlace for JournalPath<'a> {
    type Reader = BufReader<File>;

    type Writer = JournalFile;

    fn read(&mut self) -> Result<Option<BufReader<File>>, Error> {
        match File::open(self.rt, self.requested.path) {
            Ok(file) => Ok(Some(BufReader::new(self.rt.alloc(), file)?)),
            Err(error) if error.kind() == ErrorKind::NotFound => Ok(None),
            Err(error) => Err(error),
        }
    }

    fn write_after(&mut self, bytes: u64) -> Result<JournalFile, Error> {
        let file = OpenOptions::new()
            .append(true)
            .create(true)
            .open(self.rt, self.requested.path)?;
        file.set_len(bytes)?;
        Ok(JournalFile {
            file,
            messages: self.rt.stderr(),
            syncs: self.requested.sync,
            reported: None,
            is_kept: false,
            failures: 0,
        })
    }
}

/// Begins the requested journal (`streetmap_journal::start_journal`).
pub(crate) fn begin<K: KeepsBatches>(
    rt: &HostRuntime,
    keeper: &mut K,
    requested: JournalArguments<'_>,
) -> Result<Journal<JournalFile>, ProgramFault>
    ensures kept { IsKept K.model keeper.old keeper.new (IsOk result) }
    ensures reported { IfOk result (λ journal.
        WriterIsInformed ⟦<JournalFile as JournalWriter>⟧.reported
        ⟦<JournalFile as JournalWriter>⟧.is_kept journal) }
{
    let mut place = JournalPath { rt, requested };
    match start_journal(rt.alloc(), keeper, requested.after as u64, &mut place) {
        Ok(journal) => Ok(journal),
        Err(refused) => Err(fault::of_start(&refused)),
    }
}
