//! What is printed of a fault.
ghost use Rattle.std.specs.Prelude.{◌≡◌, Some};
ghost use Rattle.streetmap_faults.specs.Reports.{report_value};
ghost use Rattle.streetmap_faults.specs.ProgramFaults.{report_of};
ghost use Rattle.streetmap_faults.specs.ProgramFaults.{line_of, sentence_of};

use crate::fault::ProgramFault;
use crate::report::{Report, at_port, of_export, of_follow, of_import, of_load, of_row, on_line};
use crate::table;
use std::fmt;
use std::fmt::{Display, Formatter, Write};

impl ProgramFault {
    /// What is said of it.
    #[tactic(auto, unfolding(crate::specs::ProgramFaults::report_of))]
    pub fn report(self) -> Report
        ensures { report_value result ≡ report_of self }
    {
        match self {
            ProgramFault::Usage => of_row(table::USAGE),
            ProgramFault::BadBase => of_row(table::BAD_BASE),
            ProgramFault::Exists => of_row(table::EXISTS),
            ProgramFault::NoFile => of_row(table::NO_FILE),
            ProgramFault::NotOurs => of_row(table::NOT_OURS),
            ProgramFault::NewFormat => of_row(table::NEW_FORMAT),
            ProgramFault::Taken => of_row(table::TAKEN),
            ProgramFault::NoText => of_row(table::NO_TEXT),
            ProgramFault::Import(fault) => of_import(fault),
            ProgramFault::Export(fault) => of_export(fault),
            ProgramFault::Load(fault) => of_load(fault),
            ProgramFault::PassedOver => of_row(table::PASSED_OVER),
            ProgramFault::Follow(count, fault) => of_follow(count, fault),
            ProgramFault::SameFile => of_row(table::SAME_FILE),
            ProgramFault::NoJournal => of_row(table::NO_JOURNAL),
            ProgramFault::BadToken => of_row(table::BAD_TOKEN),
            ProgramFault::JournalAhead => of_row(table::JOURNAL_AHEAD),
            ProgramFault::NotItsJournal(serial) => on_line(
                of_row(table::NOT_ITS_JOURNAL),
                Some(serial),
            ),
            ProgramFault::NotReplayed(serial) => on_line(of_row(table::NOT_REPLAYED), serial),
            ProgramFault::LineTooLong => of_row(table::LINE_TOO_LONG),
            ProgramFault::ReadFailed => of_row(table::READ_FAILED),
            ProgramFault::WriteFailed => of_row(table::WRITE_FAILED),
            ProgramFault::Net => of_row(table::NET),
            ProgramFault::PortTaken(port) => at_port(of_row(table::PORT_TAKEN), port),
            ProgramFault::NoRightToPort(port) => at_port(of_row(table::NO_RIGHT_TO_PORT), port),
            ProgramFault::NotBound(port) => at_port(of_row(table::NOT_BOUND), port),
            ProgramFault::Damaged => of_row(table::DAMAGED),
            ProgramFault::Device => of_row(table::DEVICE),
            ProgramFault::InUse => of_row(table::IN_USE),
            ProgramFault::NoFolder => of_row(table::NO_FOLDER),
            ProgramFault::NoRight => of_row(table::NO_RIGHT),
            ProgramFault::DamagedDatabase => of_row(table::DAMAGED_DATABASE),
            ProgramFault::NotOpened => of_row(table::NOT_OPENED),
            ProgramFault::Shut => of_row(table::SHUT),
            ProgramFault::Memory => of_row(table::MEMORY),
        }
    }
}

/// The line that is printed, without its line feed: `streetmap: ` and the name, the line or the
/// serial at fault, the place of the feature at fault, and the name of what is wrong with it, if it
/// has them.
impl Display for ProgramFault {
    ghost output = { λ fault. Some (line_of fault) };

    fn fmt<W: Write>(&self, f: &mut Formatter<W>) -> fmt::Result {
        let report = self.report();
        let name = report.name;
        match report.line {
            Some(line) => f.write(format_args!("streetmap: {name} {line}"))?,
            None => f.write(format_args!("streetmap: {name}"))?,
        }
        match (report.place, report.cause) {
            (Some(place), Some(cause)) => f.write(format_args!(" {place} {cause}")),
            (Some(place), None) => f.write(format_args!(" {place}")),
            (None, _) => Ok(()),
        }
    }
}

/// The second line of a fault, without its line feed: a sentence for people.
#[derive(Clone, Copy)]
pub struct Sentence(pub ProgramFault);

impl Display for Sentence {
    ghost output = { λ sentence. Some (sentence_of sentence.0) };

    fn fmt<W: Write>(&self, f: &mut Formatter<W>) -> fmt::Result {
        let report = self.0.report();
        if let Some(port) = report.port {
            f.write(format_args!("Port {port}"))?;
        }
        f.write_str(report.sentence)
    }
}
