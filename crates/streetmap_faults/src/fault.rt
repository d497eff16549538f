//! What the program ends with when it is not done.
ghost use Rattle.std.specs.Prelude.{◌≡◌};
ghost use Rattle.streetmap_faults.specs.ProgramFaults.{fault_of_command};
ghost use Rattle.streetmap_faults.specs.ProgramFaults.{fault_of_lines, fault_of_serve};

use std::alloc::AllocError;
use streetmap_command::CommandFault;
use streetmap_connections::ServeFault;
use streetmap_exchange::{ExportFault, ImportFault};
use streetmap_lines::LinesFault;
use streetmap_loading::LoadFault;
use streetmap_replay::FollowFault;

/// Why the program ends before it is done.
#[derive(Clone, Copy)]
pub enum ProgramFault {
    /// `usage`: the program does not accept the arguments of the command line.
    Usage,
    /// `bad_base`: the base is not an `http` or `https` URL with the path `/` and nothing after it.
    BadBase,
    /// `exists`: the file to be made already exists.
    Exists,
    /// `no_file`: the file does not exist.
    NoFile,
    /// `not_ours`: the file is not one of this product.
    NotOurs,
    /// `new_format`: the file has a format above 2.
    NewFormat,
    /// `taken`: a table, an index or a view of the file has one of the names of its tables.
    Taken,
    /// `no_text`: the file of the text to be imported does not exist.
    NoText,
    /// The text is not imported: the name of the refusal or fault.
    Import(ImportFault),
    /// The collection, or the kept batches, are not written to their end: the name of the refusal
    /// or fault.
    Export(ExportFault),
    /// The load of a text does not begin, or ends before the text does: the name of the refusal or
    /// fault.
    Load(LoadFault),
    /// `passed_over`: features at fault were skipped, and each was listed.
    PassedOver,
    /// That number of lines of batches were followed, and the next was not: the name of the reason,
    /// and the line.
    Follow(u64, FollowFault),
    /// `same_file`: the text or the journal is the file, or the log beside it.
    SameFile,
    /// `no_journal`: the journal cannot be opened or made.
    NoJournal,
    /// `bad_token`: the file of the follower's token cannot be read, or its first line is none.
    BadToken,
    /// `journal_ahead`: the journal has serials that the file lacks.
    JournalAhead,
    /// `not_its_journal`: the line with this serial is not that of the file's batch.
    NotItsJournal(u64),
    /// `not_replayed`: the kept batches do not give what the file shows. With the serial of the
    /// first batch that its text does not give again; a collection that differs is listed.
    NotReplayed(Option<u64>),
    /// `line_too_long`: a line of input has more than 8,388,608 bytes, its line feed not counted.
    LineTooLong,
    /// `read_failed`: the input could not be read.
    ReadFailed,
    /// `write_failed`: an answer could not be written.
    WriteFailed,
    /// `net`: no connection can be accepted.
    Net,
    /// `net`: another program listens at this port.
    PortTaken(u16),
    /// `net`: this port is reserved for programs with more rights.
    NoRightToPort(u16),
    /// `net`: nothing can listen at this port; the cause is not known.
    NotBound(u16),
    /// `damaged`: the rows of the file are not those of a state.
    Damaged,
    /// `device`: the file can no longer be read or written.
    Device,
    /// `device`: another program has the file open.
    InUse,
    /// `device`: the folder of the file does not exist.
    NoFolder,
    /// `device`: the file, or its folder, may not be read and written.
    NoRight,
    /// `device`: the file is a damaged database.
    DamagedDatabase,
    /// `device`: the file cannot be opened or locked; the cause is not known.
    NotOpened,
    /// `shut`: the store failed while it was served. The fault has its line already.
    Shut,
    /// `memory`: an allocation failed.
    Memory,
}

impl From<AllocError> for ProgramFault {
    ghost use Rattle.streetmap_faults.specs.declared.fault.ProgramFault.TheVariants.{Memory};

    ghost from_gives = { λ _ fault. fault ≡ Memory };

    fn from(_: AllocError) -> ProgramFault {
        ProgramFault::Memory
    }
}

impl From<CommandFault> for ProgramFault {
    ghost from_gives = { λ given fault. fault ≡ fault_of_command given };

    fn from(fault: CommandFault) -> ProgramFault {
        match fault {
            CommandFault::Usage => ProgramFault::Usage,
            CommandFault::Memory => ProgramFault::Memory,
        }
    }
}

impl From<LinesFault> for ProgramFault {
    ghost from_gives = { λ given fault. fault ≡ fault_of_lines given };

    fn from(fault: LinesFault) -> ProgramFault {
        match fault {
            LinesFault::LineTooLong => ProgramFault::LineTooLong,
            LinesFault::ReadFailed => ProgramFault::ReadFailed,
            LinesFault::WriteFailed | LinesFault::FlushFailed => ProgramFault::WriteFailed,
            LinesFault::Memory => ProgramFault::Memory,
        }
    }
}

impl From<ServeFault> for ProgramFault {
    ghost from_gives = { λ given fault. fault ≡ fault_of_serve given };

    fn from(fault: ServeFault) -> ProgramFault {
        match fault {
            ServeFault::Net => ProgramFault::Net,
            ServeFault::Over => ProgramFault::Shut,
            ServeFault::Memory => ProgramFault::Memory,
        }
    }
}
