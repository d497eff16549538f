//! The command line.
ghost use Rattle.std.specs.Prelude.{◌≡◌, ◌≢◌, ◌∷◌, [], map, codes, IfOk, IfErr, Some, string_bytes};
ghost use Rattle.std.specs.Prelude.{IsSome, IfSome, ◌≤◌, unwrap_or, option_map, Ok, Err};
ghost use Rattle.clap.specs.Words.{fault_of as fault_of_words, subcommand_rows_of};
ghost use Rattle.clap.specs.Words.{kind_of, rows_of, found_of, first_of};
ghost use Rattle.std.specs.List.{list_all};
ghost use Rattle.std.specs.Char.{is_ascii_digit};
ghost use Rattle.streetmap_command.specs.Program.{program, command_by, create_by, pipe_by};
ghost use Rattle.streetmap_command.specs.Program.{serve_by, connections_by};
ghost use Rattle.streetmap_command.specs.Program.{import_by, export_by, check_by, number_up_to};
ghost use Rattle.streetmap_command.specs.Program.{port_given, count_given, clients_given, is_set};
ghost use Rattle.streetmap_command.specs.Program.{requested_by, requested_by_faults, request_of};
ghost use Rattle.streetmap_command.specs.Program.{IsCommandOf, FindsCommand, RequestsHelp};
ghost use Rattle.streetmap_command.specs.Program.{version_command};
ghost use Rattle.streetmap_command.specs.declared.help.Topic.TheVariants as topics;
ghost use Rattle.streetmap_command.specs.CommandView.{command_value, connections_value};

use crate::help::{Topic, help_called, topic_of};
use crate::parser::make_parser;
use crate::words::{
    GuardArgument, JournalArguments, LoadArguments, read_apply, read_batches, read_guard,
    read_journal, read_load,
};
use clap::error::ErrorKind;
use clap::{ArgMatches, Error};
use std::alloc::{AllocError, Global};

/// How many clients are served at once if neither their number nor a count is given.
const AT_ONCE: u32 = 64;

/// The connections that are served.
#[derive(Clone, Copy, Drop)]
pub struct Connections {
    /// The port of this host that clients connect to.
    pub port: u16,
    /// How many are served in all; any number if none is given.
    pub count: Option<u32>,
    /// How many are served at once, 1 to 1,024. If no number is given it is 1 if a count is given,
    /// and 64 otherwise.
    pub clients: u32,
    /// Whether a line on standard error is written for each answer.
    pub log: bool,
    /// Whether the index of each collection is learnt before clients are served.
    pub warm: bool,
    /// Whether answers have tags, and requests conditions.
    pub conditional: bool,
    /// Whether `/changes` is answered.
    pub changes: bool,
    /// Whether `/status` is answered, and answers show the serial of the state.
    pub status: bool,
}

/// The import of a text of features.
#[derive(Clone, Copy, Drop)]
pub struct Import<'a> {
    /// The path of the text.
    pub text: &'a str,
    /// The key of the batch of its features.
    pub key: &'a str,
    /// The collection that they are put into.
    pub collection: &'a str,
    /// Whether they replace the features with the same ids.
    pub replace: bool,
    /// Whether lines on standard error report how far the import is.
    pub progress: bool,
}

/// What the program is to do.
#[derive(Drop)]
pub enum Command<'a> {
    /// `streetmap`, `streetmap help [COMMAND]`, `streetmap [COMMAND] --help`: print help.
    Help(Topic),
    /// `streetmap --version`: print the name of the program and its version.
    Version,
    /// `streetmap lines`: answer the lines of standard input, over a ledger in memory.
    Lines,
    /// `streetmap create FILE`: make an empty file.
    Create {
        file: &'a str,
    },
    /// `streetmap pipe FILE`: serve one stream of requests on standard input and output, with links
    /// under the base; with `conditional` answers have tags, and requests conditions; with
    /// `changes` `/changes` is answered; with `status` `/status` is, and answers show the serial of
    /// the state; the guard says which batches are refused.
    Pipe {
        file: &'a str,
        base: String,
        conditional: bool,
        changes: bool,
        status: bool,
        guard: GuardArgument<'a>,
    },
    /// `streetmap serve FILE`: serve connections, with links under the base, and write a journal of
    /// what is accepted; the guard says which batches are refused.
    Serve {
        file: &'a str,
        connections: Connections,
        base: String,
        journal: Option<JournalArguments<'a>>,
        guard: GuardArgument<'a>,
    },
    /// `streetmap import FILE TEXT`: put the features of a text into a collection by one batch.
    Import {
        file: &'a str,
        import: Import<'a>,
    },
    /// `streetmap export FILE`: write a collection on standard output; with `progress`, lines on
    /// standard error report how far it is.
    Export {
        file: &'a str,
        collection: &'a str,
        progress: bool,
    },
    /// `streetmap check FILE`: report whether the rows of a file are those of a state, and count
    /// them; with `replay` also report whether its kept batches give that state.
    Check {
        file: &'a str,
        replay: bool,
    },
    /// `streetmap load FILE TEXT`: put the features of a text, one per line, into a collection
    /// by batches.
    Load {
        file: &'a str,
        load: LoadArguments<'a>,
    },
    /// `streetmap batches FILE`: print the kept batches whose serial is above `after`.
    Batches {
        file: &'a str,
        after: u32,
    },
    /// `streetmap apply FILE TEXT`: apply the lines of a text, or of standard input, as batches.
    Apply {
        file: &'a str,
        text: Option<&'a str>,
    },
}

/// Why arguments are not a command.
#[derive(Clone, Copy, PartialEq, Eq)]
pub enum CommandFault {
    /// `usage`: the program does not accept these arguments.
    Usage,
    /// `memory`: an allocation failed.
    Memory,
}

impl From<AllocError> for CommandFault {
    ghost use Rattle.streetmap_command.specs.declared.command.CommandFault.TheVariants.{Memory};

    ghost from_gives = { λ _ fault. fault ≡ Memory };

    fn from(_: AllocError) -> CommandFault {
        CommandFault::Memory
    }
}

/// Whether a text consists of digits only.
fn is_digits(text: &str) -> bool
    ensures { result ≡ list_all is_ascii_digit text.now }
{
    text.bytes().all(|byte| byte.is_ascii_digit())
}

/// The number from 1 to `most` with these decimal digits.
pub(crate) fn read_number(text: &str, most: u32) -> Option<u32>
    ensures value { result ≡ number_up_to most text.now }
    ensures bound { IfSome result (λ n. n ≤ most) }
{
    if !is_digits(text) {
        return None;
    }
    let number = text.parse::<u32>().ok()?;
    if 1 <= number && number <= most {
        Some(number)
    } else {
        None
    }
}

/// The value that is given for a name.
pub(crate) fn value_of<'a>(found: &ArgMatches<'a>, name: &str) -> Option<&'a str>
    ensures { option_map (λ s. s.now) result ≡ first_of name.now (rows_of (found_of found.now)) }
{
    found.get_str(name)
}

/// Whether a flag is given.
pub(crate) fn has_flag(found: &ArgMatches<'_>, name: &str) -> bool
    ensures { result ≡ is_set (first_of name.now (rows_of (found_of found.now))) }
{
    matches!(value_of(found, name), Some("true"))
}

/// The base that is given, or else `other`.
fn read_base(alloc: Global, given: Option<&str>, other: &str) -> Result<String, AllocError>
    ensures { IfOk result (λ base. string_bytes base
        ≡ unwrap_or (option_map (λ s. s.now) given.entry) other.now) }
{
    match given {
        Some(base) => String::from_str(alloc, base),
        None => String::from_str(alloc, other),
    }
}

fn read_port(given: Option<&str>) -> Option<u16>
    ensures { result ≡ port_given (option_map (λ s. s.now) given.entry) }
{
    let number = read_number(given?, 65535)?;
    Some(number as u16)
}

fn read_count(given: Option<&str>) -> Option<Option<u32>>
    ensures { result ≡ count_given (option_map (λ s. s.now) given.entry) }
{
    match given {
        Some(text) => Some(Some(read_number(text, u32::MAX)?)),
        None => Some(None),
    }
}

/// How many clients are served at once, if `count` connections are to be served in all.
fn read_clients(given: Option<&str>, count: Option<u32>) -> Option<u32>
    ensures { result ≡ clients_given count (option_map (λ s. s.now) given.entry) }
{
    match (given, count) {
        (Some(text), _) => read_number(text, 1024),
        (None, Some(_)) => Some(1),
        (None, None) => Some(AT_ONCE),
    }
}

/// The requested connections, from the arguments of the command.
pub(crate) fn read_connections(found: &ArgMatches<'_>) -> Option<Connections>
    ensures { option_map connections_value result
        ≡ connections_by (rows_of (found_of found.now)) }
{
    let port = read_port(value_of(found, "port"))?;
    let count = read_count(value_of(found, "count"))?;
    let clients = read_clients(value_of(found, "clients"), count)?;
    Some(Connections {
        port,
        count,
        clients,
        log: has_flag(found, "log"),
        warm: has_flag(found, "warm"),
        conditional: has_flag(found, "conditional"),
        changes: has_flag(found, "changes"),
        status: has_flag(found, "status"),
    })
}

/// The command `serve`, from its arguments.
fn read_serve<'a>(alloc: Global, found: &ArgMatches<'a>) -> Result<Command<'a>, CommandFault>
    ensures found { IfOk result (λ c. Some (command_value c)
        ≡ serve_by (rows_of (found_of found.now))) }
    ensures refused { IfErr result (λ e. IsSome (serve_by (rows_of (found_of found.now)))
        → e ≡ CommandFault.Memory) }
{
    let file = value_of(found, "file").ok_or(CommandFault::Usage)?;
    let connections = read_connections(found).ok_or(CommandFault::Usage)?;
    let journal = read_journal(found).ok_or(CommandFault::Usage)?;
    let guard = read_guard(found).ok_or(CommandFault::Usage)?;
    let port = connections.port;
    let default = format!(in alloc; "http://localhost:{port}/")?;
    let base = read_base(alloc, value_of(found, "base"), default.as_str())?;
    Ok(Command::Serve {
        file,
        connections,
        base,
        journal,
        guard,
    })
}

/// The command `create`, from its arguments.
fn read_create<'a>(found: &ArgMatches<'a>) -> Result<Command<'a>, CommandFault>
    ensures found { IfOk result (λ c. Some (command_value c)
        ≡ create_by (rows_of (found_of found.now))) }
    ensures refused { IfErr result (λ e. IsSome (create_by (rows_of (found_of found.now)))
        → e ≡ CommandFault.Memory) }
{
    let file = value_of(found, "file").ok_or(CommandFault::Usage)?;
    Ok(Command::Create { file })
}

/// The command `pipe`, from its arguments.
fn read_pipe<'a>(alloc: Global, found: &ArgMatches<'a>) -> Result<Command<'a>, CommandFault>
    ensures found { IfOk result (λ c. Some (command_value c)
        ≡ pipe_by (rows_of (found_of found.now))) }
    ensures refused { IfErr result (λ e. IsSome (pipe_by (rows_of (found_of found.now)))
        → e ≡ CommandFault.Memory) }
{
    let file = value_of(found, "file").ok_or(CommandFault::Usage)?;
    let guard = read_guard(found).ok_or(CommandFault::Usage)?;
    let base = read_base(alloc, value_of(found, "base"), "http://localhost/")?;
    let conditional = has_flag(found, "conditional");
    let changes = has_flag(found, "changes");
    let status = has_flag(found, "status");
    Ok(Command::Pipe {
        file,
        base,
        conditional,
        changes,
        status,
        guard,
    })
}

/// The command `import`, from its arguments.
fn read_import<'a>(found: &ArgMatches<'a>) -> Result<Command<'a>, CommandFault>
    ensures found { IfOk result (λ c. Some (command_value c)
        ≡ import_by (rows_of (found_of found.now))) }
    ensures refused { IfErr result (λ e. IsSome (import_by (rows_of (found_of found.now)))
        → e ≡ CommandFault.Memory) }
{
    let file = value_of(found, "file").ok_or(CommandFault::Usage)?;
    let text = value_of(found, "text").ok_or(CommandFault::Usage)?;
    let key = value_of(found, "key").ok_or(CommandFault::Usage)?;
    let collection = value_of(found, "collection").ok_or(CommandFault::Usage)?;
    let import = Import {
        text,
        key,
        collection,
        replace: has_flag(found, "replace"),
        progress: has_flag(found, "progress"),
    };
    Ok(Command::Import { file, import })
}

/// The command `export`, from its arguments.
fn read_export<'a>(found: &ArgMatches<'a>) -> Result<Command<'a>, CommandFault>
    ensures found { IfOk result (λ c. Some (command_value c)
        ≡ export_by (rows_of (found_of found.now))) }
    ensures refused { IfErr result (λ e. IsSome (export_by (rows_of (found_of found.now)))
        → e ≡ CommandFault.Memory) }
{
    let file = value_of(found, "file").ok_or(CommandFault::Usage)?;
    let collection = value_of(found, "collection").ok_or(CommandFault::Usage)?;
    let progress = has_flag(found, "progress");
    Ok(Command::Export {
        file,
        collection,
        progress,
    })
}

/// The command `check`, from its arguments.
fn read_check<'a>(found: &ArgMatches<'a>) -> Result<Command<'a>, CommandFault>
    ensures found { IfOk result (λ c. Some (command_value c)
        ≡ check_by (rows_of (found_of found.now))) }
    ensures refused { IfErr result (λ e. IsSome (check_by (rows_of (found_of found.now)))
        → e ≡ CommandFault.Memory) }
{
    let file = value_of(found, "file").ok_or(CommandFault::Usage)?;
    let replay = has_flag(found, "replay");
    Ok(Command::Check { file, replay })
}

/// The command that was found, from its name and its arguments.
fn command_of<'a>(alloc: Global, matches: &ArgMatches<'a>) -> Result<Command<'a>, CommandFault>
    ensures found { IfOk result (λ c. Some (command_value c)
        ≡ command_by (subcommand_rows_of matches.now)) }
    ensures refused { IfErr result (λ e. IsSome (command_by (subcommand_rows_of matches.now))
        → e ≡ CommandFault.Memory) }
{
    let Some((name, found)) = matches.subcommand() else {
        return Err(CommandFault::Usage);
    };
    match name {
        "lines" => Ok(Command::Lines),
        "create" => read_create(found),
        "pipe" => read_pipe(alloc, found),
        "serve" => read_serve(alloc, found),
        "import" => read_import(found),
        "export" => read_export(found),
        "check" => read_check(found),
        "load" => read_load(found),
        "batches" => read_batches(found),
        "apply" => read_apply(found),
        _ => Err(CommandFault::Usage),
    }
}

/// What is requested if `clap` gives no matches: help, the version, or nothing.
fn without_matches<'a>(error: &Error, words: &[String]) -> Result<Command<'a>, CommandFault>
    ensures memory { kind_of error.now ≡ ErrorKind.OutOfMemory →
        result ≡ Err CommandFault.Memory }
    ensures found { IfOk result (λ c. Some (command_value c)
        ≡ request_of (kind_of error.now) (map string_bytes words.now)) }
    ensures refused { IfErr result (λ e.
        IsSome (request_of (kind_of error.now) (map string_bytes words.now)) → ⊥) }
{
    match error.kind() {
        ErrorKind::OutOfMemory => Err(CommandFault::Memory),
        ErrorKind::DisplayHelp => Ok(Command::Help(topic_of(words))),
        ErrorKind::DisplayVersion => Ok(Command::Version),
        _ => Err(CommandFault::Usage),
    }
}

/// The command that the arguments request, as `clap` reads them.
fn read_by_parser<'a>(alloc: Global, words: &'a [String]) -> Result<Command<'a>, CommandFault>
    ensures found { IfOk result (λ c. FindsCommand
        (fault_of_words program (map string_bytes words.entry.now))
        (map string_bytes words.entry.now) (command_value c)) }
    ensures refused { IfErr result (λ e. IsSome (requested_by_faults
        (fault_of_words program (map string_bytes words.entry.now))
        (map string_bytes words.entry.now)) → e ≡ CommandFault.Memory) }
{
    let parser = match make_parser(alloc) {
        Ok(parser) => parser,
        Err(_) => return Err(CommandFault::Memory),
    };
    match parser.try_get_matches_from(words) {
        Ok(matches) => command_of(alloc, &matches),
        Err(error) => without_matches(&error, words),
    }
}

/// The command that the arguments request. The first argument is the program's name.
///
/// # Errors
///
/// `Usage` if `clap` does not accept the arguments, if a port or a count is out of its range, or if
/// help is requested on something that is not a command. `Memory` if an allocation fails.
pub fn read_command<'a>(alloc: Global, words: &'a [String]) -> Result<Command<'a>, CommandFault>
    // What is read is what the arguments request: help without an option, or what `clap` reads.
    ensures found { IfOk result (λ c.
        IsCommandOf (map string_bytes words.entry.now) (command_value c)) }
    // Arguments that request a command, help or the version are refused only for lack of memory.
    ensures requested { IfErr result (λ e.
        IsSome (requested_by (map string_bytes words.entry.now)) → e ≡ CommandFault.Memory) }
{
    let Some(called) = help_called(words) else {
        return read_by_parser(alloc, words);
    };
    match called {
        Some(topic) => Ok(Command::Help(topic)),
        None => Err(CommandFault::Usage),
    }
}

/// The arguments `streetmap --version` request the version.
pub fn version_is_requested()
    ensures { requested_by (codes "streetmap" ∷ codes "--version" ∷ []) ≡ Some version_command }
{}

/// `streetmap --help` and `-h` request help on the program, and after a command help on it.
pub fn help_is_requested()
    ensures program { RequestsHelp [] topics.Program }
    ensures lines { RequestsHelp (codes "lines" ∷ []) topics.Lines }
    ensures create { RequestsHelp (codes "create" ∷ []) topics.Create }
    ensures pipe { RequestsHelp (codes "pipe" ∷ []) topics.Pipe }
    ensures serve { RequestsHelp (codes "serve" ∷ []) topics.Serve }
    ensures import { RequestsHelp (codes "import" ∷ []) topics.Import }
    ensures export { RequestsHelp (codes "export" ∷ []) topics.Export }
    ensures check { RequestsHelp (codes "check" ∷ []) topics.Check }
    ensures load { RequestsHelp (codes "load" ∷ []) topics.Load }
    ensures batches { RequestsHelp (codes "batches" ∷ []) topics.Batches }
    ensures apply { RequestsHelp (codes "apply" ∷ []) topics.Apply }
{}
