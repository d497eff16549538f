//! The commands that move features and batches in and out of a file.
ghost use Rattle.std.specs.Prelude.{◌≡◌, ◌≤◌, IfOk, IfErr, IfSome, Some, IsSome, option_map, codes};
ghost use Rattle.clap.specs.Words.{rows_of, found_of, first_of};
ghost use Rattle.streetmap_command.specs.CommandView.{command_value, load_value, journal_value};
ghost use Rattle.streetmap_command.specs.CommandView.{guard_value};
ghost use Rattle.streetmap_command.specs.Program.{load_by, batches_by, apply_by, agrees};
ghost use Rattle.streetmap_command.specs.Program.{options_given, journal_by, guard_by};
ghost use Rattle.streetmap_command.specs.Program.{each_given, after_given, fractions_given};
ghost use Rattle.streetmap_command.specs.Program.{text_given};

use crate::command::{Command, CommandFault, has_flag, read_number, value_of};
use clap::ArgMatches;

/// The edits of a batch of a load, if no number is given.
const EACH: u32 = 1000;

/// The load of a text of features, one per line.
#[derive(Clone, Copy, Drop)]
pub struct LoadArguments<'a> {
    /// The path of the text; none for standard input.
    pub text: Option<&'a str>,
    /// The key K of the batches K.1, K.2, ..
    pub key: &'a str,
    /// The collection that the features are put into.
    pub collection: &'a str,
    /// The most edits of a batch, 1 to 10,000.
    pub each: u32,
    /// Whether the first batch opens the collection.
    pub opens: bool,
    /// The title of the collection that is opened.
    pub title: Option<&'a str>,
    /// The time property of the collection that is opened.
    pub time: Option<&'a str>,
    /// How many millimetres a unit of the map is: a decimal text, or 1 if none is given.
    pub scale: Option<&'a str>,
    /// Which position of the map is the grid's 0,0: two decimal texts with a comma between.
    pub shift: Option<&'a str>,
    /// Whether coordinates are rounded to whole millimetres.
    pub rounds: bool,
    /// Whether numbers within properties that are not whole are kept as texts.
    pub keeps_fractions: bool,
    /// Whether features replace those with the same ids.
    pub replace: bool,
    /// Whether features at fault are skipped.
    pub skip: bool,
    /// Whether features are only read, and nothing is written.
    pub check: bool,
    /// Whether batches are printed instead of being applied.
    pub print: bool,
    /// Whether lines on standard error report how far the load is.
    pub progress: bool,
    /// Whether a sentence on standard error says what is wrong.
    pub explains: bool,
}

/// The journal of what is served.
#[derive(Clone, Copy, Drop)]
pub struct JournalArguments<'a> {
    /// The path of its file.
    pub path: &'a str,
    /// The serial after which it begins, if it has no line yet.
    pub after: u32,
    /// Whether its lines are synchronised before answers.
    pub sync: bool,
}

/// Which batches a server refuses.
#[derive(Clone, Copy, Drop)]
pub enum GuardArgument<'a> {
    /// None.
    Free,
    /// Each.
    Fenced,
    /// Each without the token in the first line of the file at this path.
    Follower(&'a str),
}

/// The edits of a batch.
pub(crate) fn read_each(given: Option<&str>) -> Option<u32>
    ensures value { result ≡ each_given (option_map (λ s. s.now) given.entry) }
    ensures bound { IfSome result (λ n. n ≤ 10000) }
{
    match given {
        Some(text) => read_number(text, 10_000),
        None => Some(EACH),
    }
}

/// Whether fractions are kept as texts.
pub(crate) fn read_fractions(given: Option<&str>) -> Option<bool>
    ensures { result ≡ fractions_given (option_map (λ s. s.now) given.entry) }
{
    match given {
        Some("text") => Some(true),
        Some(_) => None,
        None => Some(false),
    }
}

/// The serial after which batches are printed.
fn read_after(given: Option<&str>) -> Option<u32>
    ensures { result ≡ after_given (option_map (λ s. s.now) given.entry) }
{
    match given {
        Some("0") => Some(0),
        Some(text) => read_number(text, u32::MAX),
        None => Some(0),
    }
}

/// The journal that is given, or none: its other options require it.
pub(crate) fn read_journal<'a>(found: &ArgMatches<'a>) -> Option<Option<JournalArguments<'a>>>
    ensures { option_map (option_map journal_value) result
        ≡ journal_by (rows_of (found_of found.now)) }
{
    let after = value_of(found, "journal-after");
    let sync = has_flag(found, "journal-sync");
    match value_of(found, "journal") {
        Some(path) => Some(Some(JournalArguments {
            path,
            after: read_after(after)?,
            sync,
        })),
        None if after.is_none() && !sync => Some(None),
        None => None,
    }
}

/// The guard that is given: a server is fenced or a follower, not both.
pub(crate) fn read_guard<'a>(found: &ArgMatches<'a>) -> Option<GuardArgument<'a>>
    ensures { option_map guard_value result ≡ guard_by (rows_of (found_of found.now)) }
{
    match (has_flag(found, "fenced"), value_of(found, "follower")) {
        (false, None) => Some(GuardArgument::Free),
        (true, None) => Some(GuardArgument::Fenced),
        (false, Some(path)) => Some(GuardArgument::Follower(path)),
        (true, Some(_)) => None,
    }
}

/// Whether a title and a time come only with an opening, and `check` not with `print`.
fn is_agreed(load: &LoadArguments<'_>) -> bool
    ensures { result ≡ agrees (load_value load.now) }
{
    let is_plain = load.title.is_none() && load.time.is_none();
    (load.opens || is_plain) && !(load.check && load.print)
}

/// The options of a load, from its arguments.
fn read_options<'a>(found: &ArgMatches<'a>) -> Option<LoadArguments<'a>>
    ensures { option_map load_value result ≡ options_given (rows_of (found_of found.now)) }
{
    Some(LoadArguments {
        text: read_text(found),
        key: value_of(found, "key")?,
        collection: value_of(found, "collection")?,
        each: read_each(value_of(found, "each"))?,
        opens: has_flag(found, "open"),
        title: value_of(found, "title"),
        time: value_of(found, "time"),
        scale: value_of(found, "scale"),
        shift: value_of(found, "shift"),
        rounds: has_flag(found, "round"),
        keeps_fractions: read_fractions(value_of(found, "fractions"))?,
        replace: has_flag(found, "replace"),
        skip: has_flag(found, "skip"),
        check: has_flag(found, "check"),
        print: has_flag(found, "print"),
        progress: has_flag(found, "progress"),
        explains: has_flag(found, "explain"),
    })
}

/// The command `load`, from its arguments.
pub(crate) fn read_load<'a>(found: &ArgMatches<'a>) -> Result<Command<'a>, CommandFault>
    ensures found { IfOk result (λ c. Some (command_value c)
        ≡ load_by (rows_of (found_of found.now))) }
    ensures refused { IfErr result (λ e. IsSome (load_by (rows_of (found_of found.now)))
        → e ≡ CommandFault.Memory) }
{
    let file = value_of(found, "file").ok_or(CommandFault::Usage)?;
    let load = read_options(found).ok_or(CommandFault::Usage)?;
    if is_agreed(&load) {
        Ok(Command::Load { file, load })
    } else {
        Err(CommandFault::Usage)
    }
}

/// The text that is named; none for standard input.
fn read_text<'a>(found: &ArgMatches<'a>) -> Option<&'a str>
    ensures { option_map (λ s. s.now) result
        ≡ text_given (first_of (codes "text") (rows_of (found_of found.now))) }
{
    match value_of(found, "text") {
        Some("-") => None,
        given => given,
    }
}

/// The command `batches`, from its arguments.
pub(crate) fn read_batches<'a>(found: &ArgMatches<'a>) -> Result<Command<'a>, CommandFault>
    ensures found { IfOk result (λ c. Some (command_value c)
        ≡ batches_by (rows_of (found_of found.now))) }
    ensures refused { IfErr result (λ e. IsSome (batches_by (rows_of (found_of found.now)))
        → e ≡ CommandFault.Memory) }
{
    let file = value_of(found, "file").ok_or(CommandFault::Usage)?;
    let after = read_after(value_of(found, "after")).ok_or(CommandFault::Usage)?;
    Ok(Command::Batches { file, after })
}

/// The command `apply`, from its arguments.
pub(crate) fn read_apply<'a>(found: &ArgMatches<'a>) -> Result<Command<'a>, CommandFault>
    ensures found { IfOk result (λ c. Some (command_value c)
        ≡ apply_by (rows_of (found_of found.now))) }
    ensures refused { IfErr result (λ e. IsSome (apply_by (rows_of (found_of found.now)))
        → e ≡ CommandFault.Memory) }
{
    let file = value_of(found, "file").ok_or(CommandFault::Usage)?;
    let text = read_text(found);
    Ok(Command::Apply { file, text })
}
