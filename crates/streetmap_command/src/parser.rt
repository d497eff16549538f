//! The command line, as it is described to `clap`.
ghost use Rattle.std.specs.Prelude.{◌≡◌, IfOk, false, codes};
ghost use Rattle.clap.specs.Words.{App, Rule, app_of, rule_of, new_app, with_rule, with_subcommand};
ghost use Rattle.clap.specs.declared.builder.command.Command.TheViews.{out-Command as fields_of};
ghost use Rattle.streetmap_command.specs.Program.{optional, load, load_into, load_numbers};
ghost use Rattle.streetmap_command.specs.Program.{batches, apply};
ghost use Rattle.streetmap_command.specs.Program.{program, positional, option, required_option};
ghost use Rattle.streetmap_command.specs.Program.{flag, file, explain, over_file, lines};
ghost use Rattle.streetmap_command.specs.Program.{create, pipe, serve, serve_clients, import};
ghost use Rattle.streetmap_command.specs.Program.{export, check};
ghost use Rattle.streetmap_command.specs.Program.{versioned};

use crate::texts;
use clap::{Arg, ArgAction, Command};
use std::alloc::{AllocError, Global};

/// The version of the program.
pub const VERSION: &str = "0.1.0";

/// The place in help of an option that is listed last.
const LAST: usize = 100;

/// A positional value, which may be omitted.
fn optional_arg<'a>(alloc: Global, name: &'a str, help: &'a str) -> Arg<'a>
    ensures rule { rule_of result ≡ optional name.entry.now }
    ensures local { result.global ≡ false }
{
    Arg::new(alloc, name).action(ArgAction::Set).help(help)
}

/// A positional value that is required.
fn positional_arg<'a>(alloc: Global, name: &'a str, help: &'a str) -> Arg<'a>
    ensures rule { rule_of result ≡ positional name.entry.now }
    ensures local { result.global ≡ false }
{
    optional_arg(alloc, name, help).required(true)
}

/// An option with a value.
fn option_arg<'a>(alloc: Global, name: &'a str, help: &'a str) -> Arg<'a>
    ensures rule { rule_of result ≡ option name.entry.now }
    ensures local { result.global ≡ false }
{
    optional_arg(alloc, name, help).long(name)
}

/// An option with a value that is required.
fn required_arg<'a>(alloc: Global, name: &'a str, help: &'a str) -> Arg<'a>
    ensures rule { rule_of result ≡ required_option name.entry.now }
    ensures local { result.global ≡ false }
{
    option_arg(alloc, name, help).required(true)
}

/// An option without a value.
fn flag_arg<'a>(alloc: Global, name: &'a str, help: &'a str) -> Arg<'a>
    ensures rule { rule_of result ≡ flag name.entry.now }
    ensures local { result.global ≡ false }
{
    Arg::new(alloc, name)
        .long(name)
        .action(ArgAction::SetTrue)
        .help(help)
}

/// The command with one more argument, which is not global, unless memory ran out.
fn with_argument<'a>(
    command: Result<Command<'a>, AllocError>,
    argument: Arg<'a>,
) -> Result<Command<'a>, AllocError>
    ensures app { (a : App) (r : Rule) → IfOk command.entry (λ c. app_of c ≡ a)
        → rule_of argument.entry ≡ r → argument.entry.global ≡ false
        → IfOk result (λ c. app_of c ≡ with_rule a r) }
    ensures local { IfOk command.entry (λ c. (fields_of c).has_globals ≡ false)
        → argument.entry.global ≡ false → IfOk result (λ c. (fields_of c).has_globals ≡ false) }
{
    command?.arg(argument)
}

/// The command with one more subcommand, unless memory ran out for either.
fn with_subcommand<'a>(
    command: Result<Command<'a>, AllocError>,
    subcommand: Result<Command<'a>, AllocError>,
) -> Result<Command<'a>, AllocError>
    ensures { (a b : App) → IfOk command.entry (λ c. app_of c ≡ a)
        → IfOk subcommand.entry (λ c. app_of c ≡ b)
        → IfOk subcommand.entry (λ c. (fields_of c).has_globals ≡ false)
        → IfOk result (λ c. app_of c ≡ with_subcommand a b.top) }
{
    command?.subcommand(subcommand?)
}

/// A command without arguments, and the sentence on it in help.
fn new_command<'a>(alloc: Global, name: &'a str, about: &'a str) -> Command<'a>
    ensures app { app_of result ≡ new_app name.entry.now }
    ensures local { (fields_of result).has_globals ≡ false }
{
    Command::new(alloc, name).about(about)
}

/// The option `--explain`, which help lists last.
fn explain_arg<'a>(alloc: Global) -> Arg<'a>
    ensures rule { rule_of result ≡ explain }
    ensures local { result.global ≡ false }
{
    flag_arg(alloc, "explain", texts::EXPLAIN).display_order(LAST)
}

/// A command with the option `--explain`, which every command has.
fn explained_command<'a>(
    alloc: Global,
    name: &'a str,
    about: &'a str,
) -> Result<Command<'a>, AllocError>
    ensures app { IfOk result (λ c. app_of c ≡ with_rule (new_app name.entry.now) explain) }
    ensures local { IfOk result (λ c. (fields_of c).has_globals ≡ false) }
{
    new_command(alloc, name, about).arg(explain_arg(alloc))
}

/// A command over a file, which is its first argument.
fn file_command<'a>(
    alloc: Global,
    name: &'a str,
    about: &'a str,
    file: &'a str,
) -> Result<Command<'a>, AllocError>
    ensures app { IfOk result (λ c. app_of c ≡ over_file name.entry.now) }
    ensures local { IfOk result (λ c. (fields_of c).has_globals ≡ false) }
{
    let command = explained_command(alloc, name, about);
    with_argument(command, positional_arg(alloc, "file", file))
}

pub(crate) fn make_lines<'a>(alloc: Global) -> Result<Command<'a>, AllocError>
    ensures app { IfOk result (λ c. app_of c ≡ lines) }
    ensures local { IfOk result (λ c. (fields_of c).has_globals ≡ false) }
{
    explained_command(alloc, "lines", texts::LINES)
}

pub(crate) fn make_create<'a>(alloc: Global) -> Result<Command<'a>, AllocError>
    ensures app { IfOk result (λ c. app_of c ≡ create) }
    ensures local { IfOk result (λ c. (fields_of c).has_globals ≡ false) }
{
    file_command(alloc, "create", texts::CREATE, texts::NEW_FILE)
}

pub(crate) fn make_pipe<'a>(alloc: Global) -> Result<Command<'a>, AllocError>
    ensures app { IfOk result (λ c. app_of c ≡ pipe) }
    ensures local { IfOk result (λ c. (fields_of c).has_globals ≡ false) }
{
    let command = file_command(alloc, "pipe", texts::PIPE, texts::FILE);
    let command = with_argument(command, option_arg(alloc, "base", texts::BASE));
    let command = with_argument(command, flag_arg(alloc, "conditional", texts::CONDITIONAL));
    let command = with_argument(command, flag_arg(alloc, "changes", texts::CHANGES));
    let command = with_argument(command, flag_arg(alloc, "status", texts::STATUS));
    let command = with_argument(command, flag_arg(alloc, "fenced", texts::FENCED));
    with_argument(command, option_arg(alloc, "follower", texts::FOLLOWER))
}

fn make_serve_clients<'a>(alloc: Global) -> Result<Command<'a>, AllocError>
    ensures app { IfOk result (λ c. app_of c ≡ serve_clients) }
    ensures local { IfOk result (λ c. (fields_of c).has_globals ≡ false) }
{
    let command = file_command(alloc, "serve", texts::SERVE, texts::FILE);
    let command = with_argument(command, required_arg(alloc, "port", texts::PORT));
    let command = with_argument(command, option_arg(alloc, "count", texts::COUNT));
    let command = with_argument(command, option_arg(alloc, "clients", texts::CLIENTS));
    let command = with_argument(command, flag_arg(alloc, "log", texts::LOG));
    let command = with_argument(command, option_arg(alloc, "base", texts::BASE));
    let command = with_argument(command, flag_arg(alloc, "warm", texts::WARM));
    let command = with_argument(command, flag_arg(alloc, "conditional", texts::CONDITIONAL));
    let command = with_argument(command, flag_arg(alloc, "changes", texts::CHANGES));
    with_argument(command, flag_arg(alloc, "status", texts::STATUS))
}

pub(crate) fn make_serve<'a>(alloc: Global) -> Result<Command<'a>, AllocError>
    ensures app { IfOk result (λ c. app_of c ≡ serve) }
    ensures local { IfOk result (λ c. (fields_of c).has_globals ≡ false) }
{
    let command = make_serve_clients(alloc);
    let command = with_argument(command, option_arg(alloc, "journal", texts::JOURNAL));
    let command = with_argument(
        command,
        option_arg(alloc, "journal-after", texts::JOURNAL_AFTER),
    );
    let command = with_argument(
        command,
        flag_arg(alloc, "journal-sync", texts::JOURNAL_SYNC),
    );
    let command = with_argument(command, flag_arg(alloc, "fenced", texts::FENCED));
    with_argument(command, option_arg(alloc, "follower", texts::FOLLOWER))
}

pub(crate) fn make_import<'a>(alloc: Global) -> Result<Command<'a>, AllocError>
    ensures app { IfOk result (λ c. app_of c ≡ import) }
    ensures local { IfOk result (λ c. (fields_of c).has_globals ≡ false) }
{
    let command = file_command(alloc, "import", texts::IMPORT, texts::FILE);
    let command = with_argument(command, positional_arg(alloc, "text", texts::IMPORT_TEXT));
    let command = with_argument(command, required_arg(alloc, "key", texts::IMPORT_KEY));
    let command = with_argument(command, required_arg(alloc, "collection", texts::INTO));
    let command = with_argument(command, flag_arg(alloc, "replace", texts::REPLACE));
    with_argument(command, flag_arg(alloc, "progress", texts::PROGRESS))
}

pub(crate) fn make_export<'a>(alloc: Global) -> Result<Command<'a>, AllocError>
    ensures app { IfOk result (λ c. app_of c ≡ export) }
    ensures local { IfOk result (λ c. (fields_of c).has_globals ≡ false) }
{
    let command = file_command(alloc, "export", texts::EXPORT, texts::FILE);
    let command = with_argument(command, required_arg(alloc, "collection", texts::FROM));
    with_argument(command, flag_arg(alloc, "progress", texts::PROGRESS))
}

pub(crate) fn make_check<'a>(alloc: Global) -> Result<Command<'a>, AllocError>
    ensures app { IfOk result (λ c. app_of c ≡ check) }
    ensures local { IfOk result (λ c. (fields_of c).has_globals ≡ false) }
{
    let command = file_command(alloc, "check", texts::CHECK, texts::FILE);
    with_argument(command, flag_arg(alloc, "replay", texts::REPLAY))
}

pub(crate) fn make_batches<'a>(alloc: Global) -> Result<Command<'a>, AllocError>
    ensures app { IfOk result (λ c. app_of c ≡ batches) }
    ensures local { IfOk result (λ c. (fields_of c).has_globals ≡ false) }
{
    let command = file_command(alloc, "batches", texts::BATCHES, texts::FILE);
    with_argument(command, option_arg(alloc, "after", texts::AFTER))
}

pub(crate) fn make_apply<'a>(alloc: Global) -> Result<Command<'a>, AllocError>
    ensures app { IfOk result (λ c. app_of c ≡ apply) }
    ensures local { IfOk result (λ c. (fields_of c).has_globals ≡ false) }
{
    let command = file_command(alloc, "apply", texts::APPLY, texts::FILE);
    with_argument(command, optional_arg(alloc, "text", texts::APPLY_TEXT))
}

fn make_load_into<'a>(alloc: Global) -> Result<Command<'a>, AllocError>
    ensures app { IfOk result (λ c. app_of c ≡ load_into) }
    ensures local { IfOk result (λ c. (fields_of c).has_globals ≡ false) }
{
    let command = file_command(alloc, "load", texts::LOAD, texts::FILE);
    let command = with_argument(command, optional_arg(alloc, "text", texts::LOAD_TEXT));
    let command = with_argument(command, required_arg(alloc, "key", texts::LOAD_KEY));
    let command = with_argument(command, required_arg(alloc, "collection", texts::INTO));
    let command = with_argument(command, option_arg(alloc, "each", texts::EACH));
    let command = with_argument(command, flag_arg(alloc, "open", texts::OPEN));
    let command = with_argument(command, option_arg(alloc, "title", texts::TITLE));
    with_argument(command, option_arg(alloc, "time", texts::TIME))
}

fn make_load_numbers<'a>(alloc: Global) -> Result<Command<'a>, AllocError>
    ensures app { IfOk result (λ c. app_of c ≡ load_numbers) }
    ensures local { IfOk result (λ c. (fields_of c).has_globals ≡ false) }
{
    let command = make_load_into(alloc);
    let command = with_argument(command, option_arg(alloc, "scale", texts::SCALE));
    let command = with_argument(command, option_arg(alloc, "shift", texts::SHIFT));
    let command = with_argument(command, flag_arg(alloc, "round", texts::ROUND));
    with_argument(command, option_arg(alloc, "fractions", texts::FRACTIONS))
}

pub(crate) fn make_load<'a>(alloc: Global) -> Result<Command<'a>, AllocError>
    ensures app { IfOk result (λ c. app_of c ≡ load) }
    ensures local { IfOk result (λ c. (fields_of c).has_globals ≡ false) }
{
    let command = make_load_numbers(alloc);
    let command = with_argument(command, flag_arg(alloc, "replace", texts::REPLACE));
    let command = with_argument(command, flag_arg(alloc, "skip", texts::SKIP));
    let command = with_argument(command, flag_arg(alloc, "check", texts::ONLY_CHECK));
    let command = with_argument(command, flag_arg(alloc, "print", texts::PRINT));
    with_argument(command, flag_arg(alloc, "progress", texts::PROGRESS))
}

/// The program, with its version and without commands.
fn make_program<'a>(alloc: Global) -> Command<'a>
    ensures app { app_of result ≡ versioned (new_app (codes "streetmap")) }
    ensures local { (fields_of result).has_globals ≡ false }
{
    new_command(alloc, "streetmap", texts::PROGRAM).version(VERSION)
}

/// The program's command line.
pub(crate) fn make_parser<'a>(alloc: Global) -> Result<Command<'a>, AllocError>
    ensures { IfOk result (λ c. app_of c ≡ program) }
{
    let command = with_subcommand(Ok(make_program(alloc)), make_lines(alloc));
    let command = with_subcommand(command, make_create(alloc));
    let command = with_subcommand(command, make_pipe(alloc));
    let command = with_subcommand(command, make_serve(alloc));
    let command = with_subcommand(command, make_import(alloc));
    let command = with_subcommand(command, make_export(alloc));
    let command = with_subcommand(command, make_check(alloc));
    let command = with_subcommand(command, make_load(alloc));
    let command = with_subcommand(command, make_batches(alloc));
    with_subcommand(command, make_apply(alloc))
}
