//! Help on the program and on its commands.
ghost use Rattle.std.specs.Prelude.{◌≡◌, IfOk, map, string_bytes};
ghost use Rattle.clap.specs.Words.{App, app_of};
ghost use Rattle.streetmap_command.specs.Topics.{topic_named, topic_after, topic_of, help_called};
ghost use Rattle.streetmap_command.specs.Program.{help_app};

use crate::parser::{
    make_apply, make_batches, make_check, make_create, make_export, make_import, make_lines,
    make_load, make_parser, make_pipe, make_serve,
};
use clap::Command;
use std::alloc::{AllocError, Global};

/// What help is on: the program, or one of its commands.
#[derive(Clone, Copy, Drop)]
pub enum Topic {
    /// The program, and which commands it has.
    Program,
    /// `lines`.
    Lines,
    /// `create`.
    Create,
    /// `pipe`.
    Pipe,
    /// `serve`.
    Serve,
    /// `import`.
    Import,
    /// `export`.
    Export,
    /// `check`.
    Check,
    /// `load`.
    Load,
    /// `batches`.
    Batches,
    /// `apply`.
    Apply,
}

/// The command that an argument names.
pub(crate) fn topic_named(word: &str) -> Option<Topic>
    ensures { result ≡ topic_named word.now }
{
    match word {
        "lines" => Some(Topic::Lines),
        "create" => Some(Topic::Create),
        "pipe" => Some(Topic::Pipe),
        "serve" => Some(Topic::Serve),
        "import" => Some(Topic::Import),
        "export" => Some(Topic::Export),
        "check" => Some(Topic::Check),
        "load" => Some(Topic::Load),
        "batches" => Some(Topic::Batches),
        "apply" => Some(Topic::Apply),
        _ => None,
    }
}

/// What the arguments after `help` name: the program, or one command.
fn topic_after(words: &[String]) -> Option<Topic>
    ensures { result ≡ topic_after (map string_bytes words.now) }
{
    match words {
        [] => Some(Topic::Program),
        [word] => topic_named(word.as_str()),
        _ => None,
    }
}

/// The help that arguments request without an option, if they do: either the program's name is the
/// only argument, or `help` follows it, and then at most the name of one command.
pub(crate) fn help_called(words: &[String]) -> Option<Option<Topic>>
    ensures { result ≡ help_called (map string_bytes words.now) }
{
    match words {
        [] | [_] => Some(Some(Topic::Program)),
        [_, word, rest @ ..] => {
            if word.as_str() == "help" {
                Some(topic_after(rest))
            } else {
                None
            }
        }
    }
}

/// The topic of the help that an option requests: the command that the first argument after the
/// program's name names, or else the program.
pub(crate) fn topic_of(words: &[String]) -> Topic
    ensures { result ≡ topic_of (map string_bytes words.now) }
{
    match words {
        [_, word, ..] => match topic_named(word.as_str()) {
            Some(topic) => topic,
            None => Topic::Program,
        },
        _ => Topic::Program,
    }
}

/// The command with the name that its usage shows, unless memory ran out.
fn with_usage_name<'a>(
    command: Result<Command<'a>, AllocError>,
    name: &str,
) -> Result<Command<'a>, AllocError>
    ensures { (a : App) → IfOk command.entry (λ c. app_of c ≡ a)
        → IfOk result (λ c. app_of c ≡ a) }
{
    command?.bin_name(name)
}

/// The command line that the help on a topic describes.
fn topic_parser<'a>(alloc: Global, topic: Topic) -> Result<Command<'a>, AllocError>
    ensures { IfOk result (λ c. app_of c ≡ help_app topic) }
{
    match topic {
        Topic::Program => make_parser(alloc),
        Topic::Lines => with_usage_name(make_lines(alloc), "streetmap lines"),
        Topic::Create => with_usage_name(make_create(alloc), "streetmap create"),
        Topic::Pipe => with_usage_name(make_pipe(alloc), "streetmap pipe"),
        Topic::Serve => with_usage_name(make_serve(alloc), "streetmap serve"),
        Topic::Import => with_usage_name(make_import(alloc), "streetmap import"),
        Topic::Export => with_usage_name(make_export(alloc), "streetmap export"),
        Topic::Check => with_usage_name(make_check(alloc), "streetmap check"),
        Topic::Load => with_usage_name(make_load(alloc), "streetmap load"),
        Topic::Batches => with_usage_name(make_batches(alloc), "streetmap batches"),
        Topic::Apply => with_usage_name(make_apply(alloc), "streetmap apply"),
    }
}

/// The help on a topic, as `clap` writes it: a sentence, the usage, and the commands or arguments.
///
/// # Errors
///
/// `AllocError` if memory ran out.
pub fn help_text(alloc: Global, topic: Topic) -> Result<String, AllocError> {
    let mut parser = topic_parser(alloc, topic)?;
    parser.render_help()
}
