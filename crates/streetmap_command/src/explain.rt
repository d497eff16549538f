//! What is wrong with arguments that are not a command, described for people.
ghost use Rattle.std.specs.Prelude.{◌≡◌, map, string_bytes};
ghost use Rattle.std.specs.List.{list_any};
ghost use Rattle.std.specs.Str.{bytes_eq};
ghost use Rattle.streetmap_command.specs.Program.{is_explained};

use crate::command::{has_flag, read_connections, value_of};
use crate::help::{help_called, topic_named};
use crate::parser::make_parser;
use crate::texts;
use crate::words::{read_each, read_fractions, read_guard, read_journal};
use clap::{ArgMatches, Error};
use std::alloc::{AllocError, Global};

/// Whether the arguments include the given one.
fn has_word(words: &[String], word: &str) -> bool
    ensures { result ≡ list_any (λ w. bytes_eq (string_bytes w) word.now) words.now }
{
    words.iter().any(|other| other.as_str() == word)
}

/// Whether the arguments include the option `--explain`.
pub fn is_explained(words: &[String]) -> bool
    ensures { result ≡ is_explained (map string_bytes words.now) }
{
    has_word(words, "--explain")
}

/// A sentence on arguments that are not a command: what is wrong, and which command prints help.
///
/// # Errors
///
/// `AllocError` if memory ran out.
pub fn usage_sentence(alloc: Global, words: &[String]) -> Result<String, AllocError> {
    let mut sentence = mistake_in(alloc, words)?;
    sentence.push_str(". For help: streetmap help")?;
    if let [_, word, ..] = words {
        if topic_named(word.as_str()).is_some() {
            sentence.push_str(" ")?;
            sentence.push_str(word.as_str())?;
        }
    }
    Ok(sentence)
}

/// What is wrong with arguments that are not a command.
fn mistake_in(alloc: Global, words: &[String]) -> Result<String, AllocError> {
    if has_split_shift(words) {
        return String::from_str(alloc, texts::SPLIT_SHIFT);
    }
    if help_called(words).is_some() {
        return String::from_str(alloc, texts::NO_TOPIC);
    }
    let parser = make_parser(alloc)?;
    match parser.try_get_matches_from(words) {
        Ok(matches) => String::from_str(alloc, wrong_value(&matches)),
        Err(error) => first_sentence(alloc, &error),
    }
}

/// Whether a shift begins with a minus and is a separate argument: `clap` reads it as an option.
fn has_split_shift(words: &[String]) -> bool {
    words.windows(2).any(|pair| match pair {
        [option, value] => option.as_str() == "--shift" && value.as_str().starts_with("-"),
        _ => false,
    })
}

/// The first paragraph of an error of `clap`, on one line.
fn first_sentence(alloc: Global, error: &Error) -> Result<String, AllocError> {
    let text = format!(in alloc; "{error}")?;
    let text = text.as_str();
    let text = text.strip_prefix("error: ").unwrap_or(text);
    let mut sentence = String::new(alloc);
    for line in text.lines() {
        let line = line.trim();
        if line.is_empty() {
            break;
        }
        if !sentence.is_empty() {
            sentence.push_str(" ")?;
        }
        sentence.push_str(line)?;
    }
    Ok(sentence)
}

/// Which value is wrong in arguments that `clap` accepts.
fn wrong_value(matches: &ArgMatches<'_>) -> &'static str {
    match matches.subcommand() {
        Some(("serve", found)) => wrong_in_serve(found),
        Some(("pipe", _)) => texts::FENCED_FOLLOWER,
        Some(("load", found)) => wrong_in_load(found),
        Some(_) => texts::WRONG_SERIAL,
        None => texts::NO_COMMAND,
    }
}

/// Which value of `serve` is wrong.
fn wrong_in_serve(found: &ArgMatches<'_>) -> &'static str {
    if read_connections(found).is_none() {
        texts::WRONG_CONNECTIONS
    } else if read_guard(found).is_none() {
        texts::FENCED_FOLLOWER
    } else if value_of(found, "journal").is_none() && read_journal(found).is_none() {
        texts::NO_JOURNAL
    } else {
        texts::WRONG_SERIAL
    }
}

/// Which value of `load` is wrong.
fn wrong_in_load(found: &ArgMatches<'_>) -> &'static str {
    if read_each(value_of(found, "each")).is_none() {
        texts::WRONG_EACH
    } else if read_fractions(value_of(found, "fractions")).is_none() {
        texts::WRONG_FRACTIONS
    } else if has_flag(found, "check") && has_flag(found, "print") {
        texts::CHECK_AND_PRINT
    } else if value_of(found, "scale").is_none() && value_of(found, "shift").is_none() {
        texts::NO_OPENING
    } else {
        texts::WRONG_NUMBERS
    }
}
