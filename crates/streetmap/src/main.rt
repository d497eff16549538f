//! The program `streetmap`: features of a map office, kept in a file, served over HTTP, imported
//! and exported, or read and changed by lines.
//!
//! Modules, in the order of reading: `files` (whether FILE exists), `openings` (how it is opened),
//! `served` (`serve`, `pipe`) and `opened` (the other commands): what is done to FILE, from opening
//! it to the end. Below these: `server` and `journal`; `exchange` (`import`, `export`), with
//! `texts` and `progress`; `loads` (`load`); `batches` (`batches`, `apply`); `checks` (`check`).
//! Beside them: `lines` (`lines`), `help`, and `token` (which batches a server refuses). `fault`
//! turns faults of the crates below into that of the program, and `report` prints them. The command
//! line, what is printed for a fault, and what the commands do in turn are in those crates.
#![tactic(auto)]

mod batches;
mod checks;
mod exchange;
mod fault;
mod files;
mod help;
mod journal;
mod lines;
mod loads;
mod opened;
mod openings;
mod progress;
mod report;
mod same;
mod served;
mod server;
mod texts;
mod token;

use std::env;
use std::process::ExitCode;
use streetmap_command::{Command, VERSION, read_command};
use streetmap_faults::ProgramFault;
use streetmap_routes::{Base, Offers};
use streetmap_web::Site;

/// The arguments of the command line, the first of which is the program's name.
fn words_of(rt: &HostRuntime) -> Result<Vec<String>, ProgramFault> {
    let mut words = Vec::new(rt.alloc());
    for word in env::args(rt).map_err(|error| fault::of_words(&error))? {
        words.push(word).map_err(|_| ProgramFault::Memory)?;
    }
    Ok(words)
}

/// Does what the arguments request.
fn run(rt: &HostRuntime, words: &[String]) -> Result<(), ProgramFault> {
    perform(rt, read_command(rt.alloc(), words)?)
}

/// Does what a command requests. A base of links is checked, and a token read, before the file is.
fn perform(rt: &HostRuntime, command: Command<'_>) -> Result<(), ProgramFault> {
    match command {
        Command::Help(topic) => help::print(rt, topic),
        Command::Version => print_version(rt),
        Command::Lines => Ok(lines::run(rt)?),
        Command::Create { file } => files::create(rt, file),
        Command::Pipe {
            file,
            base,
            conditional,
            changes,
            status,
            guard,
        } => {
            let base = Base::new(rt.alloc(), base.as_str())?.ok_or(ProgramFault::BadBase)?;
            let guard = token::guard_of(rt, guard)?;
            let tags = conditional;
            files::pipe(
                rt,
                file,
                Site {
                    base,
                    tags,
                    offers: Offers { changes, status },
                    guard,
                },
            )
        }
        Command::Serve {
            file,
            connections,
            base,
            journal,
            guard,
        } => {
            let base = Base::new(rt.alloc(), base.as_str())?.ok_or(ProgramFault::BadBase)?;
            let guard = token::guard_of(rt, guard)?;
            files::serve(rt, file, connections, base, guard, journal)
        }
        Command::Import { file, import } => files::import(rt, file, import),
        Command::Export {
            file,
            collection,
            progress,
        } => files::export(rt, file, collection, progress),
        Command::Check { file, replay } => files::check(rt, file, replay),
        Command::Load { file, load } => {
            let numbers = loads::numbers_of(load)?;
            files::load(rt, file, load, numbers)
        }
        Command::Batches { file, after } => files::print_batches(rt, file, after),
        Command::Apply { file, text } => files::apply(rt, file, text),
    }
}

/// Prints the name of the program and its version.
fn print_version(rt: &HostRuntime) -> Result<(), ProgramFault> {
    println!(rt; "streetmap {VERSION}").map_err(|_| ProgramFault::WriteFailed)
}

/// The exit status of what was done; the lines of a fault are printed.
fn end(rt: &HostRuntime, words: &[String], done: Result<(), ProgramFault>) -> ExitCode {
    match done {
        Ok(()) => ExitCode::SUCCESS,
        Err(fault) => {
            report::print(rt, words, fault);
            ExitCode::from(fault.report().status)
        }
    }
}

fn main(rt: HostRuntime) -> ExitCode {
    match words_of(&rt) {
        Ok(words) => end(&rt, words.as_slice(), run(&rt, words.as_slice())),
        Err(fault) => end(&rt, &[], Err(fault)),
    }
}
