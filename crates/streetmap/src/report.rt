//! What is said of a fault on standard error: its line, and a sentence for people.

use std::io::IsTerminal;
use streetmap_command::{is_explained, usage_sentence};
use streetmap_faults::{ProgramFault, Sentence};
use streetmap_loading::{LoadFault, TextFault};

/// Prints the line of a fault. A sentence on it follows if that is requested, if standard error is
/// a terminal, and always for a text that is not a sequence of features. Features that were
/// skipped, a collection that differs in a replay, and a store that failed while it was served have
/// their lines already. A line that cannot be written is left out.
pub(crate) fn print(rt: &HostRuntime, words: &[String], fault: ProgramFault) {
    if !matches!(
        fault,
        ProgramFault::PassedOver | ProgramFault::NotReplayed(None) | ProgramFault::Shut
    ) {
        let _ = eprintln!(rt; "{fault}");
    }
    let is_always = matches!(
        fault,
        ProgramFault::Load(LoadFault::AtFault(TextFault::NotASequence))
    );
    if is_always || is_explained(words) || rt.stderr().is_terminal() {
        print_sentence(rt, words, fault);
    }
}

/// Prints the sentence on a fault; for arguments that are not a command, what is wrong with them.
fn print_sentence(rt: &HostRuntime, words: &[String], fault: ProgramFault) {
    if matches!(fault, ProgramFault::Usage) && !words.is_empty() {
        if let Ok(sentence) = usage_sentence(rt.alloc(), words) {
            let _ = eprintln!(rt; "{sentence}");
        }
    } else {
        let sentence = Sentence(fault);
        let _ = eprintln!(rt; "{sentence}");
    }
}
