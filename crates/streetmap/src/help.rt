//! Help on standard output.

use streetmap_command::{Topic, help_text};
use streetmap_faults::ProgramFault;

/// Prints the help on a topic.
pub(crate) fn print(rt: &HostRuntime, topic: Topic) -> Result<(), ProgramFault> {
    let text = help_text(rt.alloc(), topic).map_err(|_| ProgramFault::Memory)?;
    print!(rt; "{text}").map_err(|_| ProgramFault::WriteFailed)
}
