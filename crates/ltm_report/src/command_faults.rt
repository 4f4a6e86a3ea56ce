//! The line that refuses a line of a script which is no command.
ghost use Rattle.std.specs.Prelude.{◌≡◌, ◌++◌, OnOk, OnErr};
ghost use Rattle.ltm_report.specs.CommandFaults.{command_fault_words, command_fault_line};

use crate::pieces::push_newline;
use ltm_script::CommandFault;
use ltm_units::{NoMemory, push_number, push_text};
use std::alloc::Global;

#[tactic(auto, unfolding(crate::specs::CommandFaults::command_fault_words))]
fn push_command_fault(into: &mut Vec<u8>, fault: CommandFault) -> Result<(), NoMemory>
    ensures { OnOk result (into.new.items ≡ into.old.items ++ command_fault_words fault) }
{
    match fault {
        CommandFault::NotJson => push_text(into, b"NotJson"),
        CommandFault::NotCommand(place) => push_number(into, b"NotCommand ", u128::from(place)),
        CommandFault::NoMemory => push_text(into, b"NoMemory"),
    }
}

/// Appends why a line of a script is no command, as `refused command NotJson`.
#[tactic(auto, unfolding(crate::specs::CommandFaults::command_fault_line))]
pub fn command_fault_text(
    alloc: Global,
    fault: CommandFault,
    into: &mut Vec<u8>,
) -> Result<(), NoMemory>
    ensures ok { OnOk result (into.new.items ≡ into.old.items ++ command_fault_line fault) }
    ensures err { OnErr result (into.new.items ≡ into.old.items) }
{
    let mut line = Vec::new(alloc);
    push_text(&mut line, b"refused command ")?;
    push_command_fault(&mut line, fault)?;
    push_newline(&mut line)?;
    push_text(into, line.as_slice())
}
