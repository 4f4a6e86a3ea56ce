//! A line as a command.
ghost use Rattle.std.specs.Prelude.{◌≡◌, ◌≢◌, ◌≤◌, Some, Err, IfOk, OnErr, codes, length, option_map, option_and_then};
ghost use Rattle.serde_json.specs.Find.{as_array, get};
ghost use Rattle.serde_json.specs.View.{view, items_view};
ghost use Rattle.ltm_script.specs.Commands.{totals_of, question_by, command_of, array_of, HasAmounts};
ghost use Rattle.ltm_script.specs.Line.{reading, EveryLineIsRead};

use crate::edits::read_edits;
use crate::members::{find_name, find_text, find_whole, read_whole};
use crate::{Command, CommandFault, Question};
use ltm_scenario::{Batch, BatchFault};
use serde_json::Value;
use std::alloc::Global;

/// The most edits of a command.
const MOST_EDITS: usize = 32;

/// The array of a command's edits.
fn find_edits(value: &Value) -> Option<&Vec<Value>>
    ensures { option_map (λ v. items_view v.now.items) result
        ≡ option_and_then as_array (get (codes "edits") (view value.now)) }
{
    match value.get("edits") {
        Some(found) => found.as_array(),
        None => None,
    }
}

/// The values as a batch.
#[tactic(auto, using(crate::proofs::Placed::counts))]
fn read_batch(alloc: Global, values: &Vec<Value>) -> Result<Command, CommandFault>
    ensures command { result ≢ Err CommandFault.NoMemory
        → result ≡ array_of (Some (items_view values.now.items)) }
    ensures amounts { IfOk result HasAmounts }
{
    if values.is_empty() || values.len() > MOST_EDITS {
        return Err(CommandFault::NotCommand(0));
    }
    let edits = read_edits(alloc, values.as_slice())?;
    match Batch::of(alloc, edits.as_slice()) {
        Ok(batch) => Ok(Command::Edit(batch)),
        Err(_) => Err(CommandFault::NoMemory),
    }
}

/// The totals that a value asks for: by so many slots where it has a member `every`, and else those at the end.
fn read_totals(value: &Value) -> Option<Question>
    ensures { result ≡ totals_of (view value.now) }
{
    match value.get("every") {
        Some(found) => {
            let every = read_whole(found)?;
            Some(Question::Samples { every })
        }
        None => Some(Question::Totals),
    }
}

/// The question that a value asks by a word.
fn read_question(value: &Value, word: &str) -> Option<Question>
    ensures { result ≡ question_by word.now (view value.now) }
{
    match word {
        "totals" => read_totals(value),
        "link" => {
            let link = find_name(value, "link")?;
            Some(Question::Link(link))
        }
        "time" => {
            let link = find_name(value, "link")?;
            let slot = find_whole(value, "slot")?;
            Some(Question::Time { link, slot })
        }
        "delay" => Some(Question::Delay),
        "queue" => {
            let link = find_name(value, "link")?;
            let slot = find_whole(value, "slot")?;
            Some(Question::Queue { link, slot })
        }
        "origin" => {
            let node = find_name(value, "node")?;
            let slot = find_whole(value, "slot")?;
            Some(Question::Origin { node, slot })
        }
        "state" => {
            let slot = find_whole(value, "slot")?;
            Some(Question::State { slot })
        }
        "curve" => {
            let link = find_name(value, "link")?;
            Some(Question::Curve { link })
        }
        "departures" => {
            let node = find_name(value, "node")?;
            Some(Question::Departures { node })
        }
        "delays" => Some(Question::Delays),
        "gap" => Some(Question::Gap),
        _ => None,
    }
}

/// The command that a value is.
fn read_value(alloc: Global, value: &Value) -> Result<Command, CommandFault>
    ensures command { result ≢ Err CommandFault.NoMemory → result ≡ command_of (view value.now) }
    ensures amounts { IfOk result HasAmounts }
{
    let no_command = CommandFault::NotCommand(0);
    match find_text(value, "do").ok_or(no_command)? {
        "edit" => read_batch(alloc, find_edits(value).ok_or(no_command)?),
        "settle" => Ok(Command::Settle),
        word => {
            let question = read_question(value, word).ok_or(no_command)?;
            Ok(Command::Ask(question))
        }
    }
}

/// Reads a line of a script, without its newline.
///
/// The line is one JSON value as `serde_json` reads it: a member that stands twice counts as it stands last, and members
/// that no command asks for are passed over.
#[tactic(auto, using(crate::proofs::Lines::values))]
pub fn read_command(alloc: Global, line: &[u8]) -> Result<Command, CommandFault>
    ensures command { result ≢ Err CommandFault.NoMemory → result ≡ reading line.now }
    ensures amounts { IfOk result HasAmounts }
{
    match Value::from_slice(alloc, line) {
        Ok(value) => read_value(alloc, &value),
        Err(e) => {
            if e.is_memory() {
                Err(CommandFault::NoMemory)
            } else {
                Err(CommandFault::NotJson)
            }
        }
    }
}

/// Each line has its one reading, which is a command or a fault of the line, and never want of memory.
pub fn every_line_is_read()
    ensures { EveryLineIsRead }
{}
