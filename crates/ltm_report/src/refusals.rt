//! The lines that refuse a question or the rest of a script.
ghost use Rattle.std.specs.Prelude.{◌≡◌, ◌++◌, ◌≤◌, length, codes, OnOk, OnErr};
ghost use Rattle.ltm_report.specs.Refusals.{unknown_name_line, bad_slots_line, long_piece, long_script_line, too_many_line};

use crate::pieces::push_newline;
use ltm_units::{NoMemory, append, push_number, push_text};
use std::alloc::Global;

/// Appends that a question is refused, and what stands behind its word.
fn refused_text(into: &mut Vec<u8>, question: &[u8], cause: &[u8]) -> Result<(), NoMemory>
    requires { length cause.now ≤ 16 }
    ensures ok { OnOk result (into.new.items
        ≡ into.old.items ++ codes "refused " ++ question.now ++ cause.now) }
    ensures err { OnErr result (into.new.items ≡ into.old.items) }
{
    into.reserve(question.len() + 24)?;
    append(into, b"refused ");
    append(into, question);
    append(into, cause);
    Ok(())
}

/// Appends the refusal of a question about an unknown name, such as `refused queue UnknownName`; `question` is its word.
#[tactic(auto, unfolding(crate::specs::Refusals::unknown_name_line))]
pub fn unknown_name_text(question: &[u8], into: &mut Vec<u8>) -> Result<(), NoMemory>
    ensures ok { OnOk result (into.new.items ≡ into.old.items ++ unknown_name_line question.now) }
    ensures err { OnErr result (into.new.items ≡ into.old.items) }
{
    refused_text(into, question, b" UnknownName\n")
}

/// Appends the refusal of a question about a slot or boundary that the loading shown does not have, such as
/// `refused queue BadSlots`; `question` is its word.
#[tactic(auto, unfolding(crate::specs::Refusals::bad_slots_line))]
pub fn bad_slots_text(question: &[u8], into: &mut Vec<u8>) -> Result<(), NoMemory>
    ensures ok { OnOk result (into.new.items ≡ into.old.items ++ bad_slots_line question.now) }
    ensures err { OnErr result (into.new.items ≡ into.old.items) }
{
    refused_text(into, question, b" BadSlots\n")
}

#[tactic(auto, unfolding(crate::specs::Refusals::long_piece))]
fn push_long(into: &mut Vec<u8>, number: u32) -> Result<(), NoMemory>
    ensures { OnOk result (into.new.items ≡ into.old.items ++ long_piece number) }
{
    push_number(into, b"too long line ", u128::from(number))
}

/// Appends that a line of a script, counted from 1, has more bytes than are read, as `too long line 3`.
#[tactic(auto, unfolding(crate::specs::Refusals::long_script_line))]
pub fn long_script_text(alloc: Global, number: u32, into: &mut Vec<u8>) -> Result<(), NoMemory>
    ensures ok { OnOk result (into.new.items ≡ into.old.items ++ long_script_line number) }
    ensures err { OnErr result (into.new.items ≡ into.old.items) }
{
    let mut line = Vec::new(alloc);
    push_long(&mut line, number)?;
    push_newline(&mut line)?;
    push_text(into, line.as_slice())
}

/// Appends that a script has more lines than are answered.
#[tactic(auto, unfolding(crate::specs::Refusals::too_many_line))]
pub fn too_many_text(into: &mut Vec<u8>) -> Result<(), NoMemory>
    ensures ok { OnOk result (into.new.items ≡ into.old.items ++ too_many_line) }
    ensures err { OnErr result (into.new.items ≡ into.old.items) }
{
    push_text(into, b"too many commands\n")
}
