//! The lines that editors write.
ghost use Rattle.std.specs.Prelude.{◌≡◌, ◌++◌, ◌+◌, ◌≤◌, ◌<◌, IfOk, OnOk, length, codes};
ghost use Rattle.ltm_units.specs.Texts.{number_piece};
ghost use Rattle.ltm_report.specs.Pieces.{newline};
ghost use Rattle.ltm_session_editors.specs.Lines.{place_piece, verdict_line, call_line, call_lines, cause_words, long_edits_line, bad_script_line};

use crate::fault::LineCause;
use ltm_editors::{Call, Verdict};
use ltm_report::{accepted_text, edit_fault_text};
use ltm_units::{NoMemory, push_number, push_text};
use std::alloc::Global;

/// Says at which place of the history a call stands, and whose it is.
#[tactic(auto, unfolding(crate::specs::Lines::place_piece))]
fn push_place(into: &mut Vec<u8>, place: u64, editor: u32) -> Result<(), NoMemory>
    ensures { OnOk result (into.new.items ≡ into.old.items ++ place_piece place editor) }
{
    push_number(into, b"call ", u128::from(place))?;
    push_number(into, b" editor ", u128::from(editor))?;
    push_text(into, b" ")
}

/// Says what a call was answered.
fn push_verdict(alloc: Global, into: &mut Vec<u8>, verdict: Verdict) -> Result<(), NoMemory>
    ensures { OnOk result (into.new.items ≡ into.old.items ++ verdict_line verdict) }
{
    match verdict {
        Verdict::Accepted(version) => return accepted_text(version, into),
        Verdict::Refused(fault) => return edit_fault_text(alloc, &fault, into),
    }
}

/// The line of a call, as `call 2 editor 1 refused edit 1 UnknownName`.
#[tactic(auto, unfolding(crate::specs::Lines::call_line))]
fn push_call(alloc: Global, into: &mut Vec<u8>, place: u64, call: &Call) -> Result<(), NoMemory>
    ensures { OnOk result (into.new.items ≡ into.old.items ++ call_line place call.now) }
{
    push_place(into, place, call.editor)?;
    push_verdict(alloc, into, call.verdict)
}

/// The lines of calls, in order.
pub(crate) fn calls_text(alloc: Global, calls: &[Call]) -> Result<Vec<u8>, NoMemory>
    ensures { IfOk result (λ text. text.items ≡ call_lines 1 calls.now) }
{
    let mut text = Vec::new(alloc);
    let mut place: u64 = 1;
    for call in calls {
        push_call(alloc, &mut text, place, call)?;
        place += 1;
    }
    Ok(text)
}

#[tactic(auto, unfolding(crate::specs::Lines::cause_words))]
fn push_cause(into: &mut Vec<u8>, cause: LineCause) -> Result<(), NoMemory>
    ensures { OnOk result (into.new.items ≡ into.old.items ++ cause_words cause) }
{
    match cause {
        LineCause::NotJson => push_text(into, b"NotJson"),
        LineCause::NotCommand(place) => push_number(into, b"NotCommand ", u128::from(place)),
        LineCause::NotEdit => push_text(into, b"NotEdit"),
    }
}

/// The line of a file of edits that has more bytes than are read, as `too long edits2`.
#[tactic(auto, unfolding(crate::specs::Lines::long_edits_line))]
pub fn long_edits_text(alloc: Global, editor: u32) -> Result<Vec<u8>, NoMemory>
    ensures { IfOk result (λ line. line.items ≡ long_edits_line editor) }
{
    let mut line = Vec::new(alloc);
    push_number(&mut line, b"too long edits", u128::from(editor))?;
    push_text(&mut line, b"\n")?;
    Ok(line)
}

/// The line of the first line that is no edit, as `bad script edits2 line 1 NotEdit`.
#[tactic(auto, unfolding(crate::specs::Lines::bad_script_line))]
pub fn bad_script_text(
    alloc: Global,
    editor: u32,
    line: u32,
    cause: LineCause,
) -> Result<Vec<u8>, NoMemory>
    ensures { IfOk result (λ text. text.items ≡ bad_script_line editor line cause) }
{
    let mut text = Vec::new(alloc);
    push_number(&mut text, b"bad script edits", u128::from(editor))?;
    push_number(&mut text, b" line ", u128::from(line))?;
    push_text(&mut text, b" ")?;
    push_cause(&mut text, cause)?;
    push_text(&mut text, b"\n")?;
    Ok(text)
}
