//! The line that refuses a batch of edits.
ghost use Rattle.std.specs.Prelude.{◌≡◌, ◌++◌, OnOk, OnErr};
ghost use Rattle.ltm_report.specs.EditFaults.{edit_cause_words, refused_edit_piece, edit_fault_line};

use crate::causes::push_diagram;
use crate::pieces::push_newline;
use ltm_scenario::{EditCause, EditFault};
use ltm_units::{NoMemory, push_number, push_text};
use std::alloc::Global;

#[tactic(auto, unfolding(crate::specs::EditFaults::edit_cause_words))]
fn push_edit_cause(into: &mut Vec<u8>, cause: &EditCause) -> Result<(), NoMemory>
    ensures { OnOk result (into.new.items ≡ into.old.items ++ edit_cause_words cause.now) }
{
    match cause {
        EditCause::UnknownName => push_text(into, b"UnknownName"),
        EditCause::UnknownDestination => push_text(into, b"UnknownDestination"),
        EditCause::NoOrigin => push_text(into, b"NoOrigin"),
        EditCause::SameEnds => push_text(into, b"SameEnds"),
        EditCause::BadSlots => push_text(into, b"BadSlots"),
        EditCause::OpenSplit => push_text(into, b"OpenSplit"),
        EditCause::ZeroWeight => push_text(into, b"ZeroWeight"),
        EditCause::TooManyRows => push_text(into, b"TooManyRows"),
        EditCause::Diagram(fault) => push_diagram(into, fault),
        EditCause::CellsOver(count) => push_number(into, b"CellsOver ", *count),
        EditCause::NoMemory => push_text(into, b"NoMemory"),
    }
}

#[tactic(auto, unfolding(crate::specs::EditFaults::refused_edit_piece))]
fn push_refused_edit(into: &mut Vec<u8>, place: u32) -> Result<(), NoMemory>
    ensures { OnOk result (into.new.items ≡ into.old.items ++ refused_edit_piece place) }
{
    push_number(into, b"refused edit ", u128::from(place))
}

/// Appends which edit of a batch is refused, counted from 1, and why, as `refused edit 2 UnknownName`.
#[tactic(auto, unfolding(crate::specs::EditFaults::edit_fault_line))]
pub fn edit_fault_text(alloc: Global, fault: &EditFault, into: &mut Vec<u8>) -> Result<(), NoMemory>
    ensures ok { OnOk result (into.new.items ≡ into.old.items ++ edit_fault_line fault.now) }
    ensures err { OnErr result (into.new.items ≡ into.old.items) }
{
    let mut line = Vec::new(alloc);
    push_refused_edit(&mut line, fault.place)?;
    push_text(&mut line, b" ")?;
    push_edit_cause(&mut line, &fault.cause)?;
    push_newline(&mut line)?;
    push_text(into, line.as_slice())
}
