//! The lines of a check.
ghost use Rattle.std.specs.Prelude.{◌≡◌, ◌++◌, OnOk, IfOk};
ghost use Rattle.ltm_check_command.specs.Lines.{yes_line, no_start_line, no_step_line, cause_words, bad_curves_line, long_curves_line};

use ltm_check::CurvesCause;
use ltm_units::{Name, NoMemory, push_number, push_text};
use std::alloc::Global;

/// The line that says yes.
#[tactic(auto, unfolding(crate::specs::Lines::yes_line))]
pub(crate) fn yes_text(alloc: Global) -> Result<Vec<u8>, NoMemory>
    ensures { IfOk result (λ line. line.items ≡ yes_line) }
{
    let mut line = Vec::new(alloc);
    push_text(&mut line, b"loading yes\n")?;
    Ok(line)
}

/// The line of curves that do not start as a loading does.
#[tactic(auto, unfolding(crate::specs::Lines::no_start_line))]
pub fn no_start_text(alloc: Global) -> Result<Vec<u8>, NoMemory>
    ensures { IfOk result (λ line. line.items ≡ no_start_line) }
{
    let mut line = Vec::new(alloc);
    push_text(&mut line, b"loading no start\n")?;
    Ok(line)
}

/// The line of the first counts that are not a node step, as `loading no node n2 slot 2`.
#[tactic(auto, unfolding(crate::specs::Lines::no_step_line))]
pub fn no_step_text(alloc: Global, node: &Name, slot: u32) -> Result<Vec<u8>, NoMemory>
    ensures { IfOk result (λ line. line.items ≡ no_step_line node.now slot) }
{
    let mut line = Vec::new(alloc);
    push_text(&mut line, b"loading no node ")?;
    push_text(&mut line, node.bytes())?;
    push_number(&mut line, b" slot ", u128::from(slot))?;
    push_text(&mut line, b"\n")?;
    Ok(line)
}

#[tactic(auto, unfolding(crate::specs::Lines::cause_words))]
fn push_cause(into: &mut Vec<u8>, cause: CurvesCause) -> Result<(), NoMemory>
    ensures { OnOk result (into.new.items ≡ into.old.items ++ cause_words cause) }
{
    match cause {
        CurvesCause::Header => push_text(into, b"Header"),
        CurvesCause::Width => push_text(into, b"Width"),
        CurvesCause::Field(place) => push_number(into, b"Field ", u128::from(place)),
        CurvesCause::Rows => push_text(into, b"Rows"),
    }
}

/// The line of a file that is no curve file of the case, as `bad curves row 6 Rows`.
#[tactic(auto, unfolding(crate::specs::Lines::bad_curves_line))]
pub fn bad_curves_text(alloc: Global, row: u32, cause: CurvesCause) -> Result<Vec<u8>, NoMemory>
    ensures { IfOk result (λ line. line.items ≡ bad_curves_line row cause) }
{
    let mut line = Vec::new(alloc);
    push_number(&mut line, b"bad curves row ", u128::from(row))?;
    push_text(&mut line, b" ")?;
    push_cause(&mut line, cause)?;
    push_text(&mut line, b"\n")?;
    Ok(line)
}

/// The line of a file that has more bytes than are read.
#[tactic(auto, unfolding(crate::specs::Lines::long_curves_line))]
pub fn long_curves_text(alloc: Global) -> Result<Vec<u8>, NoMemory>
    ensures { IfOk result (λ line. line.items ≡ long_curves_line) }
{
    let mut line = Vec::new(alloc);
    push_text(&mut line, b"too long curves\n")?;
    Ok(line)
}
