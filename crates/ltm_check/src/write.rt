//! A loading's curves written as a file, a piece at a time.
ghost use Rattle.std.specs.Prelude.{◌≡◌, ◌++◌, ◌<◌, ◌≤◌, [], OnOk, OnErr, IfOk, IsErrOf};
ghost use Rattle.ltm_io.specs.Faults.{Rose};
ghost use Rattle.ltm_io.specs.Sink.{appended, AppendsFront};
ghost use Rattle.ltm_curve.specs.Table.{counts_of};
ghost use Rattle.ltm_loading.specs.Groups.{groups};
ghost use Rattle.ltm_units.specs.Texts.{texts_below};
ghost use Rattle.ltm_check.specs.Text.{record_text, header_text, group_text, curves_file};
ghost use Rattle.ltm_check.specs.Passing.{Passes};
ghost use Rattle.ltm_check.specs.Seen.{curves_of, IsSeen};
ghost use Rattle.ltm_setting.specs.Places.{IsDestination, IsShapedFor, all_groups};

use crate::text::{push_header, push_record};
use crate::window::Window;
use ltm_curve::Curves;
use ltm_io::{Sink, SinkError, write_all_known};
use ltm_scenario::Scenario;
use ltm_setting::{destination_count, group_count, slot_count};
use ltm_units::NoMemory;
use std::alloc::Global;

/// So many bytes wait before they are written.
const PIECE: usize = 65_536;

/// A space and a count.
const COUNT_BYTES: usize = 11;

/// What stands before and behind the counts of a record, and the room that is asked for at the last of them.
const OTHER_BYTES: usize = 128;

/// The bytes that can wait at once: fewer than a piece, and then the longest record.
fn most_waiting(scenario: &Scenario) -> usize {
    PIECE + OTHER_BYTES + COUNT_BYTES * (slot_count(scenario) as usize + 1)
}

/// The header, which waits, with room for all that can wait behind it.
fn opening(alloc: Global, scenario: &Scenario) -> Result<Vec<u8>, NoMemory>
    ensures { IfOk result (λ waiting. waiting.items ≡ header_text) }
{
    let mut waiting = Vec::with_capacity(alloc, most_waiting(scenario))?;
    push_header(&mut waiting)?;
    Ok(waiting)
}

/// Writes what waits.
fn write_out<W: Sink>(output: &mut W, waiting: &mut Vec<u8>) -> Result<(), SinkError>
    ensures ok { OnOk result
        (W.written output.new ≡ appended waiting.old.items (W.written output.old)) }
    ensures none { OnOk result (waiting.new.items ≡ []) }
    ensures err { OnErr result
        (AppendsFront (W.written output.old) (W.written output.new) waiting.old.items) }
    ensures later { W.faults output.old ≤ W.faults output.new }
    ensures cause { IsErrOf result SinkError.WriteFault
        → Rose (W.faults output.old) (W.faults output.new) }
{
    write_all_known(output, waiting.as_slice())?;
    waiting.clear();
    Ok(())
}

/// Writes what waits where it is a piece.
fn write_piece<W: Sink>(output: &mut W, waiting: &mut Vec<u8>) -> Result<(), SinkError>
    ensures ok { OnOk result (Passes waiting.old.items (W.written output.old)
        (W.written output.new) waiting.new.items) }
    ensures err { OnErr result
        (AppendsFront (W.written output.old) (W.written output.new) waiting.old.items) }
    ensures later { W.faults output.old ≤ W.faults output.new }
    ensures cause { IsErrOf result SinkError.WriteFault
        → Rose (W.faults output.old) (W.faults output.new) }
{
    if waiting.len() < PIECE {
        return Ok(());
    }
    write_out(output, waiting)
}

/// Lets the record of a group and a destination wait, and writes what waits where it is a piece.
fn put_record<W: Sink>(
    scenario: &Scenario,
    window: &Window,
    group: u32,
    destination: u32,
    output: &mut W,
    waiting: &mut Vec<u8>,
) -> Result<(), SinkError>
    requires shape { IsShapedFor scenario.now (curves_of window.now) }
    requires group { IsSeen window.now group }
    requires destination { IsDestination scenario.now destination }
    ensures ok { OnOk result (Passes (waiting.old.items
        ++ record_text scenario.now (counts_of (curves_of window.now)) group destination)
        (W.written output.old) (W.written output.new) waiting.new.items) }
    ensures err { OnErr result (AppendsFront (W.written output.old) (W.written output.new)
        (waiting.old.items
        ++ record_text scenario.now (counts_of (curves_of window.now)) group destination)) }
    ensures later { W.faults output.old ≤ W.faults output.new }
    ensures cause { IsErrOf result SinkError.WriteFault
        → Rose (W.faults output.old) (W.faults output.new) }
{
    match push_record(scenario, window, group, destination, waiting) {
        Ok(()) => return write_piece(output, waiting),
        Err(_) => return Err(SinkError::NoMemory),
    }
}

/// The same of the records of a group, one for each destination.
#[tactic(auto, unfolding(crate::specs::Text::group_text))]
fn put_records<W: Sink>(
    scenario: &Scenario,
    window: &Window,
    group: u32,
    output: &mut W,
    waiting: &mut Vec<u8>,
) -> Result<(), SinkError>
    requires shape { IsShapedFor scenario.now (curves_of window.now) }
    requires group { IsSeen window.now group }
    ensures ok { OnOk result (Passes (waiting.old.items
        ++ group_text scenario.now (counts_of (curves_of window.now)) group)
        (W.written output.old) (W.written output.new) waiting.new.items) }
    ensures err { OnErr result (AppendsFront (W.written output.old) (W.written output.new)
        (waiting.old.items
        ++ group_text scenario.now (counts_of (curves_of window.now)) group)) }
    ensures later { W.faults output.old ≤ W.faults output.new }
    ensures cause { IsErrOf result SinkError.WriteFault
        → Rose (W.faults output.old) (W.faults output.new) }
{
    for destination in 0..destination_count(scenario) {
        put_record(scenario, window, group, destination, output, waiting)?;
    }
    Ok(())
}

/// The same, with the window moved to the group.
fn put_group<W: Sink>(
    scenario: &Scenario,
    window: &mut Window,
    group: u32,
    output: &mut W,
    waiting: &mut Vec<u8>,
) -> Result<(), SinkError>
    requires shape { IsShapedFor scenario.now (curves_of window.old) }
    requires group { group < all_groups scenario.now }
    ensures same { curves_of window.new ≡ curves_of window.old }
    ensures ok { OnOk result (Passes (waiting.old.items
        ++ group_text scenario.now (counts_of (curves_of window.old)) group)
        (W.written output.old) (W.written output.new) waiting.new.items) }
    ensures err { OnErr result (AppendsFront (W.written output.old) (W.written output.new)
        (waiting.old.items
        ++ group_text scenario.now (counts_of (curves_of window.old)) group)) }
    ensures later { W.faults output.old ≤ W.faults output.new }
    ensures cause { IsErrOf result SinkError.WriteFault
        → Rose (W.faults output.old) (W.faults output.new) }
{
    window.move_to(group);
    put_records(scenario, window, group, output, waiting)
}

/// The same of all groups.
fn put_groups<W: Sink>(
    scenario: &Scenario,
    window: &mut Window,
    output: &mut W,
    waiting: &mut Vec<u8>,
) -> Result<(), SinkError>
    requires { IsShapedFor scenario.now (curves_of window.old) }
    ensures ok { OnOk result (Passes (waiting.old.items
        ++ texts_below (all_groups scenario.now)
        (group_text scenario.now (counts_of (curves_of window.old))))
        (W.written output.old) (W.written output.new) waiting.new.items) }
    ensures err { OnErr result (AppendsFront (W.written output.old) (W.written output.new)
        (waiting.old.items ++ texts_below (all_groups scenario.now)
        (group_text scenario.now (counts_of (curves_of window.old))))) }
    ensures later { W.faults output.old ≤ W.faults output.new }
    ensures cause { IsErrOf result SinkError.WriteFault
        → Rose (W.faults output.old) (W.faults output.new) }
{
    for group in 0..group_count(scenario) {
        put_group(scenario, window, group, output, waiting)?;
    }
    Ok(())
}

/// Writes curves of a scenario's shape as a curve file, as `read_curves` reads it, in pieces of some 64 KiB and a record.
///
/// The memory for a piece, and for the counts of a few groups, is taken before the first byte is written. With an error a
/// front of the file was written.
#[tactic(auto, unfolding(crate::specs::Text::curves_file))]
pub fn write_curves<W: Sink>(
    alloc: Global,
    scenario: &Scenario,
    curves: &Curves,
    output: &mut W,
) -> Result<(), SinkError>
    requires { IsShapedFor scenario.now curves.now }
    ensures ok { OnOk result (W.written output.new
        ≡ appended (curves_file scenario.now (counts_of curves.now)) (W.written output.old)) }
    ensures err { OnErr result (AppendsFront (W.written output.old) (W.written output.new)
        (curves_file scenario.now (counts_of curves.now))) }
    ensures later { W.faults output.old ≤ W.faults output.new }
    ensures cause { IsErrOf result SinkError.WriteFault
        → Rose (W.faults output.old) (W.faults output.new) }
{
    let Ok(mut waiting) = opening(alloc, scenario) else {
        return Err(SinkError::NoMemory);
    };
    let Ok(mut window) = Window::create(alloc, curves) else {
        return Err(SinkError::NoMemory);
    };
    put_groups(scenario, &mut window, output, &mut waiting)?;
    write_out(output, &mut waiting)
}
