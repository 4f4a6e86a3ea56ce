//! The line of a travel time.
ghost use Rattle.std.specs.Prelude.{◌≡◌, ◌++◌, OnOk, OnErr, option_map};
ghost use Rattle.ltm_report.specs.Times.{time_words, slot_piece, time_line};

use crate::links::push_name;
use crate::pieces::{push_newline, push_version};
use ltm_units::{Millis, Name, NoMemory, push_number, push_text};
use std::alloc::Global;

#[tactic(auto, unfolding(crate::specs::Times::time_words))]
fn push_time(into: &mut Vec<u8>, time: Option<Millis>) -> Result<(), NoMemory>
    ensures { OnOk result (into.new.items
        ≡ into.old.items ++ time_words (option_map (λ t. t.0) time)) }
{
    match time {
        None => push_text(into, b" time none"),
        Some(time) => push_number(into, b" time ", u128::from(time.0)),
    }
}

#[tactic(auto, unfolding(crate::specs::Times::slot_piece))]
pub(crate) fn push_slot(into: &mut Vec<u8>, slot: u32) -> Result<(), NoMemory>
    ensures { OnOk result (into.new.items ≡ into.old.items ++ slot_piece slot) }
{
    push_number(into, b" slot ", u128::from(slot))
}

/// Appends how many milliseconds a vehicle takes to pass a link that it enters at the beginning of a slot, as
/// `version 1 link a slot 3 time 2000`; `none` stands where the time is none.
#[tactic(auto, unfolding(crate::specs::Times::time_line))]
pub fn time_text(
    alloc: Global,
    version: u64,
    name: &Name,
    slot: u32,
    time: Option<Millis>,
    into: &mut Vec<u8>,
) -> Result<(), NoMemory>
    ensures ok { OnOk result (into.new.items
        ≡ into.old.items ++ time_line version name.now slot (option_map (λ t. t.0) time)) }
    ensures err { OnErr result (into.new.items ≡ into.old.items) }
{
    let mut line = Vec::new(alloc);
    push_version(&mut line, version)?;
    push_text(&mut line, b" ")?;
    push_name(&mut line, name)?;
    push_slot(&mut line, slot)?;
    push_time(&mut line, time)?;
    push_newline(&mut line)?;
    push_text(into, line.as_slice())
}
