//! The lines of a curve file.
ghost use Rattle.std.specs.Prelude.{◌≡◌, ◌++◌, ◌<◌, ◌+◌, OnOk};
ghost use Rattle.std.specs.Fmt.{decimal};
ghost use Rattle.ltm_curve.specs.Table.{counts_of, destinations_of, slots_of};
ghost use Rattle.ltm_units.specs.Texts.{texts_below};
ghost use Rattle.ltm_check.specs.Seen.{curves_of, IsSeen};
ghost use Rattle.ltm_check.specs.Text.{further_count, counts_text, due_text, record_text, header_text};
ghost use Rattle.ltm_setting.specs.Places.{IsDestination, IsShapedFor, all_groups};

use crate::due::{kind_of, name_of, name_of_destination};
use crate::window::Window;
use ltm_scenario::Scenario;
use ltm_units::{NoMemory, push_number, push_text};

#[tactic(auto, unfolding(ltm_units::specs::Texts::number_piece))]
fn push_count(into: &mut Vec<u8>, count: u64) -> Result<(), NoMemory>
    ensures { OnOk result (into.new.items ≡ into.old.items ++ decimal count) }
{
    push_number(into, b"", u128::from(count))
}

#[tactic(auto, unfolding(crate::specs::Text::further_count, ltm_units::specs::Texts::number_piece))]
fn push_further(into: &mut Vec<u8>, count: u64) -> Result<(), NoMemory>
    ensures { OnOk result (into.new.items ≡ into.old.items ++ further_count count) }
{
    push_number(into, b" ", u128::from(count))
}

/// Appends the counts of a group and a destination at the boundaries behind the first.
fn push_further_counts(
    window: &Window,
    group: u32,
    destination: u32,
    into: &mut Vec<u8>,
) -> Result<(), NoMemory>
    requires group { IsSeen window.now group }
    requires destination { destination < destinations_of (curves_of window.now) }
    ensures { OnOk result (into.new.items ≡ into.old.items
        ++ texts_below (slots_of (curves_of window.now))
        (λ k. further_count (counts_of (curves_of window.now) group destination (k + 1)))) }
{
    for slot in 0..window.slots() {
        push_further(into, window.get(group, destination, slot + 1))?;
    }
    Ok(())
}

#[tactic(auto, unfolding(crate::specs::Text::counts_text))]
fn push_counts(
    window: &Window,
    group: u32,
    destination: u32,
    into: &mut Vec<u8>,
) -> Result<(), NoMemory>
    requires group { IsSeen window.now group }
    requires destination { destination < destinations_of (curves_of window.now) }
    ensures { OnOk result (into.new.items
        ≡ into.old.items ++ counts_text (slots_of (curves_of window.now))
        (counts_of (curves_of window.now) group destination)) }
{
    push_count(into, window.get(group, destination, 0))?;
    push_further_counts(window, group, destination, into)
}

#[tactic(auto, unfolding(crate::specs::Text::due_text))]
fn push_due(
    scenario: &Scenario,
    group: u32,
    destination: u32,
    into: &mut Vec<u8>,
) -> Result<(), NoMemory>
    requires group { group < all_groups scenario.now }
    requires destination { IsDestination scenario.now destination }
    ensures { OnOk result (into.new.items
        ≡ into.old.items ++ due_text scenario.now group destination) }
{
    push_text(into, kind_of(scenario, group))?;
    push_text(into, b",")?;
    push_text(into, name_of(scenario, group, destination).bytes())?;
    push_text(into, b",")?;
    push_text(into, name_of_destination(scenario, destination).bytes())?;
    push_text(into, b",")
}

/// Appends the record of a group and a destination.
#[tactic(auto, unfolding(crate::specs::Text::record_text))]
pub(crate) fn push_record(
    scenario: &Scenario,
    window: &Window,
    group: u32,
    destination: u32,
    into: &mut Vec<u8>,
) -> Result<(), NoMemory>
    requires shape { IsShapedFor scenario.now (curves_of window.now) }
    requires group { IsSeen window.now group }
    requires destination { IsDestination scenario.now destination }
    ensures { OnOk result (into.new.items ≡ into.old.items
        ++ record_text scenario.now (counts_of (curves_of window.now)) group destination) }
{
    push_due(scenario, group, destination, into)?;
    push_counts(window, group, destination, into)?;
    push_text(into, b"\n")
}

/// Appends the header.
#[tactic(auto, unfolding(crate::specs::Text::header_text))]
pub(crate) fn push_header(into: &mut Vec<u8>) -> Result<(), NoMemory>
    ensures { OnOk result (into.new.items ≡ into.old.items ++ header_text) }
{
    push_text(into, b"kind,name,destination,counts\n")
}
