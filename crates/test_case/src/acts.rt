//! One thing at a time that is done with a scenario.
use crate::cases::{demand, diagram, name, split, split_all};
use crate::changes::{Change, edit_of, edits_of};
use ltm_scenario::{Batch, Edit, EditCause, HorizonFault, Scenario, ScenarioFault};
use ltm_units::LinkId;
use std::alloc::Global;

/// What is done, or asked.
#[derive(Clone, Copy)]
pub enum Act {
    /// A batch of one edit.
    Edit(Change),
    /// A batch of edits.
    Batch(&'static [Change]),
    /// The horizon is raised to so many slots.
    Lengthen(u32),
    /// A vehicle over the first two slots, from the node of that number to the first destination.
    Demand(u32),
    /// A split row of the node of that number for the first destination, from a slot on, all over its only link.
    Split(u32, u32),
    /// One of each node of the corridor but the last.
    SplitAll,
    /// Whether the case is valid.
    Check,
    /// Whether the first broken rule is that a node lacks a split row for a destination.
    Lacks(&'static str, &'static str),
    Cells,
    /// Slots, links, units of demand and split rows.
    Books,
    /// The number of the only destination's node, and which destination that node is.
    Destination,
    /// The entry and the exit limit of the only link in a slot.
    Limits(u32),
    /// The wave time of the only link, whose diagram is the usual one.
    Wave,
}

/// What is answered.
#[derive(Clone, Copy, PartialEq, Eq)]
pub enum Told {
    Yes,
    /// The edit of this place was refused for this cause.
    Refused(u32, EditCause),
    NoHorizon(HorizonFault),
    Cells(u128),
    Books([u64; 4]),
    Pair(u64, u64),
    /// There is no memory, or no such thing.
    Nothing,
}

/// Gives a valid scenario a batch.
fn take(scenario: &mut Scenario, batch: &Batch) -> Told {
    if !batch.has_amounts() || scenario.check().is_err() {
        return Told::Nothing;
    }
    let after = batch.horizon(scenario.setup().slots);
    match scenario.accept(batch) {
        Ok(()) if scenario.setup().slots == after => Told::Yes,
        Ok(()) => Told::Nothing,
        Err(fault) => Told::Refused(fault.place, fault.cause),
    }
}

/// Gives it a copy of the batch.
fn take_copy(scenario: &mut Scenario, batch: &Batch) -> Told {
    match batch.try_copy() {
        Ok(copy) => take(scenario, &copy),
        Err(_) => Told::Nothing,
    }
}

fn accept(alloc: Global, scenario: &mut Scenario, edits: &[Edit]) -> Told {
    match Batch::of(alloc, edits) {
        Ok(batch) => take_copy(scenario, &batch),
        Err(_) => Told::Nothing,
    }
}

fn accept_one(alloc: Global, scenario: &mut Scenario, change: Change) -> Told {
    match edit_of(alloc, change) {
        Some(edit) => accept(alloc, scenario, &[edit]),
        None => Told::Nothing,
    }
}

fn accept_all(alloc: Global, scenario: &mut Scenario, changes: &[Change]) -> Told {
    match edits_of(alloc, changes) {
        Some(edits) => accept(alloc, scenario, &edits),
        None => Told::Nothing,
    }
}

fn lengthen(scenario: &mut Scenario, slots: u32) -> Told {
    match scenario.lengthen(slots) {
        Ok(()) => Told::Yes,
        Err(fault) => Told::NoHorizon(fault),
    }
}

/// Yes where something is made.
fn yes(made: Option<()>) -> Told {
    match made {
        Some(()) => Told::Yes,
        None => Told::Nothing,
    }
}

fn check(scenario: &Scenario) -> Told {
    match scenario.check() {
        Ok(()) => Told::Yes,
        Err(ScenarioFault::CellsOver(cells)) => Told::Cells(cells),
        Err(_) => Told::Nothing,
    }
}

fn lacks(scenario: &Scenario, node: &str, destination: &str) -> Option<()> {
    let node = name(node)?;
    let destination = name(destination)?;
    if scenario.check() == Err(ScenarioFault::NoSplit { node, destination }) {
        Some(())
    } else {
        None
    }
}

fn books(scenario: &Scenario) -> Told {
    Told::Books([
        u64::from(scenario.setup().slots),
        u64::from(scenario.network().links()),
        scenario.demand().total().0,
        scenario.splits().row_count() as u64,
    ])
}

fn destination(scenario: &Scenario) -> Told {
    match scenario.destinations() {
        [node] => match scenario.destination_at(*node) {
            Some(place) => Told::Pair(u64::from(node.0), u64::from(place)),
            None => Told::Nothing,
        },
        _ => Told::Nothing,
    }
}

fn limits(scenario: &Scenario, slot: u32) -> Told {
    if scenario.network().links() != 1 || slot >= scenario.setup().slots {
        return Told::Nothing;
    }
    let entry = scenario.entry_limit(LinkId(0), slot);
    let exit = scenario.exit_limit(LinkId(0), slot);
    Told::Pair(entry.0, exit.0)
}

fn wave(scenario: &Scenario) -> Told {
    if scenario.network().links() != 1 {
        return Told::Nothing;
    }
    if *scenario.diagram(LinkId(0)) != diagram() {
        return Told::Nothing;
    }
    Told::Pair(0, scenario.limits(LinkId(0)).wave_ms)
}

/// Does one thing.
pub fn done(alloc: Global, scenario: &mut Scenario, act: Act) -> Told {
    match act {
        Act::Edit(change) => accept_one(alloc, scenario, change),
        Act::Batch(changes) => accept_all(alloc, scenario, changes),
        Act::Lengthen(slots) => lengthen(scenario, slots),
        Act::Demand(origin) => yes(demand(scenario, origin, 0)),
        Act::Split(node, from) => yes(split(scenario, node, 0, from, &[1])),
        Act::SplitAll => yes(split_all(scenario)),
        Act::Check => check(scenario),
        Act::Lacks(node, destination) => yes(lacks(scenario, node, destination)),
        Act::Cells => Told::Cells(scenario.cells()),
        Act::Books => books(scenario),
        Act::Destination => destination(scenario),
        Act::Limits(slot) => limits(scenario, slot),
        Act::Wave => wave(scenario),
    }
}
