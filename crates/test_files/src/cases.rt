//! What comes of a folder: what its case says, or what is wrong with it.
use crate::folders::{Base, Put, fill, folder_of};
use ltm_casefile::{CaseFault, read_case};
use ltm_io::{Doc, MemFolder};
use ltm_scenario::{Scenario, Side};
use ltm_units::{LinkId, NoMemory, NodeId};
use std::alloc::Global;
use std::process::Abort;

/// What a case says.
#[derive(Clone, Copy, PartialEq, Eq)]
pub struct Read {
    pub slots: u32,
    pub links: u32,
    pub nodes: u32,
    /// How many nodes are destinations.
    pub destinations: usize,
    /// The first of them and the last.
    pub ends: [Option<u32>; 2],
    pub demand_rows: usize,
    /// In thousandths.
    pub vehicles: u64,
    pub split_rows: usize,
    /// The first three weights of the first node for the last destination, in slot 0.
    pub weights: [Option<u32>; 3],
    /// The weight for the first destination from slot 9,999 on, of the fourth node's only link.
    pub last_weight: Option<u32>,
    /// The exit limit of the first link in the first five slots, in thousandths.
    pub exits: [Option<u64>; 5],
    /// Its entry limit likewise.
    pub entries: [Option<u64>; 5],
}

fn ends(nodes: &[NodeId]) -> [Option<u32>; 2] {
    match nodes {
        [] => [None, None],
        [only] => [Some(only.0), Some(only.0)],
        [first, .., last] => [Some(first.0), Some(last.0)],
    }
}

fn weights(scenario: &Scenario) -> [Option<u32>; 3] {
    let _setup = scenario.setup();
    let last = (scenario.destinations().len() as u32).saturating_sub(1);
    match scenario.splits().row(NodeId(0), last, 0) {
        Some(row) => [
            row.first().copied(),
            row.get(1).copied(),
            row.get(2).copied(),
        ],
        None => [None; 3],
    }
}

fn last_weight(scenario: &Scenario) -> Option<u32> {
    let weights = scenario.splits().row(NodeId(3), 0, 9_999)?;
    weights.first().copied()
}

/// A limit of the first link, in a slot of the horizon.
fn limit(scenario: &Scenario, side: Side, slot: u32) -> Option<u64> {
    if scenario.network().links() == 0 || slot >= scenario.setup().slots {
        return None;
    }
    match side {
        Side::Entry => Some(scenario.entry_limit(LinkId(0), slot).0),
        Side::Exit => Some(scenario.exit_limit(LinkId(0), slot).0),
    }
}

fn limits(scenario: &Scenario, side: Side) -> [Option<u64>; 5] {
    let mut limits = [None; 5];
    for slot in 0..5u32 {
        limits[slot as usize] = limit(scenario, side, slot);
    }
    limits
}

fn look(scenario: &Scenario) -> Read {
    Read {
        slots: scenario.setup().slots,
        links: scenario.network().links(),
        nodes: scenario.network().nodes(),
        destinations: scenario.destinations().len(),
        ends: ends(scenario.destinations()),
        demand_rows: scenario.demand().row_count(),
        vehicles: scenario.demand().total().0,
        split_rows: scenario.splits().row_count(),
        weights: weights(scenario),
        last_weight: last_weight(scenario),
        exits: limits(scenario, Side::Exit),
        entries: limits(scenario, Side::Entry),
    }
}

fn read_folder(alloc: Global, folder: &mut MemFolder) -> Result<Read, CaseFault> {
    match read_case(alloc, folder) {
        Ok(scenario) => Ok(look(&scenario)),
        Err(fault) => Err(fault),
    }
}

fn read_filled(alloc: Global, folder: &mut MemFolder, put: Put) -> Result<Read, CaseFault> {
    match fill(alloc, folder, put) {
        Ok(()) => read_folder(alloc, folder),
        Err(_) => Err(CaseFault::NoMemory),
    }
}

/// What comes of a folder.
fn read_of(alloc: Global, base: Base, put: Put) -> Result<Read, CaseFault> {
    match folder_of(alloc, base) {
        Ok(mut folder) => read_filled(alloc, &mut folder, put),
        Err(_) => Err(CaseFault::NoMemory),
    }
}

fn shown(alloc: Global, fault: CaseFault) -> Result<String, NoMemory> {
    let text = match fault {
        CaseFault::Folder(file) => format!(in alloc; "no {file:?}")?,
        CaseFault::TooLong(file) => format!(in alloc; "too long {file:?}")?,
        CaseFault::Bad { file, row, cause } => format!(in alloc; "{file:?} {row} {cause:?}")?,
        CaseFault::NoHistory => format!(in alloc; "no history")?,
        CaseFault::NoMemory => format!(in alloc; "no memory")?,
    };
    Ok(text)
}

fn is_shown(alloc: Global, fault: CaseFault, text: &str) -> bool {
    match shown(alloc, fault) {
        Ok(found) => found.as_str() == text,
        Err(_) => false,
    }
}

/// Whether this is wrong with the case, told as text.
fn is_told(alloc: Global, base: Base, put: Put, text: &str) -> bool {
    match read_of(alloc, base, put) {
        Ok(_) => text == "good",
        Err(fault) => is_shown(alloc, fault, text),
    }
}

/// The place of the first row with another fault.
fn first_otherwise(alloc: Global, table: &[(Base, Put, &'static str)]) -> Option<usize> {
    for (place, (base, put, text)) in table.iter().enumerate() {
        if !is_told(alloc, *base, *put, text) {
            return Some(place);
        }
    }
    None
}

/// The place of the first row with another fault, where one file of the one road has these records.
fn first_row_otherwise(
    alloc: Global,
    doc: Doc,
    table: &[(&'static str, &'static str)],
) -> Option<usize> {
    for (place, (rows, text)) in table.iter().enumerate() {
        if !is_told(alloc, Base::OneRoad, Put::Rows(doc, rows), text) {
            return Some(place);
        }
    }
    None
}

/// Each folder has this fault, or is good.
pub fn expect(rt: &impl Abort, alloc: Global, table: &[(Base, Put, &'static str)]) {
    let place = first_otherwise(alloc, table);
    assert_eq!(rt; place, None);
}

/// The one road has this fault, or is good, where a file has these records.
pub fn expect_rows(
    rt: &impl Abort,
    alloc: Global,
    doc: Doc,
    table: &[(&'static str, &'static str)],
) {
    let place = first_row_otherwise(alloc, doc, table);
    assert_eq!(rt; place, None);
}

/// The case of a folder says this.
pub fn expect_read(rt: &impl Abort, alloc: Global, base: Base, put: Put, want: &Read) {
    let is_said = match read_of(alloc, base, put) {
        Ok(read) => read == *want,
        Err(_) => false,
    };
    assert!(rt; is_said);
}
