//! Edits, told by names and numbers.
use crate::cases::{diagram, name};
use ltm_diagram::Diagram;
use ltm_scenario::{Edit, SplitRows, Weights};
use ltm_units::{Four, Units};
use std::alloc::Global;

/// A first slot, a link, and its weight.
pub type Row = (u32, &'static str, u32);

/// An edit. Slots run from the first number up to, and without, the second.
#[derive(Clone, Copy)]
pub enum Change {
    /// A vehicle from an origin to a destination over some slots.
    Demand(&'static str, &'static str, u32, u32),
    /// The split row of a node and a destination from a slot on, with a weight on one link.
    Split(&'static str, &'static str, u32, &'static str, u32),
    /// All split rows of a node and a destination: first slots, each with a weight on one link from then on.
    Splits(&'static str, &'static str, &'static [Row]),
    /// The entry of a link is closed in some slots.
    Limit(&'static str, u32, u32),
    /// Its exit is.
    Exit(&'static str, u32, u32),
    /// The usual diagram with another wave speed.
    Wave(&'static str, u32),
    /// So many slots.
    Horizon(u32),
}

fn demand(origin: &str, destination: &str, from: u32, to: u32) -> Option<Edit> {
    Some(Edit::Demand {
        origin: name(origin)?,
        destination: name(destination)?,
        from,
        to,
        amount: Units(1000),
    })
}

fn split(node: &str, destination: &str, from: u32, link: &str, weight: u32) -> Option<Edit> {
    Some(Edit::Split {
        node: name(node)?,
        destination: name(destination)?,
        from,
        weights: Weights::of(Four::one((name(link)?, weight)))?,
    })
}

/// The rows by names; none where a name is none.
fn rows_of(alloc: Global, rows: &[Row]) -> Option<SplitRows> {
    let mut named = Vec::new(alloc);
    for (from, link, weight) in rows {
        let weights = Weights::of(Four::one((name(link)?, *weight)))?;
        named.push((*from, weights)).ok()?;
    }
    Some(SplitRows::of(named))
}

fn splits(alloc: Global, node: &str, destination: &str, rows: &[Row]) -> Option<Edit> {
    Some(Edit::Splits {
        node: name(node)?,
        destination: name(destination)?,
        rows: rows_of(alloc, rows)?,
    })
}

fn limit(link: &str, from: u32, to: u32) -> Option<Edit> {
    Some(Edit::Limit {
        link: name(link)?,
        from,
        to,
        amount: Units(0),
    })
}

fn exit(link: &str, from: u32, to: u32) -> Option<Edit> {
    Some(Edit::Exit {
        link: name(link)?,
        from,
        to,
        amount: Units(0),
    })
}

fn wave(link: &str, wave_kmh: u32) -> Option<Edit> {
    Some(Edit::Diagram {
        link: name(link)?,
        diagram: Diagram {
            wave_kmh,
            ..diagram()
        },
    })
}

/// The edit of a change.
pub fn edit_of(alloc: Global, change: Change) -> Option<Edit> {
    match change {
        Change::Demand(origin, destination, from, to) => demand(origin, destination, from, to),
        Change::Split(node, destination, from, link, weight) => split(
            node,
            destination,
            from,
            link,
            weight,
        ),
        Change::Splits(node, destination, rows) => splits(alloc, node, destination, rows),
        Change::Limit(link, from, to) => limit(link, from, to),
        Change::Exit(link, from, to) => exit(link, from, to),
        Change::Wave(link, wave_kmh) => wave(link, wave_kmh),
        Change::Horizon(slots) => Some(Edit::Horizon { slots }),
    }
}

/// The edits of changes, in order.
pub fn edits_of(alloc: Global, changes: &[Change]) -> Option<Vec<Edit>> {
    let mut edits = Vec::new(alloc);
    for change in changes {
        let edit = edit_of(alloc, *change)?;
        edits.push(edit).ok()?;
    }
    Some(edits)
}
