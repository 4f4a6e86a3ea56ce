//! The line of what has passed all links and origins by boundaries that lie so many slots apart.
ghost use Rattle.std.specs.Prelude.{◌≡◌, ◌++◌, ◌<◌, ◌≤◌, ℕ, codes, OnOk, OnErr};
ghost use Rattle.ltm_curve.specs.Counts.{Counts};
ghost use Rattle.ltm_loading.specs.Setting.{Setting};
ghost use Rattle.ltm_loading.specs.Totals.{entered_link, left_link};
ghost use Rattle.ltm_flows.specs.Origins.{departed_from};
ghost use Rattle.ltm_flows.specs.Shown.{ShowsCounts, links_of, nodes_of};
ghost use Rattle.ltm_report.specs.Rows.{counts};
ghost use Rattle.ltm_report.specs.Sampled as says;
ghost use Rattle.ltm_report.specs.Samples.{every_piece, rows, samples_report};

use crate::pieces::{push_newline, push_version};
use crate::rows::push_counts;
use crate::sampled::{departed_at, entered_at, left_at, told_boundaries};
use ltm_flows::Loading;
use ltm_units::{LinkId, NoMemory, NodeId, Units, push_number, push_text};
use std::alloc::Global;

#[tactic(auto, unfolding(crate::specs::Samples::every_piece))]
fn push_every(into: &mut Vec<u8>, every: u32) -> Result<(), NoMemory>
    ensures { OnOk result (into.new.items ≡ into.old.items ++ every_piece every) }
{
    push_number(into, b" every ", u128::from(every))
}

/// Appends what has entered a link by each of so many boundaries.
fn push_entered_of(
    loading: &Loading,
    every: u32,
    many: u32,
    link: LinkId,
    into: &mut Vec<u8>,
) -> Result<(), NoMemory>
    requires { link.0 < links_of loading.now }
    ensures { OnOk result ((s : Setting) (version : ℕ) (c : Counts)
        → ShowsCounts s version c loading.now
        → into.new.items ≡ into.old.items
        ++ counts many (λ place. entered_link s c link.0 (says.told_at every s.slots place))) }
{
    push_counts(
        into,
        many,
        |place: u32| -> Units
            requires { link.0 < links_of loading.now }
            ensures { (s : Setting) (version : ℕ) (c : Counts) → ShowsCounts s version c loading.entry.now
                → result.0 ≡ entered_link s c link.0 (says.told_at every s.slots place) }
        { entered_at(loading, every, link, place) },
    )
}

fn push_entered(
    loading: &Loading,
    every: u32,
    many: u32,
    into: &mut Vec<u8>,
) -> Result<(), NoMemory>
    ensures { OnOk result ((s : Setting) (version : ℕ) (c : Counts)
        → ShowsCounts s version c loading.now
        → into.new.items ≡ into.old.items
        ++ rows (codes " in") (links_of loading.now) many
        (λ link place. entered_link s c link (says.told_at every s.slots place))) }
{
    push_text(into, b" in")?;
    for link in 0..loading.links() {
        push_entered_of(loading, every, many, LinkId(link), into)?;
    }
    Ok(())
}

/// Appends what has left a link by each of so many boundaries.
fn push_left_of(
    loading: &Loading,
    every: u32,
    many: u32,
    link: LinkId,
    into: &mut Vec<u8>,
) -> Result<(), NoMemory>
    requires { link.0 < links_of loading.now }
    ensures { OnOk result ((s : Setting) (version : ℕ) (c : Counts)
        → ShowsCounts s version c loading.now
        → into.new.items ≡ into.old.items
        ++ counts many (λ place. left_link s c link.0 (says.told_at every s.slots place))) }
{
    push_counts(
        into,
        many,
        |place: u32| -> Units
            requires { link.0 < links_of loading.now }
            ensures { (s : Setting) (version : ℕ) (c : Counts) → ShowsCounts s version c loading.entry.now
                → result.0 ≡ left_link s c link.0 (says.told_at every s.slots place) }
        { left_at(loading, every, link, place) },
    )
}

fn push_left(loading: &Loading, every: u32, many: u32, into: &mut Vec<u8>) -> Result<(), NoMemory>
    ensures { OnOk result ((s : Setting) (version : ℕ) (c : Counts)
        → ShowsCounts s version c loading.now
        → into.new.items ≡ into.old.items
        ++ rows (codes " out") (links_of loading.now) many
        (λ link place. left_link s c link (says.told_at every s.slots place))) }
{
    push_text(into, b" out")?;
    for link in 0..loading.links() {
        push_left_of(loading, every, many, LinkId(link), into)?;
    }
    Ok(())
}

/// Appends what has left the origin of a node by each of so many boundaries.
fn push_departed_of(
    loading: &Loading,
    every: u32,
    many: u32,
    node: NodeId,
    into: &mut Vec<u8>,
) -> Result<(), NoMemory>
    requires { node.0 < nodes_of loading.now }
    ensures { OnOk result ((s : Setting) (version : ℕ) (c : Counts)
        → ShowsCounts s version c loading.now
        → into.new.items ≡ into.old.items
        ++ counts many (λ place. departed_from s c node.0 (says.told_at every s.slots place))) }
{
    push_counts(
        into,
        many,
        |place: u32| -> Units
            requires { node.0 < nodes_of loading.now }
            ensures { (s : Setting) (version : ℕ) (c : Counts) → ShowsCounts s version c loading.entry.now
                → result.0 ≡ departed_from s c node.0 (says.told_at every s.slots place) }
        { departed_at(loading, every, node, place) },
    )
}

fn push_departed(
    loading: &Loading,
    every: u32,
    many: u32,
    into: &mut Vec<u8>,
) -> Result<(), NoMemory>
    ensures { OnOk result ((s : Setting) (version : ℕ) (c : Counts)
        → ShowsCounts s version c loading.now
        → into.new.items ≡ into.old.items
        ++ rows (codes " departed") (nodes_of loading.now) many
        (λ node place. departed_from s c node (says.told_at every s.slots place))) }
{
    push_text(into, b" departed")?;
    for node in 0..loading.nodes() {
        push_departed_of(loading, every, many, NodeId(node), into)?;
    }
    Ok(())
}

fn push_samples(loading: &Loading, every: u32, into: &mut Vec<u8>) -> Result<(), NoMemory>
    requires { 1 ≤ every }
    ensures { OnOk result ((s : Setting) (version : ℕ) (c : Counts)
        → ShowsCounts s version c loading.now
        → into.new.items ≡ into.old.items ++ samples_report every version s c) }
{
    let many = told_boundaries(every, loading.slots());
    push_version(into, loading.version())?;
    push_every(into, every)?;
    push_entered(loading, every, many, into)?;
    push_left(loading, every, many, into)?;
    push_departed(loading, every, many, into)?;
    push_newline(into)
}

/// Appends what has entered each link and left it, and what has left the origin of each node, by each boundary that lies a
/// multiple of so many slots from the start, and by the last, in thousandths of a vehicle, as
/// `version 0 every 2 in 500 1000 0 400 out 0 400 0 0 departed 500 1000 0 0 0 0`.
pub fn samples_text(
    alloc: Global,
    loading: &Loading,
    every: u32,
    into: &mut Vec<u8>,
) -> Result<(), NoMemory>
    requires { 1 ≤ every }
    ensures ok { OnOk result ((s : Setting) (version : ℕ) (c : Counts)
        → ShowsCounts s version c loading.now
        → into.new.items ≡ into.old.items ++ samples_report every version s c) }
    ensures err { OnErr result (into.new.items ≡ into.old.items) }
{
    let mut line = Vec::new(alloc);
    push_samples(loading, every, &mut line)?;
    push_text(into, line.as_slice())
}
