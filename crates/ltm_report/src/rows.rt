//! The lines that tell of all links and nodes at a boundary, and of a link or an origin at all boundaries.
ghost use Rattle.std.specs.Prelude.{◌≡◌, ◌++◌, ◌<◌, ◌≤◌, ℕ, codes, OnOk, OnErr};
ghost use Rattle.ltm_curve.specs.Counts.{Counts};
ghost use Rattle.ltm_loading.specs.Setting.{Setting};
ghost use Rattle.ltm_loading.specs.Totals.{entered_link, left_link};
ghost use Rattle.ltm_flows.specs.Shown.{ShowsCounts, last_of, links_of, nodes_of};
ghost use Rattle.ltm_times.specs.Queues.{queue, waiting_at};
ghost use Rattle.ltm_report.specs.Rows.{count_piece, counts, row};
ghost use Rattle.ltm_report.specs.RowReports.{state_report, curve_report, departures_report};

use crate::links::push_name;
use crate::origins::push_node;
use crate::pieces::{push_newline, push_version};
use crate::times::push_slot;
use ltm_flows::Loading;
use ltm_times::{queue, waiting};
use ltm_units::{LinkId, Name, NoMemory, NodeId, Units, push_number, push_text};
use std::alloc::Global;

#[tactic(auto, unfolding(crate::specs::Rows::count_piece))]
fn push_count(into: &mut Vec<u8>, count: Units) -> Result<(), NoMemory>
    ensures { OnOk result (into.new.items ≡ into.old.items ++ count_piece count.0) }
{
    push_number(into, b" ", u128::from(count.0))
}

/// Appends an amount for each place below a number.
pub(crate) fn push_counts<F: Fn(u32) -> Units>(
    into: &mut Vec<u8>,
    many: u32,
    count: F,
) -> Result<(), NoMemory>
    requires { (k : ℕ) → k < many → F.pre count k }
    ensures { OnOk result ((f : ℕ → ℕ)
        → ((k : ℕ) (n : Units) → k < many → F.post count k n → n.0 ≡ f k)
        → into.new.items ≡ into.old.items ++ counts many f) }
{
    for k in 0..many {
        push_count(into, count(k))?;
    }
    Ok(())
}

/// Appends words, and an amount for each place below a number.
pub(crate) fn push_row<F: Fn(u32) -> Units>(
    into: &mut Vec<u8>,
    words: &[u8],
    many: u32,
    count: F,
) -> Result<(), NoMemory>
    requires { (k : ℕ) → k < many → F.pre count k }
    ensures { OnOk result ((f : ℕ → ℕ)
        → ((k : ℕ) (n : Units) → k < many → F.post count k n → n.0 ≡ f k)
        → into.new.items ≡ into.old.items ++ row words.now many f) }
{
    push_text(into, words)?;
    push_counts(into, many, count)
}

/// Appends what has entered and left each link by a boundary.
fn push_passed(loading: &Loading, boundary: u32, into: &mut Vec<u8>) -> Result<(), NoMemory>
    requires { boundary ≤ last_of loading.now }
    ensures { OnOk result ((s : Setting) (version : ℕ) (c : Counts)
        → ShowsCounts s version c loading.now
        → into.new.items ≡ into.old.items
        ++ row (codes " in") (links_of loading.now) (λ link. entered_link s c link boundary)
        ++ row (codes " out") (links_of loading.now) (λ link. left_link s c link boundary)) }
{
    let links = loading.links();
    push_row(into, b" in", links, |link| {
        loading.entered_by(LinkId(link), boundary)
    })?;
    push_row(into, b" out", links, |link| {
        loading.left_by(LinkId(link), boundary)
    })
}

/// Appends the queue of each link at a boundary, and who waits at each node.
fn push_standing(loading: &Loading, boundary: u32, into: &mut Vec<u8>) -> Result<(), NoMemory>
    requires { boundary ≤ last_of loading.now }
    ensures { OnOk result ((s : Setting) (version : ℕ) (c : Counts)
        → ShowsCounts s version c loading.now
        → into.new.items ≡ into.old.items
        ++ row (codes " queue") (links_of loading.now) (λ link. queue s c link boundary)
        ++ row (codes " waiting") (nodes_of loading.now) (λ node. waiting_at s c node boundary)) }
{
    push_row(
        into,
        b" queue",
        loading.links(),
        |link: u32| -> Units
            requires { (link < links_of loading.now) × (boundary ≤ last_of loading.now) }
            ensures { (s : Setting) (version : ℕ) (c : Counts)
                → ShowsCounts s version c loading.entry.now → result.0 ≡ queue s c link boundary }
        { queue(loading, LinkId(link), boundary) },
    )?;
    push_row(
        into,
        b" waiting",
        loading.nodes(),
        |node: u32| -> Units
            requires { (node < nodes_of loading.now) × (boundary ≤ last_of loading.now) }
            ensures { (s : Setting) (version : ℕ) (c : Counts)
                → ShowsCounts s version c loading.entry.now → result.0 ≡ waiting_at s c node boundary }
        { waiting(loading, NodeId(node), boundary) },
    )
}

fn push_state(loading: &Loading, boundary: u32, into: &mut Vec<u8>) -> Result<(), NoMemory>
    requires { boundary ≤ last_of loading.now }
    ensures { OnOk result ((s : Setting) (version : ℕ) (c : Counts)
        → ShowsCounts s version c loading.now
        → into.new.items ≡ into.old.items ++ state_report version boundary s c) }
{
    push_version(into, loading.version())?;
    push_slot(into, boundary)?;
    push_passed(loading, boundary, into)?;
    push_standing(loading, boundary, into)?;
    push_newline(into)
}

/// Appends what has entered each link and left it by a boundary, the queue of each, and who waits at each node, in
/// thousandths of a vehicle, as `version 0 slot 4 in 2000 400 out 400 0 queue 600 0 waiting 800 0 0`.
pub fn state_text(
    alloc: Global,
    loading: &Loading,
    boundary: u32,
    into: &mut Vec<u8>,
) -> Result<(), NoMemory>
    requires { boundary ≤ last_of loading.now }
    ensures ok { OnOk result ((s : Setting) (version : ℕ) (c : Counts)
        → ShowsCounts s version c loading.now
        → into.new.items ≡ into.old.items ++ state_report version boundary s c) }
    ensures err { OnErr result (into.new.items ≡ into.old.items) }
{
    let mut line = Vec::new(alloc);
    push_state(loading, boundary, &mut line)?;
    push_text(into, line.as_slice())
}

fn push_curve(
    loading: &Loading,
    name: &Name,
    link: LinkId,
    into: &mut Vec<u8>,
) -> Result<(), NoMemory>
    requires { link.0 < links_of loading.now }
    ensures { OnOk result ((s : Setting) (version : ℕ) (c : Counts)
        → ShowsCounts s version c loading.now
        → into.new.items ≡ into.old.items ++ curve_report version name.now link.0 s c) }
{
    let boundaries = loading.slots() + 1;
    push_version(into, loading.version())?;
    push_text(into, b" ")?;
    push_name(into, name)?;
    push_row(into, b" in", boundaries, |boundary| {
        loading.entered_by(link, boundary)
    })?;
    push_row(into, b" out", boundaries, |boundary| {
        loading.left_by(link, boundary)
    })?;
    push_newline(into)
}

/// Appends what has entered a link and left it by each boundary, in thousandths of a vehicle, as
/// `version 0 link a in 0 500 1000 out 0 0 0`.
pub fn curve_text(
    alloc: Global,
    loading: &Loading,
    name: &Name,
    link: LinkId,
    into: &mut Vec<u8>,
) -> Result<(), NoMemory>
    requires { link.0 < links_of loading.now }
    ensures ok { OnOk result ((s : Setting) (version : ℕ) (c : Counts)
        → ShowsCounts s version c loading.now
        → into.new.items ≡ into.old.items ++ curve_report version name.now link.0 s c) }
    ensures err { OnErr result (into.new.items ≡ into.old.items) }
{
    let mut line = Vec::new(alloc);
    push_curve(loading, name, link, &mut line)?;
    push_text(into, line.as_slice())
}

fn push_departures(
    loading: &Loading,
    name: &Name,
    node: NodeId,
    into: &mut Vec<u8>,
) -> Result<(), NoMemory>
    requires { node.0 < nodes_of loading.now }
    ensures { OnOk result ((s : Setting) (version : ℕ) (c : Counts)
        → ShowsCounts s version c loading.now
        → into.new.items ≡ into.old.items ++ departures_report version name.now node.0 s c) }
{
    let boundaries = loading.slots() + 1;
    push_version(into, loading.version())?;
    push_text(into, b" ")?;
    push_node(into, name)?;
    push_row(into, b" produced", boundaries, |boundary| {
        loading.produced(node, boundary)
    })?;
    push_row(into, b" left", boundaries, |boundary| {
        loading.departed(node, boundary)
    })?;
    push_newline(into)
}

/// Appends what the origin of a node has produced and what has left it by each boundary, in thousandths of a vehicle, as
/// `version 0 node n1 produced 0 700 1400 left 0 500 1000`.
pub fn departures_text(
    alloc: Global,
    loading: &Loading,
    name: &Name,
    node: NodeId,
    into: &mut Vec<u8>,
) -> Result<(), NoMemory>
    requires { node.0 < nodes_of loading.now }
    ensures ok { OnOk result ((s : Setting) (version : ℕ) (c : Counts)
        → ShowsCounts s version c loading.now
        → into.new.items ≡ into.old.items ++ departures_report version name.now node.0 s c) }
    ensures err { OnErr result (into.new.items ≡ into.old.items) }
{
    let mut line = Vec::new(alloc);
    push_departures(loading, name, node, &mut line)?;
    push_text(into, line.as_slice())
}
