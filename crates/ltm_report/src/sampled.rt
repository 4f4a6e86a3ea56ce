//! The lines of what has passed links and origins by boundaries that lie so many slots apart.
ghost use Rattle.std.specs.Prelude.{◌≡◌, ◌++◌, ◌<◌, ◌≤◌, ℕ, OnOk, OnErr};
ghost use Rattle.ltm_curve.specs.Counts.{Counts};
ghost use Rattle.ltm_loading.specs.Setting.{Setting};
ghost use Rattle.ltm_loading.specs.Totals.{entered_link, left_link};
ghost use Rattle.ltm_flows.specs.Origins.{departed_from};
ghost use Rattle.ltm_flows.specs.Shown.{ShowsCounts, links_of, nodes_of};
ghost use Rattle.ltm_report.specs.Sampled as says;
ghost use Rattle.ltm_report.specs.Sampled.{passed_report, departed_report, departed_line};

use crate::links::push_name;
use crate::pieces::push_newline;
use crate::rows::push_row;
use ltm_flows::Loading;
use ltm_units::{LinkId, Name, NoMemory, NodeId, Units, push_text};
use std::alloc::Global;

/// How many boundaries are told of a loading: the multiples of so many slots, and the last.
pub(crate) fn told_boundaries(every: u32, slots: u32) -> u32
    requires { 1 ≤ every }
    ensures { result ≡ says.told_boundaries every slots }
{
    slots.saturating_sub(1) / every + 1
}

/// The boundary at a place among those that are told.
fn told_at(every: u32, slots: u32, place: u32) -> u32
    ensures value { result ≡ says.told_at every slots place }
    ensures within { result ≤ slots }
{
    let boundary = (u64::from(place) + 1) * u64::from(every);
    if boundary < u64::from(slots) {
        return boundary as u32;
    }
    slots
}

pub(crate) fn entered_at(loading: &Loading, every: u32, link: LinkId, place: u32) -> Units
    requires { link.0 < links_of loading.now }
    ensures { (s : Setting) (version : ℕ) (c : Counts) → ShowsCounts s version c loading.now
        → result.0 ≡ entered_link s c link.0 (says.told_at every s.slots place) }
{
    loading.entered_by(link, told_at(every, loading.slots(), place))
}

pub(crate) fn left_at(loading: &Loading, every: u32, link: LinkId, place: u32) -> Units
    requires { link.0 < links_of loading.now }
    ensures { (s : Setting) (version : ℕ) (c : Counts) → ShowsCounts s version c loading.now
        → result.0 ≡ left_link s c link.0 (says.told_at every s.slots place) }
{
    loading.left_by(link, told_at(every, loading.slots(), place))
}

pub(crate) fn departed_at(loading: &Loading, every: u32, node: NodeId, place: u32) -> Units
    requires { node.0 < nodes_of loading.now }
    ensures { (s : Setting) (version : ℕ) (c : Counts) → ShowsCounts s version c loading.now
        → result.0 ≡ departed_from s c node.0 (says.told_at every s.slots place) }
{
    loading.departed(node, told_at(every, loading.slots(), place))
}

fn push_passed(
    loading: &Loading,
    every: u32,
    name: &Name,
    link: LinkId,
    into: &mut Vec<u8>,
) -> Result<(), NoMemory>
    requires every { 1 ≤ every }
    requires link { link.0 < links_of loading.now }
    ensures { OnOk result ((s : Setting) (version : ℕ) (c : Counts)
        → ShowsCounts s version c loading.now
        → into.new.items ≡ into.old.items ++ passed_report every name.now link.0 s c) }
{
    let many = told_boundaries(every, loading.slots());
    push_name(into, name)?;
    push_row(
        into,
        b" entered",
        many,
        |place: u32| -> Units
            requires { link.0 < links_of loading.now }
            ensures { (s : Setting) (version : ℕ) (c : Counts) → ShowsCounts s version c loading.entry.now
                → result.0 ≡ entered_link s c link.0 (says.told_at every s.slots place) }
        { entered_at(loading, every, link, place) },
    )?;
    push_row(
        into,
        b" left",
        many,
        |place: u32| -> Units
            requires { link.0 < links_of loading.now }
            ensures { (s : Setting) (version : ℕ) (c : Counts) → ShowsCounts s version c loading.entry.now
                → result.0 ≡ left_link s c link.0 (says.told_at every s.slots place) }
        { left_at(loading, every, link, place) },
    )?;
    push_newline(into)
}

/// Appends what has entered a link of a loading and left it by each boundary that lies a multiple of so many slots from the start,
/// and by the last, in thousandths of a vehicle, as `link a entered 500 1000 left 0 400`.
pub(crate) fn passed_text(
    alloc: Global,
    loading: &Loading,
    every: u32,
    name: &Name,
    link: LinkId,
    into: &mut Vec<u8>,
) -> Result<(), NoMemory>
    requires every { 1 ≤ every }
    requires link { link.0 < links_of loading.now }
    ensures ok { OnOk result ((s : Setting) (version : ℕ) (c : Counts)
        → ShowsCounts s version c loading.now
        → into.new.items ≡ into.old.items ++ passed_report every name.now link.0 s c) }
    ensures err { OnErr result (into.new.items ≡ into.old.items) }
{
    let mut line = Vec::new(alloc);
    push_passed(loading, every, name, link, &mut line)?;
    push_text(into, line.as_slice())
}

fn push_departed(
    loading: &Loading,
    every: u32,
    name: &Name,
    node: NodeId,
    into: &mut Vec<u8>,
) -> Result<(), NoMemory>
    requires every { 1 ≤ every }
    requires node { node.0 < nodes_of loading.now }
    ensures { OnOk result ((s : Setting) (version : ℕ) (c : Counts)
        → ShowsCounts s version c loading.now
        → into.new.items ≡ into.old.items
        ++ departed_line name.now (says.told_boundaries every s.slots)
        (λ place. departed_from s c node.0 (says.told_at every s.slots place))) }
{
    let many = told_boundaries(every, loading.slots());
    push_text(into, b"origin ")?;
    push_text(into, name.bytes())?;
    push_row(
        into,
        b" departed",
        many,
        |place: u32| -> Units
            requires { node.0 < nodes_of loading.now }
            ensures { (s : Setting) (version : ℕ) (c : Counts) → ShowsCounts s version c loading.entry.now
                → result.0 ≡ departed_from s c node.0 (says.told_at every s.slots place) }
        { departed_at(loading, every, node, place) },
    )?;
    push_newline(into)
}

/// Appends what has left the origin of a node by the same boundaries, as `origin n1 departed 300 800`; nothing where the origin
/// produces nothing.
pub(crate) fn departed_text(
    alloc: Global,
    loading: &Loading,
    every: u32,
    name: &Name,
    node: NodeId,
    into: &mut Vec<u8>,
) -> Result<(), NoMemory>
    requires every { 1 ≤ every }
    requires node { node.0 < nodes_of loading.now }
    ensures ok { OnOk result ((s : Setting) (version : ℕ) (c : Counts)
        → ShowsCounts s version c loading.now
        → into.new.items ≡ into.old.items ++ departed_report every name.now node.0 s c) }
    ensures err { OnErr result (into.new.items ≡ into.old.items) }
{
    if loading.produced(node, loading.slots()).0 == 0 {
        return Ok(());
    }
    let mut line = Vec::new(alloc);
    push_departed(loading, every, name, node, &mut line)?;
    push_text(into, line.as_slice())
}
