//! The lines of one link: what entered and what left it up to the end of the horizon.
ghost use Rattle.std.specs.Prelude.{◌≡◌, ◌++◌, ◌<◌, ℕ, OnOk, OnErr};
ghost use Rattle.ltm_curve.specs.Counts.{Counts};
ghost use Rattle.ltm_loading.specs.Setting.{Setting};
ghost use Rattle.ltm_flows.specs.Shown.{ShowsCounts, links_of, version_of};
ghost use Rattle.ltm_flows.specs.Counted.{entered_of, left_of};
ghost use Rattle.ltm_report.specs.Links.{name_piece, through_piece, load_link_line, link_line};
ghost use Rattle.ltm_report.specs.Reports.{load_link_report, link_report};

use crate::pieces::{push_newline, push_version};
use ltm_flows::Loading;
use ltm_units::{LinkId, Name, NoMemory, Units, push_text, push_vehicles};
use std::alloc::Global;

#[tactic(auto, unfolding(crate::specs::Links::name_piece))]
pub(crate) fn push_name(into: &mut Vec<u8>, name: &Name) -> Result<(), NoMemory>
    ensures { OnOk result (into.new.items ≡ into.old.items ++ name_piece name.now) }
{
    push_text(into, b"link ")?;
    push_text(into, name.bytes())
}

#[tactic(auto, unfolding(crate::specs::Links::through_piece))]
pub(crate) fn push_through(into: &mut Vec<u8>, entered: Units, gone: Units) -> Result<(), NoMemory>
    ensures { OnOk result (into.new.items ≡ into.old.items ++ through_piece entered.0 gone.0) }
{
    push_vehicles(into, b" in ", entered)?;
    push_vehicles(into, b" out ", gone)
}

#[tactic(auto, unfolding(crate::specs::Links::load_link_line))]
fn push_link(into: &mut Vec<u8>, name: &Name, entered: Units, gone: Units) -> Result<(), NoMemory>
    ensures { OnOk result (into.new.items
        ≡ into.old.items ++ load_link_line name.now entered.0 gone.0) }
{
    push_name(into, name)?;
    push_through(into, entered, gone)?;
    push_newline(into)
}

pub(crate) fn load_link_line_text(
    alloc: Global,
    name: &Name,
    entered: Units,
    gone: Units,
    into: &mut Vec<u8>,
) -> Result<(), NoMemory>
    ensures ok { OnOk result (into.new.items
        ≡ into.old.items ++ load_link_line name.now entered.0 gone.0) }
    ensures err { OnErr result (into.new.items ≡ into.old.items) }
{
    let mut line = Vec::new(alloc);
    push_link(&mut line, name, entered, gone)?;
    push_text(into, line.as_slice())
}

/// Appends what has entered and left a link of a loading, as `link a in 1.000 out 0.500`.
pub fn load_link_text(
    alloc: Global,
    loading: &Loading,
    name: &Name,
    link: LinkId,
    into: &mut Vec<u8>,
) -> Result<(), NoMemory>
    requires { link.0 < links_of loading.now }
    ensures ok { OnOk result ((s : Setting) (version : ℕ) (c : Counts)
        → ShowsCounts s version c loading.now
        → into.new.items ≡ into.old.items ++ load_link_report name.now link.0 s c) }
    ensures counted { OnOk result (into.new.items
        ≡ into.old.items ++ load_link_line name.now (entered_of loading.now link.0)
        (left_of loading.now link.0)) }
    ensures err { OnErr result (into.new.items ≡ into.old.items) }
{
    let entered = loading.entered(link);
    let gone = loading.left(link);
    load_link_line_text(alloc, name, entered, gone, into)
}

#[tactic(auto, unfolding(crate::specs::Links::link_line))]
fn link_line_text(
    alloc: Global,
    version: u64,
    name: &Name,
    entered: Units,
    gone: Units,
    into: &mut Vec<u8>,
) -> Result<(), NoMemory>
    ensures ok { OnOk result (into.new.items
        ≡ into.old.items ++ link_line version name.now entered.0 gone.0) }
    ensures err { OnErr result (into.new.items ≡ into.old.items) }
{
    let mut line = Vec::new(alloc);
    push_version(&mut line, version)?;
    push_text(&mut line, b" ")?;
    push_link(&mut line, name, entered, gone)?;
    push_text(into, line.as_slice())
}

/// Appends what has entered and left a link of a loading, under its version, as `version 3 link a in 1.000 out 0.500`.
pub fn link_text(
    alloc: Global,
    loading: &Loading,
    name: &Name,
    link: LinkId,
    into: &mut Vec<u8>,
) -> Result<(), NoMemory>
    requires { link.0 < links_of loading.now }
    ensures ok { OnOk result ((s : Setting) (version : ℕ) (c : Counts)
        → ShowsCounts s version c loading.now
        → into.new.items ≡ into.old.items ++ link_report version name.now link.0 s c) }
    ensures counted { OnOk result (into.new.items ≡ into.old.items
        ++ link_line (version_of loading.now) name.now (entered_of loading.now link.0)
        (left_of loading.now link.0)) }
    ensures err { OnErr result (into.new.items ≡ into.old.items) }
{
    let entered = loading.entered(link);
    let gone = loading.left(link);
    link_line_text(alloc, loading.version(), name, entered, gone, into)
}
