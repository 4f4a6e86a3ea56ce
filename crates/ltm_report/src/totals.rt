//! The line of a loading's totals.
ghost use Rattle.std.specs.Prelude.{◌≡◌, ◌++◌, ℕ, OnOk, OnErr};
ghost use Rattle.ltm_curve.specs.Counts.{Counts};
ghost use Rattle.ltm_loading.specs.Setting.{Setting};
ghost use Rattle.ltm_flows.specs.Shown.{ShowsCounts};
ghost use Rattle.ltm_report.specs.Totals.{came_piece, stays_piece, totals_line};
ghost use Rattle.ltm_report.specs.Reports.{totals_report, counted_totals};

use crate::pieces::{push_newline, push_version};
use ltm_flows::{Loading, Totals};
use ltm_units::{NoMemory, Units, push_text, push_vehicles};
use std::alloc::Global;

#[tactic(auto, unfolding(crate::specs::Totals::came_piece))]
fn push_came(into: &mut Vec<u8>, generated: Units, arrived: Units) -> Result<(), NoMemory>
    ensures { OnOk result (into.new.items ≡ into.old.items ++ came_piece generated.0 arrived.0) }
{
    push_vehicles(into, b" generated ", generated)?;
    push_vehicles(into, b" arrived ", arrived)
}

#[tactic(auto, unfolding(crate::specs::Totals::stays_piece))]
fn push_stays(into: &mut Vec<u8>, on_links: Units, waiting: Units) -> Result<(), NoMemory>
    ensures { OnOk result (into.new.items ≡ into.old.items ++ stays_piece on_links.0 waiting.0) }
{
    push_vehicles(into, b" on_links ", on_links)?;
    push_vehicles(into, b" waiting ", waiting)
}

/// Appends totals under a version, as `version 0 generated 1.000 arrived 0.500 on_links 0.500 waiting 0.000`.
#[tactic(auto, unfolding(crate::specs::Totals::totals_line))]
pub fn totals_line_text(
    alloc: Global,
    version: u64,
    totals: Totals,
    into: &mut Vec<u8>,
) -> Result<(), NoMemory>
    ensures ok { OnOk result (into.new.items ≡ into.old.items
        ++ totals_line version totals.generated.0 totals.arrived.0 totals.on_links.0 totals.waiting.0) }
    ensures err { OnErr result (into.new.items ≡ into.old.items) }
{
    let mut line = Vec::new(alloc);
    push_version(&mut line, version)?;
    push_came(&mut line, totals.generated, totals.arrived)?;
    push_stays(&mut line, totals.on_links, totals.waiting)?;
    push_newline(&mut line)?;
    push_text(into, line.as_slice())
}

/// Appends the totals of a loading at the end of its horizon, under its version.
pub fn totals_text(alloc: Global, loading: &Loading, into: &mut Vec<u8>) -> Result<(), NoMemory>
    ensures ok { OnOk result ((s : Setting) (version : ℕ) (c : Counts)
        → ShowsCounts s version c loading.now
        → into.new.items ≡ into.old.items ++ totals_report version s c) }
    ensures counted { OnOk result (into.new.items ≡ into.old.items ++ counted_totals loading.now) }
    ensures err { OnErr result (into.new.items ≡ into.old.items) }
{
    totals_line_text(alloc, loading.version(), loading.totals(), into)
}
