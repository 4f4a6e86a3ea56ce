//! The line of a viewer.
ghost use Rattle.std.specs.Prelude.{◌≡◌, ◌++◌, OnOk};
ghost use Rattle.ltm_session_viewers.specs.Lines.{teller, viewer_line};

use ltm_flows::Totals;
use ltm_report::totals_line_text;
use ltm_units::{NoMemory, push_number, push_text};
use std::alloc::Global;

/// Appends which viewer tells it.
#[tactic(auto, unfolding(crate::specs::Lines::teller))]
fn push_teller(into: &mut Vec<u8>, viewer: u32) -> Result<(), NoMemory>
    ensures { OnOk result (into.new.items ≡ into.old.items ++ teller viewer) }
{
    push_number(into, b"viewer ", u128::from(viewer))?;
    push_text(into, b" ")
}

/// Appends the line of a viewer, as `viewer 1 version 0 generated 1.000 arrived 0.500 on_links 0.500 waiting 0.000`.
pub(crate) fn viewer_text(
    alloc: Global,
    viewer: u32,
    version: u64,
    totals: Totals,
    into: &mut Vec<u8>,
) -> Result<(), NoMemory>
    ensures { OnOk result (into.new.items ≡ into.old.items
        ++ viewer_line viewer version totals.generated.0 totals.arrived.0 totals.on_links.0 totals.waiting.0) }
{
    push_teller(into, viewer)?;
    totals_line_text(alloc, version, totals, into)
}
