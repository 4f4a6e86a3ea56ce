//! Curves between boundaries, and so long before one.
ghost use Rattle.std.specs.Prelude.{◌≡◌, ℕ, ◌+◌, ◌*◌, ◌<◌, ◌≤◌};
ghost use Rattle.ltm_curve.specs.Counts.{Rises, interpolated};
ghost use Rattle.ltm_curve.specs.TotalCurves.{total_groups, total_slots, total_at};
ghost use Rattle.ltm_curve.specs.Totals.{most_total};
ghost use Rattle.ltm_times.specs.Behind.{IsBehind};
ghost use Rattle.ltm_times.specs.Queues.{delayed};

use crate::behind::Behind;
use ltm_curve::TotalCurves;
use ltm_units::{Millis, share_of};

/// The total of a group `rest` milliseconds past a boundary, interpolated and rounded down.
#[inline]
pub fn past(curves: &TotalCurves, group: u32, boundary: u32, rest: Millis, step: Millis) -> u64
    requires group { group < total_groups curves.now }
    requires rest { rest.0 < step.0 }
    requires boundary { boundary ≤ total_slots curves.now }
    requires next { 0 < rest.0 → boundary < total_slots curves.now }
    requires rises { Rises (total_at curves.now group) (total_slots curves.now) }
    ensures total { result
        ≡ interpolated (total_at curves.now group) step.0 (boundary * step.0 + rest.0) }
    ensures small { result ≤ most_total }
{
    let before = curves.total(group, boundary);
    if rest.0 == 0 {
        return before;
    }
    let _last = curves.slots();
    let after = curves.total(group, boundary + 1);
    before + share_of(after - before, rest.0, step.0)
}

/// The total of a group so long before a boundary, interpolated and rounded down; 0 before the start.
#[inline]
pub(crate) fn total_behind(
    curves: &TotalCurves,
    group: u32,
    boundary: u32,
    behind: Behind,
    step: Millis,
) -> u64
    requires group { group < total_groups curves.now }
    requires boundary { boundary ≤ total_slots curves.now }
    requires rises { Rises (total_at curves.now group) (total_slots curves.now) }
    requires rest { behind.rest.0 < step.0 }
    requires longer { 0 < behind.rest.0 → 0 < behind.whole }
    ensures total { (time : ℕ) → IsBehind step.0 time behind
        → result ≡ delayed (total_at curves.now group) step.0 time boundary }
    ensures small { result ≤ most_total }
{
    let end = u64::from(boundary);
    if end < behind.whole {
        return 0;
    }
    let from = (end - behind.whole) as u32;
    past(curves, group, from, behind.rest, step)
}
