//! The first moment at which a curve has so many units.
ghost use Rattle.std.specs.Prelude.{◌≡◌, ◌↔◌, ℕ, ◌+◌, ◌-◌, ◌*◌, ◌/◌, ◌<◌, ◌≤◌, None, option_map};
ghost use Rattle.ltm_curve.specs.Counts.{Rises};
ghost use Rattle.ltm_curve.specs.TotalCurves.{total_groups, total_slots, total_at};
ghost use Rattle.ltm_curve.specs.Totals.{most_total};
ghost use Rattle.ltm_times.specs.Moments.{first_moment};
ghost use Rattle.ltm_units.specs.Bounds.{longest_step};

use ltm_curve::TotalCurves;
use ltm_units::Millis;

/// The first boundary by which a group has so many units, found by halving.
fn first_boundary(curves: &TotalCurves, group: u32, count: u64) -> u32
    requires group { group < total_groups curves.now }
    requires rises { Rises (total_at curves.now group) (total_slots curves.now) }
    requires has { count ≤ total_at curves.now group (total_slots curves.now) }
    ensures within { result ≤ total_slots curves.now }
    ensures reached { count ≤ total_at curves.now group result }
    ensures before { (k : ℕ) → k < result → total_at curves.now group k < count }
{
    let mut low = 0;
    let mut high = curves.slots();
    while low < high {
        let middle = low + (high - low) / 2;
        if curves.total(group, middle) < count {
            low = middle + 1;
        } else {
            high = middle;
        }
    }
    high
}

/// After how many milliseconds of a step a curve that rises in it from `from` to `to` first has `count` units.
fn wait_in_slot(from: u64, to: u64, count: u64, step: u64) -> u64
    requires not_yet { from < count }
    requires reached { count ≤ to }
    requires few { to ≤ most_total }
    requires short_step { step ≤ longest_step }
    requires some_step { 1 ≤ step }
    ensures some { 1 ≤ result }
    ensures within { result ≤ step }
    ensures reached { count ≤ from + (to - from) * result / step }
    ensures before { (r : ℕ) → r < result → from + (to - from) * r / step < count }
{
    ((count - from) * step).div_ceil(to - from)
}

/// The first moment, up to the last boundary, at which a group has so many units; None where it never has.
pub fn moment_of(curves: &TotalCurves, group: u32, count: u64, step: Millis) -> Option<Millis>
    requires group { group < total_groups curves.now }
    requires rises { Rises (total_at curves.now group) (total_slots curves.now) }
    requires some_step { 1 ≤ step.0 }
    requires short_step { step.0 ≤ longest_step }
    ensures time { option_map (λ time. time.0) result
        ≡ first_moment (total_at curves.now group) step.0 (total_slots curves.now) count }
    ensures none { (result ≡ None) ↔ (total_at curves.now group (total_slots curves.now) < count) }
{
    if curves.total(group, curves.slots()) < count {
        return None;
    }
    let boundary = first_boundary(curves, group, count);
    if boundary == 0 {
        return Some(Millis(0));
    }
    let from = curves.total(group, boundary - 1);
    let to = curves.total(group, boundary);
    let start = u64::from(boundary - 1) * step.0;
    Some(Millis(start + wait_in_slot(from, to, count, step.0)))
}
