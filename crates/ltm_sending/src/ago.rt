//! Totals some time ago.
ghost use Rattle.std.specs.Prelude.{◌≡◌, ℕ, ◌+◌, ◌*◌, ◌/◌, ◌<◌, ◌≤◌};
ghost use Rattle.ltm_curve.specs.Counts.{Rises};
ghost use Rattle.ltm_curve.specs.Table.{groups_of, destinations_of, slots_of, total_of};
ghost use Rattle.ltm_curve.specs.Totals.{most_total};
ghost use Rattle.ltm_diagram.specs.Delays.{IsDelay};
ghost use Rattle.ltm_loading.specs.Flows.{earlier};
ghost use Rattle.ltm_units.specs.Bounds.{longest_step};

use ltm_curve::{Curves, Kind};
use ltm_diagram::Delay;
use ltm_units::Millis;

/// A total some time ago, and a boundary by which it was reached.
#[derive(Clone, Copy)]
pub(crate) struct Ago {
    pub(crate) total: u64,
    pub(crate) by: u32,
}

/// The total of a group so long before the end of a slot, 0 before the start. The time is at least a step, so no boundary
/// after the slot's start is read.
#[inline]
#[tactic(auto, using(crate::proofs::Past::long_enough))]
pub(crate) fn total_ago<K: Kind>(
    curves: &Curves,
    group: u32,
    slot: u32,
    delay: Delay,
    step: Millis,
) -> Ago
    requires kind { K.fits (destinations_of curves.now) }
    requires group { group < groups_of curves.now }
    requires slot { slot ≤ slots_of curves.now }
    requires small_step { step.0 ≤ longest_step }
    requires rest { delay.rest < step.0 }
    requires long { step.0 + delay.rest ≤ delay.slots * step.0 }
    requires rises { Rises (total_of curves.now group) slot }
    ensures total { (time : ℕ) → IsDelay step.0 time delay
        → result.total ≡ earlier (total_of curves.now group) step.0 slot time }
    ensures by { result.by ≤ slot }
    ensures reached { result.total ≤ total_of curves.now group result.by }
{
    let end = u64::from(slot) + 1;
    let slots = u64::from(delay.slots);
    if end < slots {
        return Ago { total: 0, by: 0 };
    }
    let boundary = (end - slots) as u32;
    let before = K::total(curves, group, boundary);
    if delay.rest == 0 {
        return Ago {
            total: before,
            by: boundary,
        };
    }
    let by = boundary + 1;
    let after = K::total(curves, group, by);
    let part = interpolated_part(after - before, delay.rest, step);
    Ago {
        total: before + part,
        by,
    }
}

/// What of the units of a slot has come in a part of it, rounded down. In most slots there are none, and nothing is divided.
#[inline]
#[tactic(auto, using(crate::proofs::Past::part_fits))]
fn interpolated_part(units: u64, rest: u32, step: Millis) -> u64
    requires small_step { step.0 ≤ longest_step }
    requires rest { rest < step.0 }
    requires small { units ≤ most_total }
    ensures part { result ≡ units * rest / step.0 }
    ensures within { result ≤ units }
{
    if units == 0 {
        return 0;
    }
    units * u64::from(rest) / step.0
}
