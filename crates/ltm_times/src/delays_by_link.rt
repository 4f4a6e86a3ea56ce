//! The delays of all links, in one pass over the boundaries.
ghost use Rattle.std.specs.Prelude.{◌≡◌, ℕ, ◌+◌, ◌*◌, ◌<◌, ◌≤◌, ◌^◌, length, slice_index_or, IfOk};
ghost use Rattle.ltm_curve.specs.Counts.{Counts};
ghost use Rattle.ltm_curve.specs.Totals.{most_total};
ghost use Rattle.ltm_loading.specs.Setting.{Setting};
ghost use Rattle.ltm_flows.specs.Shown.{step_of, links_of, last_of, free_of, ShowsCounts};
ghost use Rattle.ltm_times.specs.Behind.{IsBehind, AreFreeTimes};
ghost use Rattle.ltm_times.specs.Delays.{AreLinkDelays};
ghost use Rattle.ltm_times.specs.DelaysBy.{IsLinkDelayIn, AreLinkDelaysIn};
ghost use Rattle.ltm_units.specs.Bounds.{longest_step};

use crate::behind::Behind;
use crate::delays::{LinkDelay, Peak};
use crate::queues::{peak_by, ready_by};
use ltm_flows::Loading;
use ltm_units::{LinkId, Millis, NoMemory, Units};
use std::alloc::Global;

/// So many units for a step, in units times milliseconds. The product fits 64 bits.
#[inline]
fn for_a_step(units: u64, step: Millis) -> u128
    requires units { units ≤ most_total }
    requires step { step.0 ≤ longest_step }
    ensures product { result ≡ units * step.0 }
    ensures small { result ≤ 2 ^ 80 }
{
    u128::from(units * step.0)
}

/// Takes the delay of a link from the beginning of a slot to its end; `free` is its free-flow time. Where nobody is on the
/// link, nobody stands in its queue, and nothing is added.
#[inline]
fn add_link(loading: &Loading, link: LinkId, slot: u32, free: Behind, delay: &mut LinkDelay)
    requires link { link.0 < links_of loading.now }
    requires slot { slot < last_of loading.now }
    requires free { IsBehind (step_of loading.now) (free_of loading.now link.0) free }
    requires before { IsLinkDelayIn loading.now link.0 slot delay.old }
    ensures { IsLinkDelayIn loading.now link.0 (slot + 1) delay.new }
{
    let step = loading.step();
    let left = loading.left_by(link, slot + 1).0;
    let on = loading.entered_by(link, slot + 1).0.saturating_sub(left);
    if on == 0 {
        return;
    }
    let standing = ready_by(loading, link, slot + 1, free).saturating_sub(left);
    delay.spent += for_a_step(on, step);
    delay.queued += for_a_step(standing, step);
    delay.peak = peak_by(delay.peak, Units(standing), slot + 1);
}

/// The free-flow time of each link, counted in steps.
fn free_times(alloc: Global, loading: &Loading) -> Result<Vec<Behind>, NoMemory>
    ensures { IfOk result (λ times. AreFreeTimes loading.now times.items) }
{
    let none = Behind {
        whole: 0,
        rest: Millis(0),
    };
    let mut times = vec![in alloc; none; loading.links() as usize]?;
    for link in 0..loading.links() {
        times[link as usize] = Behind::of(loading.free(LinkId(link)), loading.step());
    }
    Ok(times)
}

/// The delays of all links up to the start.
fn at_start(alloc: Global, loading: &Loading) -> Result<Vec<LinkDelay>, NoMemory>
    ensures { IfOk result (λ delays. AreLinkDelaysIn loading.now 0 delays.items) }
{
    let none = LinkDelay {
        spent: 0,
        queued: 0,
        peak: Peak {
            most: Units(0),
            at: 0,
        },
    };
    Ok(vec![in alloc; none; loading.links() as usize]?)
}

/// Takes the delays of all links, of which these are the free-flow times, from the beginning of a slot to its end.
fn add_slot(loading: &Loading, slot: u32, free: &[Behind], delays: &mut [LinkDelay])
    requires slot { slot < last_of loading.now }
    requires free { AreFreeTimes loading.now free.now }
    requires before { AreLinkDelaysIn loading.now slot delays.old }
    ensures { AreLinkDelaysIn loading.now (slot + 1) delays.new }
{
    for link in 0..loading.links() {
        let at = link as usize;
        add_link(loading, LinkId(link), slot, free[at], &mut delays[at]);
    }
}

/// The time that vehicles spend on each link and stand in its queue, and the longest queue, by the number of the link. It is
/// one pass over the boundaries, as all counts of a boundary lie side by side.
pub fn link_delays(alloc: Global, loading: &Loading) -> Result<Vec<LinkDelay>, NoMemory>
    ensures count { IfOk result (λ delays. length delays.items ≡ links_of loading.now) }
    ensures shown { IfOk result (λ delays. (s : Setting) (version : ℕ) (c : Counts)
        → ShowsCounts s version c loading.now → AreLinkDelays s c delays.items) }
    ensures small { IfOk result (λ delays. (link : ℕ) (d : LinkDelay) → link < links_of loading.now
        → (slice_index_or delays.items link d).queued ≤ 2 ^ 112) }
{
    let free = free_times(alloc, loading)?;
    let mut delays = at_start(alloc, loading)?;
    for slot in 0..loading.slots() {
        add_slot(loading, slot, &free, &mut delays);
    }
    Ok(delays)
}
