//! The queue of a link.
ghost use Rattle.std.specs.Prelude.{◌≡◌, ℕ, ◌+◌, ◌<◌, ◌≤◌};
ghost use Rattle.ltm_curve.specs.Counts.{Counts};
ghost use Rattle.ltm_curve.specs.Totals.{most_total};
ghost use Rattle.ltm_loading.specs.Setting.{Setting};
ghost use Rattle.ltm_flows.specs.Shown.{step_of, links_of, last_of, free_of, ShowsCounts};
ghost use Rattle.ltm_times.specs.Behind.{IsBehind};
ghost use Rattle.ltm_times.specs.Queues.{ready, queue};
ghost use Rattle.ltm_times.specs.Peaks.{IsPeakOf};
ghost use Rattle.ltm_times.specs.Delays.{IsLinkState};

use crate::behind::Behind;
use crate::delays::{LinkState, Peak};
use crate::ready::total_behind;
use ltm_flows::Loading;
use ltm_loading::up_of;
use ltm_units::{LinkId, Units};

/// How many of those that entered a link could have left it by a boundary at free speed; `free` is its free-flow time.
#[inline]
pub(crate) fn ready_by(loading: &Loading, link: LinkId, boundary: u32, free: Behind) -> u64
    requires link { link.0 < links_of loading.now }
    requires boundary { boundary ≤ last_of loading.now }
    requires free { IsBehind (step_of loading.now) (free_of loading.now link.0) free }
    ensures shown { (s : Setting) (version : ℕ) (c : Counts) → ShowsCounts s version c loading.now
        → result ≡ ready s c link.0 boundary }
    ensures small { result ≤ most_total }
{
    let _links = loading.links();
    let curves = loading.curves();
    total_behind(curves, up_of(link), boundary, free, loading.step())
}

/// How many stand in the queue of a link at a boundary: those who could have left it by then at free speed, and have not.
pub fn queue(loading: &Loading, link: LinkId, boundary: u32) -> Units
    requires link { link.0 < links_of loading.now }
    requires boundary { boundary ≤ last_of loading.now }
    ensures shown { (s : Setting) (version : ℕ) (c : Counts) → ShowsCounts s version c loading.now
        → result.0 ≡ queue s c link.0 boundary }
    ensures small { result.0 ≤ most_total }
{
    let free = Behind::of(loading.free(link), loading.step());
    let ready = ready_by(loading, link, boundary, free);
    Units(ready.saturating_sub(loading.left_by(link, boundary).0))
}

/// What has entered a link and left it by a boundary, and how many stand in its queue then.
pub fn link_state(loading: &Loading, link: LinkId, boundary: u32) -> LinkState
    requires link { link.0 < links_of loading.now }
    requires boundary { boundary ≤ last_of loading.now }
    ensures { (s : Setting) (version : ℕ) (c : Counts) → ShowsCounts s version c loading.now
        → IsLinkState s c link.0 boundary result }
{
    LinkState {
        entered: loading.entered_by(link, boundary),
        left: loading.left_by(link, boundary),
        queue: queue(loading, link, boundary),
    }
}

/// The peak of the numbers up to a boundary, from that of those before it.
#[inline]
pub(crate) fn peak_by(before: Peak, number: Units, at: u32) -> Peak
    ensures { (f : ℕ → ℕ) (last : ℕ) → IsPeakOf f last before → at ≡ last + 1 → number.0 ≡ f at
        → IsPeakOf f at result }
{
    if before.most.0 < number.0 {
        Peak { most: number, at }
    } else {
        before
    }
}
