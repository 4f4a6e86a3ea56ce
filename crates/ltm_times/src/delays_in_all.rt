//! What all vehicles spend, how much of it in queues, and how much at their origins.
ghost use Rattle.std.specs.Prelude.{◌≡◌, ℕ, ◌+◌, ◌*◌, ◌≤◌};
ghost use Rattle.ltm_curve.specs.Counts.{Counts};
ghost use Rattle.ltm_loading.specs.Setting.{Setting};
ghost use Rattle.ltm_loading.specs.Totals.{departed};
ghost use Rattle.ltm_flows.specs.Shown.{last_of, ShowsCounts};
ghost use Rattle.ltm_times.specs.Queues.{in_queues};
ghost use Rattle.ltm_times.specs.Delays.{queued, waited, AreDelayTotals};

use crate::delays::DelayTotals;
use crate::queues::queue;
use crate::spending::time_spent;
use ltm_flows::Loading;
use ltm_units::{LinkId, NodeId};

/// How many stand in the queues of all links at a boundary.
fn in_queues(loading: &Loading, boundary: u32) -> u64
    requires { boundary ≤ last_of loading.now }
    ensures { (s : Setting) (version : ℕ) (c : Counts) → ShowsCounts s version c loading.now
        → result ≡ in_queues s c boundary }
{
    let mut sum = 0;
    for link in 0..loading.links() {
        sum += queue(loading, LinkId(link), boundary).0;
    }
    sum
}

/// The time that all stand in queues, in units times milliseconds.
fn queued(loading: &Loading) -> u128
    ensures { (s : Setting) (version : ℕ) (c : Counts) → ShowsCounts s version c loading.now
        → result ≡ queued s c }
{
    let mut sum = 0u128;
    for slot in 0..loading.slots() {
        sum += u128::from(in_queues(loading, slot + 1));
    }
    sum * u128::from(loading.step().0)
}

/// How many have left their origins by a boundary.
fn departed(loading: &Loading, boundary: u32) -> u128
    requires { boundary ≤ last_of loading.now }
    ensures { (s : Setting) (version : ℕ) (c : Counts) → ShowsCounts s version c loading.now
        → result ≡ departed s c boundary }
{
    let mut sum = 0u128;
    for node in 0..loading.nodes() {
        sum += u128::from(loading.departed(NodeId(node), boundary).0);
    }
    sum
}

/// The time that all wait at their origins, in units times milliseconds.
pub fn waited(loading: &Loading) -> u128
    ensures { (s : Setting) (version : ℕ) (c : Counts) → ShowsCounts s version c loading.now
        → result ≡ waited s c }
{
    let mut sum = 0u128;
    for slot in 0..loading.slots() {
        let produced = u128::from(loading.generated(slot + 1).0);
        sum += produced.saturating_sub(departed(loading, slot + 1));
    }
    sum * u128::from(loading.step().0)
}

/// What all vehicles spend on their way or at their origins, how much of it they stand in the queues of links, and how much
/// they wait at their origins.
pub fn delay_totals(loading: &Loading) -> DelayTotals
    ensures { (s : Setting) (version : ℕ) (c : Counts) → ShowsCounts s version c loading.now
        → AreDelayTotals s c result }
{
    DelayTotals {
        spent: time_spent(loading),
        queued: queued(loading),
        waited: waited(loading),
    }
}
