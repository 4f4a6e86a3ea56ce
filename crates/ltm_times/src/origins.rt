//! Who waits at an origin, and for how long.
ghost use Rattle.std.specs.Prelude.{◌≡◌, ℕ, ◌+◌, ◌-◌, ◌<◌, ◌≤◌};
ghost use Rattle.ltm_curve.specs.Counts.{Counts};
ghost use Rattle.ltm_loading.specs.Setting.{Setting};
ghost use Rattle.ltm_flows.specs.Shown.{nodes_of, last_of, ShowsCounts};
ghost use Rattle.ltm_times.specs.Delays.{IsOriginState, IsOriginDelay};
ghost use Rattle.ltm_times.specs.Queues.{waiting_at};

use crate::delays::{OriginDelay, OriginState, Peak};
use crate::queues::peak_by;
use ltm_flows::Loading;
use ltm_units::{NodeId, Units};

/// How many wait at the origin of a node at a boundary: those whom it has produced by then, and who have not left it.
pub fn waiting(loading: &Loading, node: NodeId, boundary: u32) -> Units
    requires node { node.0 < nodes_of loading.now }
    requires boundary { boundary ≤ last_of loading.now }
    ensures { (s : Setting) (version : ℕ) (c : Counts) → ShowsCounts s version c loading.now
        → result.0 ≡ waiting_at s c node.0 boundary }
{
    let produced = loading.produced(node, boundary).0;
    Units(produced.saturating_sub(loading.departed(node, boundary).0))
}

/// What the origin of a node has produced and what has left it by a boundary, and how many wait there then.
pub fn origin_state(loading: &Loading, node: NodeId, boundary: u32) -> OriginState
    requires node { node.0 < nodes_of loading.now }
    requires boundary { boundary ≤ last_of loading.now }
    ensures { (s : Setting) (version : ℕ) (c : Counts) → ShowsCounts s version c loading.now
        → IsOriginState s c node.0 boundary result }
{
    OriginState {
        produced: loading.produced(node, boundary),
        left: loading.departed(node, boundary),
        waiting: waiting(loading, node, boundary),
    }
}

/// The time that vehicles wait at the origin of a node, and when most of them do, in one pass over the boundaries.
pub fn origin_delay(loading: &Loading, node: NodeId) -> OriginDelay
    requires { node.0 < nodes_of loading.now }
    ensures { (s : Setting) (version : ℕ) (c : Counts) → ShowsCounts s version c loading.now
        → IsOriginDelay s c node.0 result }
{
    let mut waited = 0u128;
    let mut peak = Peak {
        most: waiting(loading, node, 0),
        at: 0,
    };
    for slot in 0..loading.slots() {
        let standing = waiting(loading, node, slot + 1);
        waited += u128::from(standing.0);
        peak = peak_by(peak, standing, slot + 1);
    }
    OriginDelay {
        waited: waited * u128::from(loading.step().0),
        peak,
    }
}
