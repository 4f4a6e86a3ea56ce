//! The slots that read a boundary some time later.
ghost use Rattle.std.specs.Prelude.{◌≡◌, ℕ, ◌+◌, ◌<◌, ◌≤◌};
ghost use Rattle.ltm_diagram.specs.Delays.{IsDelay};
ghost use Rattle.ltm_pairs.specs.Reaches.{lies_in};
ghost use Rattle.ltm_pairs.specs.Windows.{reads_ago};

use ltm_diagram::Delay;
use ltm_units::{NodeId, Reach};

/// The slots of a node that read a boundary a delay later: those at whose end the moment so long ago is less than a slot
/// away from the boundary. There is one where the delay is of whole slots, and there are two otherwise, cut at the horizon.
///
/// ```text
///   slots of 1000 ms, boundary 3, and 1500 ms later, which are 2 slots less a rest of 500 ms
///
///   boundary   0     1     2     3     4     5     6
///              |     |     |     |     |     |     |
///                                |--------|             1500 ms
///                          |-----X-----|                less than a slot from 3, and so read
///   slots                           3     4             their ends 4 and 5 lie 1500 ms after 2.5 and 3.5
/// ```
#[inline]
pub fn readers_ago(node: NodeId, boundary: u32, delay: Delay, slots: u32) -> Reach
    ensures node { result.node ≡ node }
    ensures slots { (step time slot : ℕ) → IsDelay step time delay → step ≤ time → slot < slots
        → lies_in node.0 slot result ≡ reads_ago step time slot boundary }
    ensures later { boundary ≤ result.from }
    ensures short { result.to ≤ result.from + 2 }
    ensures within { result.to ≤ slots }
{
    let width = if delay.rest == 0 { 1 } else { 2 };
    Reach {
        node,
        from: boundary.saturating_add(delay.slots.saturating_sub(width)),
        to: boundary.saturating_add(delay.slots).min(slots),
    }
}
