//! What the origin of a node sends of listed destinations.
ghost use Rattle.std.specs.Prelude.{◌≡◌, ℕ, ◌-◌, ◌<◌, ◌≤◌, length, slice_index};
ghost use Rattle.ltm_curve.specs.Counts.{Counts, total};
ghost use Rattle.ltm_loading.specs.Flows.{origin_sending};
ghost use Rattle.ltm_loading.specs.Groups.{dep_of};
ghost use Rattle.ltm_loading.specs.Loading.{IsLoading};
ghost use Rattle.ltm_setting.specs.Setting.{setting_of};
ghost use Rattle.ltm_setting.specs.Places.{HasOut, IsNode, IsSlot};
ghost use Rattle.ltm_standing.specs.Listed.{Ascends, NotIn};
ghost use Rattle.ltm_origin.specs.Waiting.{HasLeft};

use crate::listed::Listed;
use ltm_curve::first_less_of;
use ltm_loading::origins_are_ready;
use ltm_scenario::Scenario;
use ltm_setting::{destination_count, is_setting, origin_capacity, produced_total, slot_count};
use ltm_units::NodeId;

/// A 0 for each destination that a case may have.
static NOTHING: [u32; 2_000] = [0; 2_000];

/// Takes numbers from others, place by place, down to 0.
fn take_away(less: &[u32], from: &mut [u64])
    requires { length less.now ≡ length from.old }
    ensures { (i : ℕ) → i < length from.old → slice_index from.new i ≡ slice_index from.old i - slice_index less.now i }
{
    for i in 0..from.len() {
        from[i] = from[i].saturating_sub(u64::from(less[i]));
    }
}

/// Writes what the origin of a node sends of each destination of a list in a slot: of the units that the node has produced by
/// the end of the slot, in their order, those that have not left yet, as many as the capacity of origins lets pass. It is told
/// what has left the origin, in all and by place; of no other destination the node produces anything.
pub fn origin_sends_listed(
    scenario: &Scenario,
    node: NodeId,
    slot: u32,
    list: &[u32],
    left: u64,
    gone: &[u32],
    into: &mut [u64],
)
    requires node { IsNode scenario.now node.0 }
    requires some_out { HasOut scenario.now node.0 0 }
    requires slot { IsSlot scenario.now slot }
    requires order { Ascends 0 (setting_of scenario.now).destinations list.now }
    requires others { (d : ℕ) → d < (setting_of scenario.now).destinations → NotIn list.now d
        → (setting_of scenario.now).produced node.0 d (setting_of scenario.now).slots ≡ 0 }
    requires gone { length gone.now ≡ length list.now }
    requires room { length into.old ≡ length list.now }
    ensures { (c : Counts) → IsLoading (setting_of scenario.now) c → HasLeft (setting_of scenario.now) c node.0 slot list.now left gone.now
        → (i : ℕ) → i < length list.now → slice_index into.new i
        ≡ origin_sending (setting_of scenario.now) c node.0 slot (slice_index list.now i) }
{
    is_setting(scenario);
    origins_are_ready();
    let _slots = slot_count(scenario);
    let _destinations = destination_count(scenario);
    let all = produced_total(scenario, node, slot + 1);
    let goal = all.min(left.saturating_add(origin_capacity(scenario)));
    if goal <= left {
        into.fill(0);
        return;
    }
    let rows = Listed {
        scenario,
        node,
        list,
    };
    first_less_of(&rows, goal, slot + 1, &NOTHING[..list.len()], into);
    take_away(gone, into);
}
