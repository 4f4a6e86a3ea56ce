//! The pairs that may read what a commit changed.
ghost use Rattle.std.specs.Prelude.{◌≡◌, ◌==◌, ◌&&◌, ℕ, ◌+◌, ◌<◌, ◌≤◌, ◌⊎◌, All, None, [], length, nat_le};
ghost use Rattle.ltm_setting.specs.Setting.{setting_of};
ghost use Rattle.ltm_pairs.specs.Reaches.{lies_in_one};
ghost use Rattle.ltm_pairs.specs.Windows.{reads_ago};
ghost use Rattle.ltm_pairs.specs.Adding.{IsFrom, Adds};
ghost use Rattle.ltm_pairs.specs.Dependents.{has_place, depends_on_left, depends_on_entered, depends};
ghost use Rattle.ltm_setting.specs.Places.{IsLink, IsNode, IsSlot};

use crate::arm_set::ArmSet;
use crate::spread::Spread;
use crate::windows::readers_ago;
use ltm_scenario::Scenario;
use ltm_setting::{delays, head, in_links, is_setting, node_count, out_links, slot_count, tail};
use ltm_units::{LinkId, NodeId, Pair, Reach};

/// Whether a place is in a set of places, kept as bits.
#[inline]
fn has_place(places: u32, place: usize) -> bool
    requires { place < 32 }
    ensures { result ≡ has_place places place }
{
    (places >> place) & 1 == 1
}

/// Adds the slots of a link's tail that read a boundary a wave time later.
fn add_tail(scenario: &Scenario, link: LinkId, boundary: u32, into: &mut Spread)
    requires link { IsLink scenario.now link.0 }
    requires room { length into.old.reaches < 16 }
    ensures { let s = setting_of scenario.now in Adds s boundary 1 into.old into.new
        (λ w v. (w == s.tail link.0) && reads_ago s.step (s.wave_time link.0) v boundary) }
{
    is_setting(scenario);
    let wave = delays(scenario, link).wave;
    let node = tail(scenario, link);
    into.push(readers_ago(node, boundary, wave, slot_count(scenario)));
}

/// Adds the slots of a link's head from a boundary on.
fn add_head(scenario: &Scenario, link: LinkId, boundary: u32, into: &mut Spread)
    requires link { IsLink scenario.now link.0 }
    requires room { length into.old.reaches < 16 }
    ensures { let s = setting_of scenario.now in Adds s boundary 1 into.old into.new
        (λ w v. nat_le boundary v && (w == s.head link.0)) }
{
    let node = head(scenario, link);
    into.push(Reach {
        node,
        from: boundary,
        to: slot_count(scenario),
    });
}

/// Adds the tails of the in-links at some places of a node.
fn add_tails(scenario: &Scenario, node: NodeId, boundary: u32, arms: u32, into: &mut Spread)
    requires node { IsNode scenario.now node.0 }
    requires room { length into.old.reaches + 4 ≤ 16 }
    ensures { let s = setting_of scenario.now in Adds s boundary 4 into.old into.new
        (depends_on_left s node.0 boundary arms (s.ins node.0)) }
{
    for (place, link) in in_links(scenario, node).iter().enumerate() {
        if has_place(arms, place) {
            add_tail(scenario, *link, boundary, into);
        }
    }
}

/// Adds the heads of the out-links at some places of a node.
fn add_heads(scenario: &Scenario, node: NodeId, boundary: u32, outs: u32, into: &mut Spread)
    requires node { IsNode scenario.now node.0 }
    requires room { length into.old.reaches + 4 ≤ 16 }
    ensures { let s = setting_of scenario.now in Adds s boundary 4 into.old into.new
        (λ w v. nat_le boundary v && depends_on_entered s node.0 outs (s.outs node.0) w) }
{
    for (place, link) in out_links(scenario, node).iter().enumerate() {
        if has_place(outs, place) {
            add_head(scenario, *link, boundary, into);
        }
    }
}

/// The reaches of the pairs that may read what a commit of a pair changed. They replace what `into` held.
///
/// They are the node's next slot; the tail of each in-link that is in `changed`, in the slots that read the boundary behind
/// the pair's slot a wave time later; and the head of each out-link that is in `changed`, from the next slot to the horizon.
/// So there are at most nine. Which of a head's slots read the change in truth depends on the counts. `dependents_are_all`
/// says that every other pair reads the same as before. A pair that is not of the scenario has no reach. Takes no memory.
pub fn dependents(scenario: &Scenario, pair: Pair, changed: ArmSet, into: &mut Spread)
    ensures each { (w v : ℕ) → IsNode scenario.now pair.node.0
        → IsSlot scenario.now v
        → lies_in_one into.new.reaches w v
        ≡ depends (setting_of scenario.now) pair.node.0 (pair.slot + 1) changed w v }
    ensures from { All (IsFrom (setting_of scenario.now) (pair.slot + 1)) into.new.reaches }
    ensures none { ((setting_of scenario.now).nodes ≤ pair.node.0)
        ⊎ ((setting_of scenario.now).slots ≤ pair.slot)
        → into.new.reaches ≡ [] }
    ensures few { length into.new.reaches ≤ 9 }
    ensures all_new { into.new.all_new ≡ None }
{
    into.clear();
    let slots = slot_count(scenario);
    if pair.slot >= slots || pair.node.0 >= node_count(scenario) {
        return;
    }
    let boundary = pair.slot + 1;
    into.push(Reach {
        node: pair.node,
        from: boundary,
        to: (boundary + 1).min(slots),
    });
    add_tails(scenario, pair.node, boundary, changed.arms, into);
    add_heads(scenario, pair.node, boundary, changed.outs, into);
}
