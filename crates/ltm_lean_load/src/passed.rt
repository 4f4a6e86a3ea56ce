//! What had left and entered each link by the end of a slot.
ghost use Rattle.std.specs.Prelude.{◌≡◌, ℕ, ◌+◌, ◌-◌, ◌^◌, ◌<◌, length, min, slice_index};
ghost use Rattle.ltm_setting.specs.Setting.{setting_of};
ghost use Rattle.ltm_setting.specs.Places.{IsSlot};
ghost use Rattle.ltm_totals.specs.Totals.{total_links, total_slots, total_at, SetsTotal};
ghost use Rattle.ltm_lean_load.specs.Adding.{AddsTo, AddsAll, AreDistinct};
ghost use Rattle.ltm_lean_load.specs.Nodes.{links_in, links_out, gone_in, gone_at, came_out, came_at, AreEnds};

use ltm_lean::{Incoming, LeanNode, Outgoing};
use ltm_scenario::Scenario;
use ltm_setting::is_setting;
use ltm_totals::Totals;

/// Says what had passed a link by the end of a slot: what had by its beginning, and so much more.
fn add_at(totals: &mut Totals, link: u32, slot: u32, more: u32)
    requires link { link < total_links totals.old }
    requires slot { slot < total_slots totals.old }
    ensures { SetsTotal totals.old totals.new link (slot + 1) (min (2 ^ 32 - 1) (total_at totals.old link slot + more)) }
{
    let _slots = totals.slots();
    let before = totals.at(link, slot) as u32;
    totals.set(link, slot + 1, before.saturating_add(more));
}

/// Says what had left each link into a node by the end of a slot.
fn add_left(left: &mut Totals, ins: &[Incoming], slot: u32)
    requires links { (i : ℕ) → i < length ins.now → slice_index (links_in ins.now) i < total_links left.old }
    requires slot { slot < total_slots left.old }
    requires apart { AreDistinct (links_in ins.now) }
    ensures { AddsTo (links_in ins.now) (gone_in ins.now) slot (length ins.now) left.old left.new }
{
    for i in 0..ins.len() {
        add_at(left, ins[i].link.0, slot, ins[i].gone);
    }
}

/// Says what had entered each link out of a node by the end of a slot.
fn add_entered(entered: &mut Totals, outs: &[Outgoing], slot: u32)
    requires links { (j : ℕ) → j < length outs.now → slice_index (links_out outs.now) j < total_links entered.old }
    requires slot { slot < total_slots entered.old }
    requires apart { AreDistinct (links_out outs.now) }
    ensures { AddsTo (links_out outs.now) (came_out outs.now) slot (length outs.now) entered.old entered.new }
{
    for j in 0..outs.len() {
        add_at(entered, outs[j].link.0, slot, outs[j].mail.came);
    }
}

/// Says what had left each link by the end of a slot, as the nodes have it where the links end.
pub(crate) fn add_all_left(scenario: &Scenario, left: &mut Totals, nodes: &[LeanNode], slot: u32)
    requires slot { IsSlot scenario.now slot }
    requires links { total_links left.old ≡ (setting_of scenario.now).links }
    requires slots { total_slots left.old ≡ (setting_of scenario.now).slots }
    requires ends { AreEnds (setting_of scenario.now) nodes.now }
    ensures { AddsAll (setting_of scenario.now) (gone_at (setting_of scenario.now) nodes.now) slot left.old left.new }
{
    is_setting(scenario);
    for u in 0..nodes.len() {
        add_left(left, &nodes[u].ins, slot);
    }
}

/// Says what had entered each link by the end of a slot, as the nodes have it where the links begin.
pub(crate) fn add_all_entered(
    scenario: &Scenario,
    entered: &mut Totals,
    nodes: &[LeanNode],
    slot: u32,
)
    requires slot { IsSlot scenario.now slot }
    requires links { total_links entered.old ≡ (setting_of scenario.now).links }
    requires slots { total_slots entered.old ≡ (setting_of scenario.now).slots }
    requires ends { AreEnds (setting_of scenario.now) nodes.now }
    ensures { AddsAll (setting_of scenario.now) (came_at (setting_of scenario.now) nodes.now) slot entered.old entered.new }
{
    is_setting(scenario);
    for u in 0..nodes.len() {
        add_entered(entered, &nodes[u].outs, slot);
    }
}
