//! The numbers of a setting, read from a scenario.
ghost use Rattle.std.specs.Prelude.{◌≡◌, ◌≤◌, ◌<◌, ◌-◌, ◌^◌, ℕ, length, slice_index, is_some, IfSome, Some, None, All, map};
ghost use Rattle.ltm_diagram.specs.Delays.{IsDelay};
ghost use Rattle.ltm_diagram.specs.Passing.{capacity_in};
ghost use Rattle.ltm_curve.specs.Counts.{total};
ghost use Rattle.ltm_loading.specs.Setting.{Setting};
ghost use Rattle.ltm_setting.specs.Setting.{setting_of};
ghost use Rattle.ltm_setting.specs.Places.{IsDestination, IsLink, IsNode, IsSlot};
ghost use Rattle.ltm_units.specs.Bounds.{longest_step, longest_time, most_destinations, most_in_slot, most_links, most_nodes, most_on_link, most_produced, most_slots};

use ltm_demand::{destinations_add_up, production_never_falls};
use ltm_diagram::{Delays, Limits, limits_in_range};
use ltm_scenario::Scenario;
use ltm_splits::Weights;
use ltm_units::{LinkId, Millis, NodeId, Units};

/// The length of a slot, 1 to 60,000 ms.
#[inline]
#[tactic(auto, unfolding(crate::specs::Setting::setting_of))]
pub fn step(scenario: &Scenario) -> Millis
    ensures value { result.0 ≡ (setting_of scenario.now).step }
    ensures some { 1 ≤ result.0 }
    ensures small { result.0 ≤ longest_step }
{
    scenario.setup().step
}

/// How many slots there are, 1 to 10,000.
#[inline]
#[tactic(auto, unfolding(crate::specs::Setting::setting_of))]
pub fn slot_count(scenario: &Scenario) -> u32
    ensures value { result ≡ (setting_of scenario.now).slots }
    ensures some { 1 ≤ result }
    ensures few { result ≤ most_slots }
{
    scenario.setup().slots
}

/// What leaves an origin in a slot, 1 to 32,000 units.
#[inline]
#[tactic(auto, unfolding(crate::specs::Setting::setting_of))]
pub fn origin_capacity(scenario: &Scenario) -> u64
    ensures value { result ≡ (setting_of scenario.now).origin_capacity }
    ensures some { 1 ≤ result }
    ensures small { result ≤ most_in_slot }
{
    scenario.setup().origin_capacity.0
}

/// Whether what an arm moves by an out-link is rounded down once for all destinations, and not for each.
#[inline]
#[tactic(auto, unfolding(crate::specs::Setting::setting_of))]
pub fn by_turn(scenario: &Scenario) -> bool
    ensures { result ≡ (setting_of scenario.now).by_turn }
{
    scenario.setup().by_turn
}

/// How many nodes there are.
#[inline]
#[tactic(auto, unfolding(crate::specs::Setting::setting_of))]
pub fn node_count(scenario: &Scenario) -> u32
    ensures value { result ≡ (setting_of scenario.now).nodes }
    ensures few { result ≤ most_nodes }
{
    scenario.network().nodes()
}

/// How many links there are.
#[inline]
#[tactic(auto, unfolding(crate::specs::Setting::setting_of))]
pub fn link_count(scenario: &Scenario) -> u32
    ensures value { result ≡ (setting_of scenario.now).links }
    ensures few { result ≤ most_links }
{
    scenario.network().links()
}

/// How many destinations there are.
#[inline]
#[tactic(auto, unfolding(crate::specs::Setting::setting_of))]
pub fn destination_count(scenario: &Scenario) -> u32
    ensures value { result ≡ (setting_of scenario.now).destinations }
    ensures few { result ≤ most_destinations }
{
    let _setup = scenario.setup();
    scenario.destinations().len() as u32
}

/// The node at which a link starts.
#[inline]
#[tactic(auto, unfolding(crate::specs::Setting::setting_of))]
pub fn tail(scenario: &Scenario, link: LinkId) -> NodeId
    requires { IsLink scenario.now link.0 }
    ensures node { result.0 ≡ (setting_of scenario.now).tail link.0 }
    ensures there { IsNode scenario.now result.0 }
{
    scenario.network().tail(link)
}

/// The node at which a link ends.
#[inline]
#[tactic(auto, unfolding(crate::specs::Setting::setting_of))]
pub fn head(scenario: &Scenario, link: LinkId) -> NodeId
    requires { IsLink scenario.now link.0 }
    ensures node { result.0 ≡ (setting_of scenario.now).head link.0 }
    ensures there { IsNode scenario.now result.0 }
{
    scenario.network().head(link)
}

/// The links that enter a node, in order of number.
#[inline]
#[tactic(auto, unfolding(crate::specs::Setting::setting_of))]
pub fn in_links(scenario: &Scenario, node: NodeId) -> &[LinkId]
    requires { IsNode scenario.now node.0 }
    ensures count { length result.now ≡ (setting_of scenario.now).ins node.0 }
    ensures few { length result.now ≤ 4 }
    ensures links { (i : ℕ) → i < length result.now
        → slice_index (map (λ link. link.0) result.now) i
        ≡ (setting_of scenario.now).in_link node.0 i }
    ensures there { All (λ link. IsLink scenario.now link.0) result.now }
{
    scenario.network().in_links(node)
}

/// The links that leave a node, in order of number.
#[inline]
#[tactic(auto, unfolding(crate::specs::Setting::setting_of))]
pub fn out_links(scenario: &Scenario, node: NodeId) -> &[LinkId]
    requires { IsNode scenario.now node.0 }
    ensures count { length result.now ≡ (setting_of scenario.now).outs node.0 }
    ensures few { length result.now ≤ 4 }
    ensures links { (j : ℕ) → j < length result.now
        → slice_index (map (λ link. link.0) result.now) j
        ≡ (setting_of scenario.now).out_link node.0 j }
    ensures there { All (λ link. IsLink scenario.now link.0) result.now }
{
    scenario.network().out_links(node)
}

/// Free-flow time and wave time, capacity and storage of a link.
#[inline]
#[tactic(auto, unfolding(crate::specs::Setting::setting_of))]
pub fn limits(scenario: &Scenario, link: LinkId) -> Limits
    requires { IsLink scenario.now link.0 }
    ensures free_time { result.free_ms ≡ (setting_of scenario.now).free_time link.0 }
    ensures wave_time { result.wave_ms ≡ (setting_of scenario.now).wave_time link.0 }
    ensures capacity { (t : ℕ) → capacity_in result t ≡ (setting_of scenario.now).capacity link.0 t }
    ensures storage { result.storage ≡ (setting_of scenario.now).storage link.0 }
    ensures small_free_time { result.free_ms ≤ longest_time }
    ensures small_wave_time { result.wave_ms ≤ longest_time }
    ensures small_storage { result.storage ≤ most_on_link }
    ensures small_capacity { result.capacity ≤ most_in_slot }
    ensures rest { result.rest < result.whole }
{
    limits_in_range();
    let _diagram = scenario.diagram(link);
    scenario.limits(link)
}

/// The most that enters or leaves a link in a slot by its diagram, in units.
#[inline]
pub fn capacity(scenario: &Scenario, link: LinkId, slot: u32) -> u64
    requires { IsLink scenario.now link.0 }
    ensures { result ≡ (setting_of scenario.now).capacity link.0 slot }
{
    limits(scenario, link).capacity_at(slot)
}

/// Free-flow time and wave time of a link, counted in slots.
#[inline]
#[tactic(auto, unfolding(crate::specs::Setting::setting_of))]
pub fn delays(scenario: &Scenario, link: LinkId) -> Delays
    requires { IsLink scenario.now link.0 }
    ensures free { IsDelay (setting_of scenario.now).step
        ((setting_of scenario.now).free_time link.0) result.free }
    ensures wave { IsDelay (setting_of scenario.now).step
        ((setting_of scenario.now).wave_time link.0) result.wave }
{
    let _diagram = scenario.diagram(link);
    let _limits = scenario.limits(link);
    scenario.delays(link)
}

/// The most that enters a link in a slot, in units.
#[inline]
#[tactic(auto, unfolding(crate::specs::Setting::setting_of))]
pub fn entry_limit(scenario: &Scenario, link: LinkId, slot: u32) -> u64
    requires link { IsLink scenario.now link.0 }
    requires slot { IsSlot scenario.now slot }
    ensures { result ≡ (setting_of scenario.now).entry_limit link.0 slot }
{
    scenario.entry_limit(link, slot).0
}

/// The most that leaves a link in a slot, in units.
#[inline]
#[tactic(auto, unfolding(crate::specs::Setting::setting_of))]
pub fn exit_limit(scenario: &Scenario, link: LinkId, slot: u32) -> u64
    requires link { IsLink scenario.now link.0 }
    requires slot { IsSlot scenario.now slot }
    ensures { result ≡ (setting_of scenario.now).exit_limit link.0 slot }
{
    scenario.exit_limit(link, slot).0
}

/// Which destination a node is, if it is one.
#[inline]
#[tactic(auto, unfolding(crate::specs::Setting::setting_of))]
pub fn destination_at(scenario: &Scenario, node: NodeId) -> Option<u32>
    ensures place { result ≡ (setting_of scenario.now).own node.0 }
    ensures there { IfSome result (λ place. IsDestination scenario.now place) }
{
    scenario.destination_at(node)
}

/// What a node has produced of a destination by a boundary, in units.
#[inline]
pub fn produced(scenario: &Scenario, node: NodeId, destination: u32, boundary: u32) -> u64
    ensures value { result ≡ (setting_of scenario.now).produced node.0 destination boundary }
    ensures small { result ≤ most_produced }
{
    let mut near = 0;
    produced_near(scenario, node, destination, boundary, &mut near)
}

/// The same, for calls one after another in the order of their destinations, with `near` as `Demand::by_end_near` has it: 0 to
/// begin with.
#[inline]
#[tactic(auto, unfolding(crate::specs::Setting::setting_of))]
pub fn produced_near(
    scenario: &Scenario,
    node: NodeId,
    destination: u32,
    boundary: u32,
    near: &mut usize,
) -> u64
    ensures value { result ≡ (setting_of scenario.now).produced node.0 destination boundary }
    ensures small { result ≤ most_produced }
{
    if boundary == 0 {
        return 0;
    }
    production_never_falls();
    let demand = scenario.demand();
    let _rows = demand.rows();
    demand.by_end_near(node, destination, boundary - 1, near).0
}

/// What a node has produced of each destination by a boundary, in units: a number for each, and 0 for those past the end. `None`
/// in a case that keeps no history.
#[inline]
#[tactic(auto, unfolding(crate::specs::Setting::setting_of))]
pub fn produced_row(scenario: &Scenario, node: NodeId, boundary: u32) -> Option<&[u64]>
    ensures history { is_some result ≡ scenario.now.setup.history }
    ensures row { IfSome result (λ row. (d : ℕ) → slice_index row.now d
        ≡ (setting_of scenario.now).produced node.0 d boundary) }
{
    if !scenario.setup().history {
        return None;
    }
    if boundary == 0 {
        return Some(&[]);
    }
    scenario.demand().row_by_end(node, boundary - 1)
}

/// What a node has produced of all destinations together by a boundary, in units.
#[inline]
#[tactic(auto, unfolding(crate::specs::Setting::setting_of))]
pub fn produced_total(scenario: &Scenario, node: NodeId, boundary: u32) -> u64
    ensures value { result
        ≡ total (setting_of scenario.now).destinations
        ((setting_of scenario.now).produced node.0) boundary }
    ensures small { result ≤ most_produced }
{
    production_never_falls();
    destinations_add_up();
    let _setup = scenario.setup();
    if boundary == 0 {
        return 0;
    }
    scenario.demand().origin_by_end(node, boundary - 1).0
}

/// The weights in force at a node for a destination in a slot, one for each out-link in order; none where no split row is
/// in force, and then all are 0. Their sum and the first two out-links that have one are read from them.
#[inline]
#[tactic(auto, unfolding(crate::specs::Setting::setting_of))]
pub fn weights(scenario: &Scenario, node: NodeId, destination: u32, slot: u32) -> Option<&Weights>
    ensures some { IfSome result (λ weights. (j : ℕ)
        → slice_index weights.now j ≡ (setting_of scenario.now).weight node.0 destination slot j) }
    ensures count { IfSome result (λ weights. length weights.now
        ≡ (setting_of scenario.now).outs node.0) }
    ensures none { result ≡ None → (j : ℕ)
        → (setting_of scenario.now).weight node.0 destination slot j ≡ 0 }
{
    let _setup = scenario.setup();
    scenario.splits().weights_at(node, destination, slot)
}

/// The slot until which the weights in force at a node for a destination in a slot stay in force: the first slot of the next
/// split row, or the greatest number where no row follows.
#[tactic(auto, unfolding(crate::specs::Setting::setting_of))]
pub fn weights_stay(scenario: &Scenario, node: NodeId, destination: u32, slot: u32) -> u32
    ensures stay { (t j : ℕ) → slot ≤ t → t < result → (setting_of scenario.now).weight node.0 destination t j
        ≡ (setting_of scenario.now).weight node.0 destination slot j }
    ensures later { slot < 2 ^ 32 - 1 → slot < result }
{
    scenario.splits().stays_until(node, destination, slot)
}
