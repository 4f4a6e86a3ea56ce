//! The weights of a node, kept for as long as they stay in force.
ghost use Rattle.std.specs.Prelude.{◌≡◌, ◌<◌, ◌≤◌, length, IfOk};
ghost use Rattle.ltm_setting.specs.Setting.{setting_of};
ghost use Rattle.ltm_setting.specs.Places.{IsNode, IsSlot};

use crate::weights::{put_weights, stay_until};
use ltm_scenario::Scenario;
use ltm_setting::out_links;
use ltm_units::{NoMemory, Pair};
use std::alloc::Global;

/// The weights of a node for the destinations of a list, one destination after another: those in force in the slots from
/// `from` on and below `until`.
#[derive(Drop)]
pub struct NodeWeights {
    pub from: u32,
    pub until: u32,
    pub weights: Vec<u32>,
}

impl NodeWeights {
    ghost use Rattle.ltm_lean_node.specs.Kept.{AreKept};

    /// Room for so many weights, in force in no slot yet.
    pub fn none(alloc: Global, many: usize) -> Result<NodeWeights, NoMemory>
        ensures wide { IfOk result (λ kept. length kept.weights.items ≡ many) }
        ensures none { IfOk result (λ kept. kept.until ≡ 0) }
    {
        let weights = vec![in alloc; 0u32; many].map_err(|_| NoMemory)?;
        Ok(NodeWeights {
            from: 0,
            until: 0,
            weights,
        })
    }

    /// Looks the weights up, and until when they stay in force.
    fn look_up(&mut self, scenario: &Scenario, pair: Pair, list: &[u32])
        requires node { IsNode scenario.now pair.node.0 }
        requires slot { IsSlot scenario.now pair.slot }
        requires kept { AreKept (setting_of scenario.now) pair.node.0 list.now self.old }
        ensures kept { AreKept (setting_of scenario.now) pair.node.0 list.now self.new }
        ensures begun { self.new.from ≤ pair.slot }
        ensures lasting { pair.slot < self.new.until }
    {
        let outs = out_links(scenario, pair.node).len();
        put_weights(scenario, pair, outs, list, &mut self.weights);
        self.until = stay_until(scenario, pair, list);
        self.from = pair.slot;
    }

    /// Makes them the weights in force in a slot. They are looked up anew only where they are not.
    pub fn renew(&mut self, scenario: &Scenario, pair: Pair, list: &[u32])
        requires node { IsNode scenario.now pair.node.0 }
        requires slot { IsSlot scenario.now pair.slot }
        requires kept { AreKept (setting_of scenario.now) pair.node.0 list.now self.old }
        ensures kept { AreKept (setting_of scenario.now) pair.node.0 list.now self.new }
        ensures begun { self.new.from ≤ pair.slot }
        ensures lasting { pair.slot < self.new.until }
    {
        if self.from > pair.slot || pair.slot >= self.until {
            self.look_up(scenario, pair, list);
        }
    }
}
