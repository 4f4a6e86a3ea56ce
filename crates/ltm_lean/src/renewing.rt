//! The weights of a node, made those in force.
ghost use Rattle.std.specs.Prelude.{◌≡◌, ◌<◌, ◌≤◌};
ghost use Rattle.ltm_setting.specs.Setting.{setting_of};
ghost use Rattle.ltm_setting.specs.Places.{IsSlot};

use crate::node::LeanNode;
use crate::tables::Tables;
use ltm_scenario::Scenario;
use ltm_units::Pair;

impl LeanNode {
    ghost use Rattle.ltm_lean.specs.Nodes.{AreTables, IsNodeAt, SameButWeights};

    /// Makes the weights of a node those in force in a slot.
    pub(crate) fn renew(&mut self, scenario: &Scenario, tables: &Tables, slot: u32)
        requires slot { IsSlot scenario.now slot }
        requires tables { AreTables (setting_of scenario.now) tables.now }
        requires node { IsNodeAt (setting_of scenario.now) tables.now self.old }
        ensures node { IsNodeAt (setting_of scenario.now) tables.now self.new }
        ensures same { SameButWeights self.old self.new }
        ensures begun { self.new.kept.from ≤ slot }
        ensures lasting { slot < self.new.kept.until }
    {
        let pair = Pair {
            node: self.node,
            slot,
        };
        let list = tables.nodes.on(self.node.0 as usize);
        self.kept.renew(scenario, pair, list);
    }
}
