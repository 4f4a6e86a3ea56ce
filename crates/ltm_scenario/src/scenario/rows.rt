//! What a row of demand or of splits asks of a scenario before it is set.
ghost use Rattle.std.specs.Prelude.{◌≡◌, ◌<◌, ◌==◌, length, sum, Some, None, IfSome, if◌then◌else◌};
ghost use Rattle.std.specs.List.{list_all};
ghost use Rattle.ltm_network.specs.Network.{out_links};
ghost use Rattle.ltm_scenario.specs.Reads.{has_no_out_link};
ghost use Rattle.ltm_scenario.specs.Build.{are_slots};
ghost use Rattle.ltm_scenario.specs.Edits.{is_out_link, weights_at};

use crate::scenario::Scenario;
use ltm_splits::Weights as RowWeights;
use ltm_units::{Name, NodeId};

impl Scenario {
    /// Whether the slots `from` to `to - 1` are some, and all of them are within the horizon.
    pub fn are_slots(&self, from: u32, to: u32) -> bool
        ensures { result ≡ are_slots self.now from to }
    {
        self.parts.are_slots(from, to)
    }

    /// Whether no link leaves the node; then no traffic starts at it.
    pub fn has_no_out_link(&self, node: NodeId) -> bool
        requires { node.0 < length self.now.network.nodes }
        ensures { result ≡ has_no_out_link self.now node.0 }
    {
        self.parts.has_no_out_link(node)
    }

    /// Whether each weight is that of an out-link of the node.
    pub fn are_out_links(&self, node: NodeId, weights: &[(Name, u32)]) -> bool
        ensures { result ≡ list_all (λ w. is_out_link self.now node.0 w.0) weights.now }
    {
        self.parts.are_out_links(node, weights)
    }

    /// A weight for each out-link of the node, in order of link number: that of the link's name, 0 where it is not named. None
    /// where they are all 0.
    pub fn weights_at(&self, node: NodeId, weights: &[(Name, u32)]) -> Option<RowWeights>
        requires { node.0 < length self.now.network.nodes }
        ensures weights { let row = weights_at self.now node.0 weights.now in result
            ≡ (if sum row == 0 then None else Some row) }
        ensures each { IfSome result (λ row. length row
            ≡ length (out_links self.now.network node.0)) }
    {
        self.parts.weights_at(node, weights)
    }
}
