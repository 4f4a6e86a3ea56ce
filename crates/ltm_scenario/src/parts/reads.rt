//! What edits ask of the parts, as a scenario does.
ghost use Rattle.std.specs.Prelude.{◌≡◌, ℕ, ◌+◌, ◌*◌, ◌<◌, ◌≤◌, ◌==◌, List, All, length, map, false, take, sum, Some, None, IfSome, if◌then◌else◌};
ghost use Rattle.std.specs.List.{list_all, zip};
ghost use Rattle.ltm_network.specs.Network.{out_links};
ghost use Rattle.ltm_scenario.specs.Reads.{has_no_out_link, has_split};
ghost use Rattle.ltm_scenario.specs.Cells.{width, widths, cells_with, cells_of, has_room};
ghost use Rattle.ltm_scenario.specs.Valid.{leads_on};
ghost use Rattle.ltm_scenario.specs.Build.{are_slots};
ghost use Rattle.ltm_scenario.specs.Edits.{is_out_link, weight_of, weights_at};
ghost use Rattle.ltm_scenario.specs.Parts.{scenario_in};
ghost use Rattle.ltm_units.specs.Bounds.{most_links, most_nodes, most_destinations, widest_row};

use crate::parts::Parts;
use ltm_splits::Weights as RowWeights;
use ltm_units::{LinkId, Name, NodeId};

/// The weight of the link of that name, 0 where it is not named.
fn weight_of(weights: &[(Name, u32)], name: &Name) -> u32
    ensures { result ≡ weight_of weights.now name.now }
{
    let Some((weight, others)) = weights.split_first() else {
        return 0;
    };
    if weight.0 == *name {
        return weight.1;
    }
    weight_of(others, name)
}

impl Parts {
    pub fn has_no_out_link(&self, node: NodeId) -> bool
        requires { node.0 < length (scenario_in self.now).network.nodes }
        ensures { result ≡ has_no_out_link (scenario_in self.now) node.0 }
    {
        self.network.out_links(node).is_empty()
    }

    pub fn are_slots(&self, from: u32, to: u32) -> bool
        ensures { result ≡ are_slots (scenario_in self.now) from to }
    {
        from < to && to <= self.setup.slots
    }

    /// Whether all weights are those of out-links of the node.
    pub fn are_out_links(&self, node: NodeId, weights: &[(Name, u32)]) -> bool
        ensures { result ≡ list_all (λ w. is_out_link
            (scenario_in self.now) node.0 w.0) weights.now }
    {
        weights
            .iter()
            .all(|weight| self.is_out_link(node, &weight.0))
    }

    fn is_out_link(&self, node: NodeId, name: &Name) -> bool
        ensures { result ≡ is_out_link (scenario_in self.now) node.0 name.now }
    {
        let network = &self.network;
        match network.find_link(name) {
            Some(link) => network.tail(link).0 == node.0,
            None => false,
        }
    }

    /// A weight for each out-link of the node, in order of link number, and how many these are.
    fn named_row(&self, node: NodeId, weights: &[(Name, u32)]) -> ([u32; 4], usize)
        requires { node.0 < length (scenario_in self.now).network.nodes }
        ensures row { take result.1 result.0
            ≡ weights_at (scenario_in self.now) node.0 weights.now }
        ensures each { result.1 ≡ length (out_links (scenario_in self.now).network node.0) }
        ensures few { result.1 ≤ 4 }
    {
        let network = &self.network;
        let links = network.out_links(node);
        let mut row = [0u32; 4];
        let mut count: usize = 0;
        'each: for link in links {
            let name = network.link_name(*link);
            row[count] = weight_of(weights, &name);
            count += 1;
        }
        (row, count)
    }

    /// A weight for each out-link of the node, in order of link number, where they are not all 0.
    pub fn weights_at(&self, node: NodeId, weights: &[(Name, u32)]) -> Option<RowWeights>
        requires { node.0 < length (scenario_in self.now).network.nodes }
        ensures weights { let row = weights_at (scenario_in self.now) node.0 weights.now in
            result ≡ (if sum row == 0 then None else Some row) }
        ensures each { IfSome result (λ row. length row
            ≡ length (out_links (scenario_in self.now).network node.0)) }
    {
        let (row, count) = self.named_row(node, weights);
        RowWeights::of(&row[..count])
    }

    /// Whether the node and the destination have a split row.
    #[tactic(auto, using(crate::proofs::Found::begins_tells))]
    pub fn has_split(&self, node: NodeId, destination: u32) -> bool
        ensures { result ≡ has_split (scenario_in self.now).splits node.0 destination }
    {
        self.splits.begins(node, destination).is_some()
    }

    /// Whether a link with that weight leads on to the destination.
    pub fn leads_on(&self, destination: u32, link: LinkId, weight: u32) -> bool
        requires destination { destination < length (scenario_in self.now).destinations }
        requires link { link.0 < length (scenario_in self.now).network.links }
        ensures { result ≡ leads_on (scenario_in self.now) destination link.0 weight }
    {
        if weight == 0 {
            return true;
        }
        let head = self.network.head(link);
        head.0 == self.destinations.node(destination).0 || self.has_split(head, destination)
    }

    /// Whether all links lead on with these weights.
    pub fn all_lead_on(&self, destination: u32, links: &[LinkId], weights: &[u32]) -> bool
        requires destination { destination < length (scenario_in self.now).destinations }
        requires links { All (λ link. link.0 < length
            (scenario_in self.now).network.links) links.now }
        ensures { result ≡ list_all (λ p. leads_on (scenario_in self.now) destination p.0 p.1)
            (zip (map (λ link. link.0) links.now) weights.now) }
    {
        let Some((link, other_links)) = links.split_first() else {
            return true;
        };
        let Some((weight, other_weights)) = weights.split_first() else {
            return true;
        };
        self.leads_on(destination, *link, *weight)
            && self.all_lead_on(destination, other_links, other_weights)
    }

    /// Whether the case may have so many cells: any number where no history is kept.
    pub fn has_room(&self, cells: u128) -> bool
        ensures { result ≡ has_room (scenario_in self.now) cells }
    {
        !self.setup.history || cells <= u128::from(self.setup.most_cells)
    }

    /// How many it would have over that many slots.
    #[tactic(auto, unfolding(crate::specs::Cells::cells_with))]
    pub fn cells_with(&self, slots: u32) -> u128
        ensures { result ≡ cells_with (scenario_in self.now) slots }
    {
        let network = &self.network;
        cells_of(
            slots,
            self.widths(),
            network.links(),
            network.nodes(),
            self.destinations.len(),
        )
    }

    /// The widths of the rows of all nodes.
    #[tactic(auto, unfolding(crate::specs::Cells::widths))]
    fn widths(&self) -> u32
        ensures value { result ≡ widths (scenario_in self.now) }
        ensures small { result ≤ most_nodes * widest_row }
    {
        let mut widths = 0;
        for node in 0..self.network.nodes() {
            widths += self.width(NodeId(node));
        }
        widths
    }

    /// The width of a node's row: how many numbers a pair of the node reads.
    fn width(&self, node: NodeId) -> u32
        requires { node.0 < length (scenario_in self.now).network.nodes }
        ensures value { result ≡ width (scenario_in self.now) node.0 }
        ensures small { result ≤ widest_row }
    {
        let network = &self.network;
        let ins = network.in_links(node).len() as u32;
        let outs = network.out_links(node).len() as u32;
        let arms = if outs == 0 { ins } else { ins + 1 };
        width_of(arms, outs, self.destinations.len())
    }
}

/// How many numbers a pair reads at a node with that many arms and out-links.
#[tactic(auto, using(crate::proofs::Bounds::product_le))]
fn width_of(arms: u32, outs: u32, destinations: u32) -> u32
    requires arms { arms ≤ 5 }
    requires outs { outs ≤ 4 }
    requires destinations { destinations ≤ most_destinations }
    ensures value { result ≡ 2 * arms * destinations + 2 * outs * destinations + 1 + outs + arms }
    ensures small { result ≤ widest_row }
{
    2 * arms * destinations + 2 * outs * destinations + 1 + outs + arms
}

/// The cells of a case of that shape.
fn cells_of(slots: u32, widths: u32, links: u32, nodes: u32, destinations: u32) -> u128
    requires nodes { nodes ≤ most_nodes }
    requires links { links ≤ most_links }
    ensures { result ≡ cells_of slots widths links nodes destinations }
{
    let rows = slots as u128 * widths as u128;
    let groups = 2 * links as u128 + nodes as u128 + 1;
    let counts = 2 * (slots as u128 + 1) * groups * destinations as u128;
    rows + counts + 2 * links as u128 * slots as u128
}
