//! The weights of split rows: which neighbours a row leads to, and what is drawn for them.
ghost use Rattle.std.specs.Prelude.{◌≡◌, ◌+◌, ◌<◌, ◌≤◌, ℕ, IfOk, OnOk, Some, length, map};
ghost use Rattle.ltm_network.specs.Names.{place_of};
ghost use Rattle.ltm_network.specs.Network.{NetworkData, head_of, out_links};
ghost use Rattle.ltm_make.specs.Names.{name_of_node};
ghost use Rattle.ltm_make.specs.Branches.{number, weight_of, words_after, weight_to, nearer, home_first, home_second, away_first, away_second};

use crate::grid::Grid;
use crate::names::node_name;
use crate::words::draw;
use ltm_network::Network;
use ltm_units::{NoMemory, NodeId};
use rand_pcg::Pcg32;
use std::alloc::Global;

/// A neighbour that a split row leads to. Its weight is the least one and, where there are choices, what is drawn.
#[derive(Clone, Copy)]
pub(crate) struct Branch {
    pub(crate) to: u32,
    pub(crate) least: u32,
    pub(crate) choices: u32,
}

/// A node that a split row leads to, and the weight of its link.
#[derive(Clone, Copy)]
pub(crate) struct Way {
    pub(crate) node: NodeId,
    pub(crate) weight: u32,
}

/// A neighbour to the left or above, with a drawn weight of 1 to 3.
fn nearer(to: u32) -> Branch
    ensures { result ≡ nearer to }
{
    Branch {
        to,
        least: 1,
        choices: 3,
    }
}

/// Where a node's split row leads towards the first node.
pub(crate) fn home_of(grid: Grid, node: u32) -> (Branch, Option<Branch>)
    requires some { 1 ≤ grid.width }
    requires away { 0 < node }
    ensures first { result.0 ≡ home_first grid.width node }
    ensures second { result.1 ≡ home_second grid.width node }
{
    if node % grid.width == 0 {
        return (nearer(node - grid.width), None);
    }
    if node < grid.width {
        return (nearer(node - 1), None);
    }
    (nearer(node - 1), Some(nearer(node - grid.width)))
}

/// Where a node's split row leads towards the end of the first row.
pub(crate) fn away_of(grid: Grid, node: u32) -> (Branch, Option<Branch>)
    requires some { 1 ≤ grid.width }
    requires narrow { grid.width ≤ 20 }
    requires there { node < grid.nodes }
    ensures first { result.0 ≡ away_first grid.width node }
    ensures second { result.1 ≡ away_second grid.nodes grid.width node }
{
    if node < grid.width {
        let right = Branch {
            to: node + 1,
            least: 1,
            choices: 0,
        };
        return (right, None);
    }
    if node % grid.width + 1 < grid.width && node + 1 < grid.nodes {
        let right = Branch {
            to: node + 1,
            least: 0,
            choices: 3,
        };
        return (nearer(node - grid.width), Some(right));
    }
    (nearer(node - grid.width), None)
}

/// The node of the grid with that number.
pub(crate) fn node_at(alloc: Global, network: &Network, node: u32) -> Result<NodeId, NoMemory>
    requires { place_of network.now.nodes (name_of_node node) ≡ Some (number network.now node) }
    ensures number { IfOk result (λ found. found.0 ≡ number network.now node) }
    ensures there { IfOk result (λ found. found.0 < length network.now.nodes) }
{
    let name = node_name(alloc, node)?;
    match network.find_node(&name) {
        Some(found) => Ok(found),
        None => unreachable!(),
    }
}

/// The weight of a branch; a word is drawn where it has choices.
pub(crate) fn draw_weight(words: &mut Pcg32, branch: Branch) -> u32
    requires least { branch.least ≤ 1 }
    requires few { branch.choices ≤ 3 }
    ensures weight { result ≡ weight_of branch words.old }
    ensures words { words.new ≡ words_after branch words.old }
{
    if branch.choices == 0 {
        return branch.least;
    }
    branch.least + draw(words, branch.choices)
}

/// The weight of a link that ends at a node: that of the first way that leads there, else 0.
fn weight_to(first: Way, second: Option<Way>, node: NodeId) -> u32
    ensures { result ≡ weight_to first second node.0 }
{
    if first.node == node {
        return first.weight;
    }
    match second {
        Some(way) if way.node == node => way.weight,
        _ => 0,
    }
}

/// The weights of the links that leave a node, in order of link number.
pub(crate) fn weights_of(
    alloc: Global,
    network: &Network,
    node: NodeId,
    first: Way,
    second: Option<Way>,
) -> Result<Vec<u32>, NoMemory>
    requires { node.0 < length network.now.nodes }
    ensures { IfOk result (λ weights. weights.items
        ≡ map (λ link. weight_to first second (head_of network.now link))
        (out_links network.now node.0)) }
{
    let mut weights = Vec::new(alloc);
    for link in network.out_links(node) {
        weights.push(weight_to(first, second, network.head(*link)))?;
    }
    Ok(weights)
}
