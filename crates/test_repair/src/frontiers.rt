//! The active pairs of a repair.

use ltm_frontier::Frontier;
use ltm_units::{NodeId, Pair};
use std::alloc::Global;

const NODES: u32 = 70;

/// Makes pairs of a slot active.
fn mark_nodes(frontier: &mut Frontier, slot: u32, nodes: &[u32]) {
    for node in nodes {
        if *node < frontier.nodes() && slot < frontier.slots() {
            frontier.mark(Pair {
                node: NodeId(*node),
                slot,
            });
        }
    }
}

/// The first of some nodes in order that is not below one.
fn first_of(nodes: &[u32], from: u32) -> Option<NodeId> {
    for node in nodes {
        if *node >= from {
            return Some(NodeId(*node));
        }
    }
    None
}

/// The first node from which the next active node of a slot is not the next of a list; none where each is.
fn first_otherwise(frontier: &Frontier, slot: u32, nodes: &[u32]) -> Option<u32> {
    if slot >= frontier.slots() {
        return Some(u32::MAX);
    }
    for from in 0..NODES + 3 {
        if frontier.next_active(slot, NodeId(from)) != first_of(nodes, from) {
            return Some(from);
        }
    }
    None
}

/// Makes nodes of a slot active: the first node from which another is found, and the front.
fn marked(frontier: &mut Frontier, slot: u32, nodes: &[u32]) -> (Option<u32>, Option<u32>) {
    mark_nodes(frontier, slot, nodes);
    (first_otherwise(frontier, slot, nodes), frontier.front())
}

/// What is found of two slots one after another, and the front before them.
type Fronts = (Option<u32>, [(Option<u32>, Option<u32>); 2]);

fn found(alloc: Global, late: &[u32], early: &[u32]) -> Option<Fronts> {
    match Frontier::create(alloc, NODES, 3) {
        Ok(mut frontier) => {
            let front = frontier.front();
            let first = marked(&mut frontier, 2, late);
            Some((front, [first, marked(&mut frontier, 1, early)]))
        }
        Err(_) => None,
    }
}

// Two words of bits a row, and nodes on both sides of their seam.
#[test]
fn finds_active_nodes_as_a_plain_list_does(rt: HostRuntime) {
    let told = found(rt.alloc(), &[0, 1, 62, 63], &[5, 63, 64, 69]);
    let fronts = [(None, Some(2)), (None, Some(1))];
    assert_eq!(rt; told, Some((None, fronts)));
}
