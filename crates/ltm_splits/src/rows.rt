//! Going over the rows of a table.
ghost use Rattle.std.specs.Prelude.{◌≡◌, List};
ghost use Rattle.std.specs.Iterator.{YieldsFirstBy, item_count};

use crate::keys::SplitKey;
use crate::node_rows::NodeRows;
use crate::pair_rows::PairRows;
use crate::weights::Weights;
use ltm_units::NodeId;
use std::marker::Model;

/// The keys and weights of a table in the order of the keys, seen as the list of those that are left.
#[derive(Drop)]
pub struct Rows<'a> {
    node: NodeId,
    destination: u32,
    // What is left of the rows of this node and destination.
    rows: &'a [(u32, Weights)],
    // What is left of the node's lists, the first of which is that of `next_destination`.
    pairs: &'a [PairRows],
    next_destination: usize,
    // What is left of the nodes, the first of which is `next_node`.
    nodes: &'a [NodeRows],
    next_node: usize,
}

impl<'a> Model for Rows<'a> {
    ghost use Rattle.std.specs.Prelude.{ℕ, ◌+◌, ◌≤◌, ◌^◌, List, length};
    ghost use Rattle.ltm_splits.specs.Rows.{SplitRow};
    ghost use Rattle.ltm_splits.specs.Table.{rows_left};

    ghost Value = { List SplitRow };

    ghost view = { λ r. rows_left r.node.0 r.destination r.rows.now r.next_destination r.pairs.now r.next_node r.nodes.now };

    ghost invariant = { λ r. (r.next_destination + length r.pairs.now ≤ 2 ^ 32) × (r.next_node + length r.nodes.now ≤ 2 ^ 32) };
}

impl<'a> Rows<'a> {
    ghost use Rattle.std.specs.Prelude.{◌≤◌, ◌^◌, length};
    ghost use Rattle.ltm_splits.specs.Table.{rows_of_all};

    /// All rows of the nodes.
    pub(crate) fn of(nodes: &'a [NodeRows]) -> Rows<'a>
        requires { length nodes.now ≤ 2 ^ 32 }
        ensures { result ≡ rows_of_all nodes.now }
    {
        Rows {
            node: NodeId(0),
            destination: 0,
            rows: &[],
            pairs: &[],
            next_destination: 0,
            nodes,
            next_node: 0,
        }
    }
}

impl<'a> Iterator for Rows<'a> {
    type Item = (SplitKey, &'a [u32]);

    ghost next_gives = { YieldsFirstBy (λ row. (row.0, row.1.now)) (λ rest. rest) };

    ghost remaining = { item_count (λ rest. rest) };

    fn next(&mut self) -> Option<(SplitKey, &'a [u32])> {
        'lists: loop {
            if let Some((row, rest)) = self.rows.split_first() {
                self.rows = rest;
                let key = SplitKey {
                    node: self.node,
                    destination: self.destination,
                    from: row.0,
                };
                return Some((key, row.1.as_slice()));
            }
            if let Some((pair, rest)) = self.pairs.split_first() {
                self.rows = pair.rows();
                self.destination = self.next_destination as u32;
                self.pairs = rest;
                self.next_destination += 1;
            } else if let Some((node, rest)) = self.nodes.split_first() {
                self.pairs = node.pairs();
                self.next_destination = 0;
                self.node = NodeId(self.next_node as u32);
                self.nodes = rest;
                self.next_node += 1;
            } else {
                return None;
            }
        }
    }
}
