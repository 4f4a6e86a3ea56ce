//! The grid of a made case: its nodes stand in rows, the last of which may be shorter, and roads lead both ways between
//! neighbours.
//!
//! ```text
//!     x0 - x1 - x2
//!     |    |    |       8 nodes, 3 to a row
//!     x3 - x4 - x5
//!     |    |
//!     x6 - x7
//! ```
ghost use Rattle.std.specs.Prelude.{◌≡◌, ◌+◌, ◌*◌, ◌<◌, ◌≤◌, ◌++◌, IfOk, OnOk};
ghost use Rattle.ltm_make.specs.Grid.{IsWidth, both_ways, roads};

use ltm_units::NoMemory;
use std::alloc::Global;

/// How many nodes a grid has, and how many stand in a row.
#[derive(Clone, Copy)]
pub(crate) struct Grid {
    pub(crate) nodes: u32,
    pub(crate) width: u32,
}

/// A road from one node of the grid to a neighbour, by their numbers.
#[derive(Clone, Copy)]
pub(crate) struct Road {
    pub(crate) from: u32,
    pub(crate) to: u32,
}

/// How many nodes stand in a row: the least number whose square is no less than that of the nodes.
pub(crate) fn width_of(nodes: u32) -> u32
    requires { nodes ≤ 400 }
    ensures width { IsWidth nodes result }
    ensures few { result ≤ 20 }
{
    let mut width = 0;
    while width * width < nodes {
        width += 1;
    }
    width
}

/// Puts the roads between two nodes last, one each way.
fn push_both(into: &mut Vec<Road>, from: u32, to: u32) -> Result<(), NoMemory>
    ensures { OnOk result (into.new.items ≡ into.old.items ++ both_ways from to) }
{
    into.push(Road { from, to })?;
    into.push(Road { from: to, to: from })?;
    Ok(())
}

/// The roads of a grid, in the order of the nodes that they join: first to the right, then down.
pub(crate) fn roads_of(alloc: Global, nodes: u32, width: u32) -> Result<Vec<Road>, NoMemory>
    requires some { 1 ≤ width }
    requires few { nodes ≤ 400 }
    requires narrow { width ≤ 20 }
    ensures { IfOk result (λ list. list.items ≡ roads nodes width nodes) }
{
    let mut list = Vec::new(alloc);
    for node in 0..nodes {
        if node % width + 1 < width && node + 1 < nodes {
            push_both(&mut list, node, node + 1)?;
        }
        if node + width < nodes {
            push_both(&mut list, node, node + width)?;
        }
    }
    Ok(list)
}
