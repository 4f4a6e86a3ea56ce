//! The lines of a made case: its size, and the work of its repair.
ghost use Rattle.std.specs.Prelude.{◌≡◌, ◌++◌, OnOk, OnErr};
ghost use Rattle.ltm_report.specs.Made.{nodes_piece, links_piece, pairs_piece, size_line, first_recomputed_piece, solved_piece, spent_piece, work_line};

use crate::pieces::push_newline;
use ltm_units::{NoMemory, push_number, push_text};
use std::alloc::Global;

#[tactic(auto, unfolding(crate::specs::Made::nodes_piece))]
fn push_nodes(into: &mut Vec<u8>, nodes: u32) -> Result<(), NoMemory>
    ensures { OnOk result (into.new.items ≡ into.old.items ++ nodes_piece nodes) }
{
    push_number(into, b"case nodes ", u128::from(nodes))
}

#[tactic(auto, unfolding(crate::specs::Made::links_piece))]
fn push_links(into: &mut Vec<u8>, links: u32) -> Result<(), NoMemory>
    ensures { OnOk result (into.new.items ≡ into.old.items ++ links_piece links) }
{
    push_number(into, b" links ", u128::from(links))
}

#[tactic(auto, unfolding(crate::specs::Made::pairs_piece))]
fn push_pairs(into: &mut Vec<u8>, pairs: u64) -> Result<(), NoMemory>
    ensures { OnOk result (into.new.items ≡ into.old.items ++ pairs_piece pairs) }
{
    push_number(into, b" pairs ", u128::from(pairs))
}

/// Appends how many nodes, links and pairs of node and slot a case has, as `case nodes 400 links 1520 pairs 24000`.
#[tactic(auto, unfolding(crate::specs::Made::size_line))]
pub fn size_text(
    alloc: Global,
    nodes: u32,
    links: u32,
    pairs: u64,
    into: &mut Vec<u8>,
) -> Result<(), NoMemory>
    ensures ok { OnOk result (into.new.items ≡ into.old.items ++ size_line nodes links pairs) }
    ensures err { OnErr result (into.new.items ≡ into.old.items) }
{
    let mut line = Vec::new(alloc);
    push_nodes(&mut line, nodes)?;
    push_links(&mut line, links)?;
    push_pairs(&mut line, pairs)?;
    push_newline(&mut line)?;
    push_text(into, line.as_slice())
}

#[tactic(auto, unfolding(crate::specs::Made::first_recomputed_piece))]
fn push_recomputed(into: &mut Vec<u8>, recomputed: u128) -> Result<(), NoMemory>
    ensures { OnOk result (into.new.items ≡ into.old.items ++ first_recomputed_piece recomputed) }
{
    push_number(into, b"recomputed ", recomputed)
}

#[tactic(auto, unfolding(crate::specs::Made::solved_piece))]
fn push_solved(into: &mut Vec<u8>, solved: u64) -> Result<(), NoMemory>
    ensures { OnOk result (into.new.items ≡ into.old.items ++ solved_piece solved) }
{
    push_number(into, b" solved ", u128::from(solved))
}

#[tactic(auto, unfolding(crate::specs::Made::spent_piece))]
fn push_spent(into: &mut Vec<u8>, spent: u128) -> Result<(), NoMemory>
    ensures { OnOk result (into.new.items ≡ into.old.items ++ spent_piece spent) }
{
    push_number(into, b" spent ", spent)
}

/// Appends how many pairs of node and slot were computed anew, how many solves that took, and the time that all vehicles
/// spend in thousandths of a vehicle times milliseconds, as `recomputed 232 solved 232 spent 3969740000`.
#[tactic(auto, unfolding(crate::specs::Made::work_line))]
pub fn work_text(
    alloc: Global,
    recomputed: u128,
    solved: u64,
    spent: u128,
    into: &mut Vec<u8>,
) -> Result<(), NoMemory>
    ensures ok { OnOk result (into.new.items
        ≡ into.old.items ++ work_line recomputed solved spent) }
    ensures err { OnErr result (into.new.items ≡ into.old.items) }
{
    let mut line = Vec::new(alloc);
    push_recomputed(&mut line, recomputed)?;
    push_solved(&mut line, solved)?;
    push_spent(&mut line, spent)?;
    push_newline(&mut line)?;
    push_text(into, line.as_slice())
}
