//! - **What it is**: what a loading without history begins with, before its first slot: the lists of destinations of the links
//!   and nodes, totals and mails of nothing (`tables_of`), and the nodes, with nothing on any link and nothing gone from any
//!   origin (`nodes_of`). Both are those of the one loading at its beginning.
//! - **On what it stands**: `ltm_lean` for what is kept of a node, `ltm_used` for lists of destinations, `ltm_lean_node` for
//!   places of one list in another, and `ltm_totals` and `ltm_standing` for what is empty.
//! - **What a call costs**: `tables_of` what the lists cost, and a number for each link and boundary, twice. `nodes_of` one walk
//!   along the lists at both ends of each link. Both take memory, for all that the loading keeps but the rows that grow.
//! - **When to change it here**: where something more is to stand before the first slot.
#![tactic(auto)]

mod incoming;
mod lists;
mod nodes;
mod outgoing;
mod tables;
mod widest;

pub use nodes::nodes_of;
pub use tables::tables_of;
pub use widest::widest_listed;
