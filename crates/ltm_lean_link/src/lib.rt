//! - **What it is**: a link's half of a slot in a loading without history. At its head: what entered it in the slot before is
//!   taken in, what it sends is written by place in the list of the node, and what left it is taken away. At its tail: what
//!   entered it is written by place in its own list. The numbers are those of the one loading.
//! - **On what it stands**: `ltm_standing` for what stands on a link, `ltm_totals` for how much may leave it, and
//!   `ltm_lean_node` for places of one list in another.
//! - **What a call costs**: one pass over the destinations of the link, and `send_listed` one over the list of the node. Only
//!   `take_in_last` takes memory.
//! - **When to change it here**: where a link and the nodes at its ends are to tell each other in another way.
#![tactic(auto)]

mod gather;
mod moves;
mod send;

pub use moves::{enter_listed, leave_listed};
pub use send::{send_listed, take_in_last};
