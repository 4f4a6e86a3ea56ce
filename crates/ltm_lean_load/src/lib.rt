//! - **What it is**: the loading of a scenario without history. In each slot all nodes move, and then what moved is published, so
//!   that all of them read it in the next: what had entered and left each link, and what entered it in the slot. What links and
//!   origins come to is kept by boundary; it is all that reports of a loading read.
//! - **On what it stands**: `ltm_lean_make` for what stands before the first slot, `ltm_lean` for a node in a slot,
//!   `ltm_lean_kept` for what is kept, and `ltm_flows` for the loading that others read.
//! - **What a call costs**: a loading takes memory for the destinations that can be on each link, for what stands there, and for
//!   the totals by boundary. Publishing costs a few numbers for each link; all else is the slots of the nodes.
//! - **When to change it here**: where nodes are to meet between slots in another way.
#![tactic(auto)]

mod choice;
mod load;
mod mails;
mod passed;
mod publishing;
mod slots;

pub use choice::is_better_lean;
pub use load::load_lean;
pub use publishing::publish;
pub use slots::{all_slots, move_nodes};
