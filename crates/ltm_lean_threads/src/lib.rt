//! - **What it is**: the loading of a scenario without history, where the nodes of a slot are shared out over threads. Each node
//!   reads what all of them had by the beginning of the slot, and writes only itself, so the answer does not depend on the threads.
//! - **On what it stands**: `ltm_lean_load` for the rest of a slot, `ltm_lean_make` for what stands before the first, and `ltm_lean`
//!   for a node.
//! - **What a call costs**: as `load_lean`, with room for a node's step for each thread. In each slot the threads are started anew,
//!   which takes up to some milliseconds; where few destinations can be on the links, everything runs on one thread.
//! - **When to change it here**: where nodes are to be shared out in another way.
#![tactic(auto)]

mod load;
mod parts;
mod sharing;
mod threads;

pub use load::{load_in_threads, load_on_processors};
pub use parts::{Part, move_in_threads};
pub use sharing::parts_of;
pub use threads::{processors, threads_for};
