//! - **What it is**: what the origin of a node sends in a slot of the destinations of a list, from what has left it: in all,
//!   and by place in the list. No earlier count is needed, since what was produced by each boundary is known. (Origins and
//!   whole units are this engine's own.)
//! - **On what it stands**: `ltm_setting` for what a node produces, `ltm_curve` for the first units of some rows, and
//!   `ltm_standing` and `ltm_thin` for lists of destinations.
//! - **What a call costs**: a few totals; where something waits, also a search for the slot in which the units were produced
//!   that may leave, and two passes over the list. No call takes memory.
//! - **When to change it here**: where what an origin sends is to be found in another way.
#![tactic(auto)]

mod listed;
mod origin;

pub use origin::origin_sends_listed;
