//! - **What it is**: the destinations that can ever be on a link: those that an origin with demand for them reaches by
//!   weights above 0 (`used_destinations`). Nothing else is ever counted on the link (`nothing_else`), so a loading needs to
//!   know of no other; and from these those that can be at a node (`node_destinations`). What goes on from a link for a
//!   destination is found by a list of what waits to be looked at, over flat tables.
//! - **On what it stands**: `ltm_setting`, for what a loading reads of a scenario, and `ltm_standing`, for what a list of a
//!   link's destinations is to be.
//! - **What a call costs**: a law costs nothing; `used_destinations` looks at each split row, and once at each node and
//!   destination and at each link and destination that is found. It takes 2 bytes for each link and destination while it
//!   runs, and 4 bytes for each that is found.
//! - **When to change it here**: where what a link can carry is to be known more narrowly.
#![tactic(auto)]

mod closing;
mod found;
mod laws;
mod leading;
mod listed;
mod nodes;
mod roots;
mod used;

pub use found::Found;
pub use laws::{found_are_closed, nothing_else};
pub use listed::used_destinations;
pub use nodes::node_destinations;
pub use used::Used;
