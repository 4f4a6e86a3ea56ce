//! - **What it is**: the least free-flow times from each node to a destination, the split rows that send traffic along the
//!   routes that take them, and a test of such times that looks at links alone.
//! - **On what it stands**: `ltm_scenario`, of which it reads the network and the diagrams, and to which it adds split rows;
//!   `ltm_search` for the search.
//! - **What a call costs**: the routes to a destination cost about `(links + nodes) log nodes` steps, and memory for a heap and
//!   two tables; `verify` passes over the links and nodes once and takes no memory.
//! - **For callers outside**: `verify`, and `set_routes` for a scenario some of whose nodes have no split row; the program's
//!   `routes` finds all routes first, and then writes or sets them.
//! - **When to change it here**: when routes go by another time, or when traffic is shared among them in another way.
#![tactic(auto)]

mod faults;
mod found;
mod laws;
mod potentials;
mod roads;
mod search;
mod set_rows;

pub use faults::RoutesFault;
pub use found::{Routes, all_routes};
pub use laws::{all_are_missing, routes_are_one, routes_are_there, routes_settle, routes_stand};
pub use potentials::verify;
pub use set_rows::{is_routed, set_all, set_routes};
