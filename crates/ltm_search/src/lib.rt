//! - **What it is**: the search for earliest arrivals over links (Dijkstra 1959), where who comes to a link later leaves it no
//!   sooner.
//! - **On what it stands**: `ltm_units`. What the links are is told by a type of the caller's (`Links`).
//! - **What a call costs**: about `(links + nodes) log nodes` steps, and whatever it takes to pass each link once. The tables of
//!   a search are taken once; the heap of nodes that wait grows as is needed.
//! - **When to change it here**: when arrivals are to be found in another order, or fewer of them.
#![tactic(auto)]

mod links;
mod search;

pub use links::Links;
pub use search::Search;
