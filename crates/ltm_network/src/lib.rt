//! - **What it is**: the links and nodes of a road network, by number and by name, with at most four links into a node and
//!   four out.
//! - **On what it stands**: `ltm_units` alone.
//! - **What a call costs**: a look-up by name hashes it and mostly compares one name with it; the ends of a link and the
//!   links of a node are each one read of a flat table, since a loading asks for them at every node in every slot.
//! - **When to change it here**: when a network takes other links, or numbers or finds them in another way.
#![tactic(auto)]

mod adjacent;
mod ends;
mod laws;
mod names;
mod network;
mod nodes;

pub use laws::{links_at_their_places, names_are_found, networks_stay_networks};
pub use network::{DEFAULT_LINKS, Network, NetworkFault};
