//! - **What it is**: a node in a slot of a loading without history: what the links into it and its origin send, what its
//!   out-links can take, what moves there of the destinations of its list, and what leaves the links into it and its origin and
//!   enters the links out of it. The numbers are those of the one loading.
//! - **On what it stands**: `ltm_lean_node` for the node step over a list, `ltm_lean_link` for a link's half of a slot,
//!   `ltm_origin` for what an origin sends, `ltm_totals` for what a link can take, `ltm_used` for lists of destinations, and
//!   `ltm_existence`, since what the arms send is within their capacities in the one loading alone.
//! - **What a call costs**: one pass over the destinations of each link and over what the arms send, and the node step where
//!   they send something. `Mail::none` and `NodeRoom::create` take memory, and so does what a link takes in.
//! - **When to change it here**: where what is kept of a node from slot to slot is to be kept in another way.
#![tactic(auto)]

mod in_links;
mod incoming;
mod leaving;
mod mail;
mod node;
mod origin;
mod outgoing;
mod own;
mod passing;
mod renewing;
mod resting;
mod room;
mod slot;
mod step;
mod tables;
mod takes;

pub use incoming::Incoming;
pub use mail::Mail;
pub use node::LeanNode;
pub use outgoing::Outgoing;
pub use own::own_place;
pub use room::NodeRoom;
pub use tables::Tables;
