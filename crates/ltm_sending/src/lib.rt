//! - **What it is**: what a link and an origin send in a slot, by destination, what a link can take, and at which
//!   boundary the units that may leave a link end, at the front of a loading. For curves of a kind a loading asks
//!   `link_sends_only` and a repair `link_sends`, which tells the position too, both `origin_sends` and `link_takes`.
//!   (Sending and receiving of a link: Yperman 2007, after Newell 1993. Composition by destination, origins and whole
//!   units are this engine's own.)
//! - **On what it stands**: `ltm_setting` for the scenario and `ltm_curve` for the counts, which are done up to the slot.
//! - **What a call costs**: a few totals of a boundary, and where a position is told one more for each slot that units
//!   wait to leave; where something leaves for one of several destinations, also one pass over the destinations. Nothing
//!   is changed and no memory is taken.
//! - **When to change it here**: where a sending or receiving flow is to be found in another way; what it is stands in
//!   `ltm_loading`.
#![tactic(auto)]

mod ago;
mod leaving;
mod link;
mod origin;
mod parts;
mod produced;

pub use link::{link_sends, link_sends_only, link_takes};
pub use origin::origin_sends;
