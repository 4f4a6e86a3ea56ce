//! - **What it is**: which slots read which boundary of a link. A slot reads the counts of a link as they were at some
//!   earlier boundary. `ReadIndex` keeps for each link and boundary the list of these slots, so that a change at a
//!   boundary is told to the slots that read it and to no other.
//! - **On what it stands**: `ltm_units` alone.
//! - **What a call costs**: a handful of steps each call, whatever the lists hold, and no memory; only `create` and
//!   `reserve` take memory, eight bytes for each link and boundary. The lists are doubly linked through one flat table,
//!   in blocks of sixteen boundaries, so that a longer horizon adds blocks at the end.
//! - **When to change it here**: where the lists are to be kept in another way: contracts speak of `list_of` and
//!   `entry_of` alone.
#![tactic(auto)]

mod cells;
mod laws;
mod lists;
mod read_index;

pub use laws::slots_stand_by_entry;
pub use read_index::ReadIndex;
