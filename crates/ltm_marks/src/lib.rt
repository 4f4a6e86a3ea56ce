//! - **What it is**: marks, as rows of bits. A mark says yes or no of a place in a row: of a node in a slot, or of a
//!   group of counts at a boundary.
//! - **On what it stands**: `ltm_units` alone.
//! - **What a call costs**: a mark is read and written in one access, and the next marked place of a row is found a word
//!   of 64 at a time; `create` and `reserve` take memory, no other call does.
//! - **When to change it here**: where marks are to be kept in another way: contracts above speak of `is_marked` alone.
#![tactic(auto)]

mod marks;

pub use marks::{Marks, first_from};
