//! - **What it is**: cumulative counts over time: how many units passed a place by each moment. Boundary `k` is the
//!   moment `k` steps after the start, and slot `t` lies between the boundaries `t` and `t + 1`. A `Curves` holds a count
//!   for each group, destination and boundary; a group is one end of a link, an origin's queue or the sinks. Between two
//!   boundaries the total of a group is interpolated and rounded down to whole units. (Cumulative counts at the two ends
//!   of a link: Newell 1993, Yperman 2007. Whole units, floors and counts by destination are this engine's own.) A
//!   `TotalCurves` holds totals alone, for who reads no destinations.
//! - **On what it stands**: `ltm_units` and, for the set of changed cells, `ltm_marks`.
//! - **What a call costs**: a read is one access to one flat table, and so is a total, but one of 2^32 - 1 or more sums
//!   its row; a write of three destinations or more keeps the total of its row, and a time costs one division more.
//!   `create`, `of` and `reserve` take memory; no other call does.
//! - **When to change it here**: where counts are to be kept in another way: contracts above speak of `counts_of`,
//!   `total_at` and `is_changed` alone.
#![tactic(auto)]

mod changed;
mod composition;
mod curves;
mod group;
mod kind;
mod laws;
mod rows;
mod times;
mod total_curves;

pub use changed::Changed;
pub use composition::{FirstUnits, first_less_of};
pub use curves::Curves;
pub use kind::{Alone, Any, Kind, Several, Two};
pub use laws::{
    counts_tell_all, first_rises, first_stays, first_sums, first_within, one_destination_is_total,
};
pub use rows::Rows;
pub use total_curves::TotalCurves;
