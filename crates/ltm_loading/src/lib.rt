//! - **What it is**: what a loading of a network is, and what holds of every loading. A loading is a condition on
//!   finished counts: every pair of node and slot meets the node step of what it reads, which are counts at earlier
//!   boundaries. It is said over plain numbers, a `Setting`, so that the laws hold whatever tells them; two loadings are
//!   compared pair by pair (`differing`). (Sending and receiving of a link: Yperman 2007, after Newell 1993. Composition
//!   by destination, origins and whole units are this engine's own.)
//! - **On what it stands**: `ltm_curve` and `ltm_node`.
//! - **What a call costs**: nothing: a law is the contract of a function with an empty body. What runs are the numbers of
//!   groups alone: where the counts of a link stand (`up_of`, `down_of`), of an origin (`dep_behind`), and what has
//!   arrived (`arr_behind`).
//! - **When to change it here**: where the meaning of a loading changes, or where a crate above wants a law of loadings
//!   that is not here.
#![tactic(auto)]

mod groups;
mod laws;

pub use groups::{arr_behind, dep_behind, down_of, up_of};
pub use laws::{
    adds_up, conserved, counts_by_place, counts_set_only, counts_small, differences_add_up,
    differing_either_way, differing_is_within_pairs, first_in_first_out, groups_are_set,
    groups_by_row, in_range, inputs_by_parts, inputs_by_place, inputs_read_only, left_has_entered,
    links_are_ready, never_fall, next_pair, next_slot, none_differ, one_front, one_loading,
    one_road_is_worked, origins_are_ready, outputs_small, position_read_only, set_by_one_pair,
    setting_read_only, step_by_moves, totals_small, uncounted_in_range, within_capacity,
    within_exit, within_produced, within_storage,
};
