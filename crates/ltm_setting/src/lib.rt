//! - **What it is**: what a loading reads of a scenario, number by number. A loading is defined over a `Setting`, a
//!   record of numbers, and knows no tables and no names. The word `setting_of` makes one of a scenario's data, and the
//!   calls here read each of its numbers from the tables of a `Scenario`, and list the groups of a node in the order of
//!   its row (`NodeGroups`). What is read is a setting whatever the scenario (`is_setting`), so every law of loadings
//!   holds of it.
//! - **On what it stands**: `ltm_scenario` for the tables, and `ltm_loading` for what a setting is.
//! - **What a call costs**: an access or two each, and no memory.
//! - **When to change it here**: where a loading is to read something more.
#![tactic(auto)]

mod groups;
mod laws;
mod readers;
mod row_groups;

pub use groups::{arr_of, dep_of, group_count};
pub use laws::{is_setting, little_is_produced, loadings_of_scenarios, scenarios_are_settings};
pub use readers::{
    by_turn, capacity, delays, destination_at, destination_count, entry_limit, exit_limit, head,
    in_links, limits, link_count, node_count, origin_capacity, out_links, produced, produced_near,
    produced_row, produced_total, slot_count, step, tail, weights, weights_stay,
};
pub use row_groups::{NodeGroups, node_groups};
