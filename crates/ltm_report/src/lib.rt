//! - **What it is**: the lines that the program writes: the totals and the links of a loading, travel times, queues and
//!   delays, the answers to the lines of a script, routes, the size of a made case, and the refusals. Each ends with one newline byte; amounts of
//!   traffic stand in vehicles with three decimals, times in milliseconds, and times of many in vehicle seconds with six.
//! - **On what it stands**: `ltm_units` for the pieces of lines; `ltm_flows` for the loadings of which it tells, and
//!   `ltm_times` for their queues and delays; and the faults of `ltm_casefile`, `ltm_scenario`, `ltm_script`, `ltm_network` and `ltm_diagram` that it names.
//! - **What a call costs**: the length of its line, which it appends whole, or not at all where memory was not found. What
//!   was done is told without memory where room was taken before ([`ANSWER_ROOM`]).
//! - **When to change it here**: when a line gets another word or number, or when there is a new cause to name.
#![tactic(auto)]

mod all_delays;
mod answers;
mod case_faults;
mod causes;
mod command_faults;
mod delay_report;
mod delays;
mod edit_faults;
mod gap_report;
mod gaps;
mod links;
mod load;
mod loaded;
mod made;
mod origins;
mod pieces;
mod refusals;
mod routes;
mod row_laws;
mod rows;
mod sampled;
mod sampled_report;
mod samples;
mod times;
mod totals;

pub use all_delays::delays_text;
pub use answers::{ANSWER_ROOM, accepted_text, settled_text};
pub use case_faults::{case_fault_text, no_history_text, too_long_text};
pub use command_faults::command_fault_text;
pub use delay_report::delay_report_of;
pub use delays::{delay_text, link_delay_text, queue_text};
pub use edit_faults::edit_fault_text;
pub use gap_report::gap_report_of;
pub use gaps::gap_text;
pub use links::{link_text, load_link_text};
pub use load::report_of;
pub use made::{size_text, work_text};
pub use origins::{node_delay_text, origin_text};
pub use refusals::{bad_slots_text, long_script_text, too_many_text, unknown_name_text};
pub use routes::{route_row_text, route_time_text, splits_header_text};
pub use row_laws::{
    curves_tell_queues, delays_tell_delay, departures_tell_origins, last_is_told,
    samples_tell_curves, state_tells_queues, totals_tell_curves, totals_tell_departures,
};
pub use rows::{curve_text, departures_text, state_text};
pub use sampled_report::sampled_report_of;
pub use samples::samples_text;
pub use times::time_text;
pub use totals::{totals_line_text, totals_text};
