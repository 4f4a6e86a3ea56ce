//! - **What it is**: a case from the files of its folder (setup, links, demand, splits, signals and entry limits where
//!   the setup asks for them, and a profile where the demand is a matrix), or the first fault, by file, row and cause.
//! - **On what it stands**: `ltm_scenario`, which it builds call by call, `ltm_records`, which gives the records of a file
//!   one at a time, and `ltm_routes`, which gives nodes without a split row their routes.
//! - **What a call costs**: a record costs a few look-ups by name; a file is fetched once and read as far as its first fault.
//! - **When to change it here**: when a file of a case has another field, rule or order, or when a file is added to a case.
#![tactic(auto)]

mod case;
mod columns;
mod demand;
mod faults;
mod fetch;
mod fetch_case;
mod fields;
mod kept_case;
mod laws;
mod links;
mod matrix;
mod profile;
mod roads;
mod routed;
mod setup;
mod side_limits;
mod splits;
mod tables;
mod texts;

pub use case::{check_case, read_case};
pub use faults::{CaseCause, CaseFault, File};
pub use fetch::LONGEST_FILE;
pub use kept_case::read_kept_case;
pub use laws::{headers_are_read, memory_is_never_a_bad_case, nothing_is_lost};
pub use roads::read_roads;
