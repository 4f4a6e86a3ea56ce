//! - **What it is**: the loading of a case, written as a curve file, and whether the `curves.csv` beside a case is its loading,
//!   as the text that is written.
//! - **On what it stands**: `ltm_casefile`, which reads the case, `ltm_flows`, which loads it, `ltm_io`, which opens the
//!   curve file, and `ltm_check`, which writes, reads and checks curves.
//! - **What a call costs**: writing a loading costs a cold loading and a pass over its counts; a check costs a pass over
//!   the file, which is read piece by piece and never held, and the step of each pair of node and slot, and no loading is made.
//! - **When to change it here**: when a line of a check changes, or how large a curve file may be.
#![tactic(auto)]

mod answer;
mod curves;
mod lines;
mod loaded;
mod refusal;

pub use answer::check_text;
pub use lines::{bad_curves_text, long_curves_text, no_start_text, no_step_text};
pub use loaded::write_loading;
pub use refusal::Refusal;
