//! Entries of what a core tells.
use ltm_scenario::{Batch, Scenario};

/// What an editor did to a core, as it is told to those who take turns with it. No value of it is made.
pub enum LogEntry {
    /// The scenario with which the core began.
    Opening(Scenario),
    /// A batch that was accepted.
    Accepted(Batch),
    /// A settle was counted.
    Mark,
}
