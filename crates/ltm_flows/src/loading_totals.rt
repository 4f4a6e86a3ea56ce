//! What a loading comes to in all.

use ltm_units::Units;

/// The totals of a loading.
#[derive(Clone, Copy, Debug, PartialEq, Eq)]
pub struct Totals {
    /// What all origins have produced.
    pub generated: Units,
    /// What has arrived at its destination.
    pub arrived: Units,
    /// What is on the links.
    pub on_links: Units,
    /// What was produced and has not left its origin.
    pub waiting: Units,
}
