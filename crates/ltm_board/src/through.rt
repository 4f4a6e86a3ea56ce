//! What passes a link.
use ltm_units::Units;

/// What has entered a link, and what has left it, by the last boundary.
#[derive(Clone, Copy, Debug, PartialEq, Eq)]
pub struct Through {
    pub entered: Units,
    pub left: Units,
}
