//! What a claim found.
use ltm_units::Pair;

/// A pair to be worked on; nothing more at the slot of the claims that are out; or nothing at all.
#[derive(Clone, Copy, Debug, PartialEq, Eq)]
pub enum Found {
    Work(Pair),
    Wait,
    Rest,
}
