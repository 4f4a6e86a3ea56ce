//! What the arms of a node ask for.

use crate::sent::{ARMS, OUTS, Sent};

/// What the arms of a node send to its out-links, in thousandths of a vehicle.
#[derive(Drop)]
pub struct NodeDemands {
    /// How many arms there are, at most 5.
    pub arms: usize,
    /// How many out-links there are, at most 4.
    pub outs: usize,
    /// What each arm sends to each out-link.
    pub sending: Sent,
    /// The priority of each arm, above 0.
    pub priority: [u64; ARMS],
    /// What each out-link can take.
    pub supply: [u64; OUTS],
}
