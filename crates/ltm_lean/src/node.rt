//! A node with the links into it.
use crate::incoming::Incoming;
use crate::outgoing::Outgoing;
use ltm_lean_node::NodeWeights;
use ltm_units::NodeId;

/// A node: its place in its list, what stands on the links into it, what entered the links out of it in the last slot, what has
/// left its origin, in all and by place, and its weights as they were last looked up.
#[derive(Drop)]
pub struct LeanNode {
    pub node: NodeId,
    pub own: Option<u32>,
    pub ins: Vec<Incoming>,
    pub outs: Vec<Outgoing>,
    pub left: u64,
    pub gone: Vec<u32>,
    pub kept: NodeWeights,
}
