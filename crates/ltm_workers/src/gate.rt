//! What a worker does between a claim and its commit.
use ltm_units::Pair;
use std::sync::Wait;

/// Called by each worker for each pair that it claimed, before the pair's node step is made and while no turn is held. A test
/// holds workers by it.
pub trait Gate: Sync {
    fn between<R: Wait>(&self, rt: &R, pair: Pair);
}

/// Does nothing.
#[derive(Clone, Copy)]
pub struct PlainGate;

impl Gate for PlainGate {
    fn between<R: Wait>(&self, _rt: &R, _pair: Pair) {}
}
