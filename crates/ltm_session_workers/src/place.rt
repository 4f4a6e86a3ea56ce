//! Where an editor and its workers work.
use ltm_core::Core;
use ltm_turn::Turn;
use ltm_workers::Hints;
use std::alloc::Global;

/// The turn in which the core lies, the hints by which workers are called, and what whoever works there needs.
#[derive(Drop)]
pub(crate) struct Place<'a, R> {
    pub(crate) rt: &'a R,
    pub(crate) alloc: Global,
    pub(crate) turn: &'a Turn<Core>,
    pub(crate) hints: &'a Hints,
}
