//! What the counts of a pair are renewed by.
use crate::step_form::StepForm;
use ltm_node::NodeOutputs;
use ltm_scenario::Scenario;
use ltm_units::{LinkId, Pair};

/// The counts of a pair's slot end that are to be set: what the node step of the pair puts out, as it is given.
#[derive(Clone, Copy)]
pub(crate) struct Renewal<'a> {
    pub(crate) scenario: &'a Scenario,
    pub(crate) pair: Pair,
    pub(crate) given: StepForm,
    pub(crate) outputs: &'a NodeOutputs,
}

/// Such counts of one end of a link, one for each destination.
#[derive(Clone, Copy)]
pub(crate) struct LinkRow<'a> {
    pub(crate) link: LinkId,
    pub(crate) slot: u32,
    pub(crate) given: StepForm,
    pub(crate) numbers: &'a [u64],
}
