//! - **What it is**: that there is a loading: every setting has one, and so has every scenario. With `one_loading` of
//!   `ltm_loading`, that no setting has two, it is what "the loading" means. On the way: the arms of a node have shares, inputs
//!   in the range of a node step have one, and a front goes on by a slot. It does not say that a program finds the memory for it.
//! - **On what it stands**: `ltm_loading` for what a loading is, `ltm_node` and `ltm_shares` for what a node's step is, the
//!   lemmas of their proofs, and `ltm_setting` for what a loading reads of a scenario.
//! - **What a call costs**: nothing. A law is the contract of a function that does nothing.
//! - **When to change it here**: where the meaning of a loading or of a node's step changes.
#![tactic(auto)]

mod laws;

pub use laws::{
    scenarios_have_loadings, there_are_shares, there_is_a_loading, there_is_a_next_front,
    there_is_a_step,
};
