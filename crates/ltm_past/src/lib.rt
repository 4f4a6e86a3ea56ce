//! - **What it is**: that the past stays. An edit whose first slot is `k` leaves every count up to boundary `k` as it was, and a longer
//!   horizon begins with the shorter one; so whoever compares a loading with the one before an edit may begin at `k`.
//! - **On what it stands**: `ltm_pairs`, which says what an edit lets pairs of node and slot read, and `ltm_loading`, that two fronts
//!   of a setting are one. No crate stands on it.
//! - **What a call costs**: nothing. A law is the contract of a function that does nothing.
//! - **When to change it here**: where there is a new kind of edit, which has a first slot too.
#![tactic(auto)]

mod laws;

pub use laws::{longer_begins_as_shorter, past_stays, reports_stay};
