//! - **What it is**: worked loadings, by hand or from an independent engine, and their parts: curves, node steps, what a node reads, totals,
//!   limits, travel times and least routes. A library with nothing but tests.
//! - **On what it stands**: `ltm_flows`, `ltm_times`, `ltm_routes` and `ltm_casefile`, and what lies below them. It stands
//!   apart so that none of them is proved a second time for its sake.
//! - **What a call costs**: nothing; there is none to make.
//! - **When to change it here**: when the model changes, or a worked case is added.
#![tactic(auto)]

#[cfg(test)]
mod cases;
#[cfg(test)]
mod curves;
#[cfg(test)]
mod exit_limits;
#[cfg(test)]
mod inputs;
#[cfg(test)]
mod loadings;
#[cfg(test)]
mod nodes;
#[cfg(test)]
mod routes;
#[cfg(test)]
mod solvable;
#[cfg(test)]
mod times;
