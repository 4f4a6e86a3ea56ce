//! - **What it is**: the whole program over folders, inputs and outputs in memory, by hand or with values of an engine that was
//!   written without this one: what is written under each status. A library with nothing but tests.
//! - **On what it stands**: `ltm_program` and what lies below it. It stands apart so that the program is not proved a second time
//!   for its sake.
//! - **What a call costs**: nothing; there is none to make.
//! - **When to change it here**: when a command is added, or what one writes changes.
#![tactic(auto)]

#[cfg(test)]
mod cases;
#[cfg(test)]
mod curves;
#[cfg(test)]
mod editors;
#[cfg(test)]
mod loads;
#[cfg(test)]
mod meeting;
#[cfg(test)]
mod networks;
#[cfg(test)]
mod routes;
#[cfg(test)]
mod sessions;
#[cfg(test)]
mod trials;
#[cfg(test)]
mod viewers;
#[cfg(test)]
mod workers;
