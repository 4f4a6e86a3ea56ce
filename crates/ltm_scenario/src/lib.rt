//! - **What it is**: the scenario, which is what a case says of setup, network, demand, splits and limits; the rules of a
//!   valid case; and batches of edits that are made whole or not at all.
//! - **On what it stands**: `ltm_network`, `ltm_diagram`, `ltm_demand`, `ltm_splits` and `ltm_limits`, each with a table of
//!   its own, which it holds side by side and in step (`parts`).
//! - **What a call costs**: a read costs what its table's costs; an edit costs what its table's call costs and a
//!   look-up for each name, and takes no copy of the scenario; a longer horizon costs a pass over the nodes, for the cells;
//!   `check` passes over all rows once.
//! - **When to change it here**: when a case says more, when a rule of a valid case changes, or for another kind of edit.
#![tactic(auto)]

mod batch;
mod check;
mod destinations;
mod diagrams;
mod edit;
mod edits;
mod faults;
mod laws;
mod parts;
mod same;
mod scenario;
mod setup;
mod side;
mod split_rows;
mod weights;

pub use batch::{Batch, BatchFault};
pub use edit::{Edit, EditCause, EditFault};
pub use faults::{DestinationFault, HorizonFault, LinkFault, ScenarioFault};
pub use laws::edits_make;
pub use same::{same_batch, same_edit};
pub use scenario::Scenario;
pub use setup::{DEFAULT_CELLS, DEFAULT_DESTINATIONS, Setup, SetupFault};
pub use side::Side;
pub use split_rows::SplitRows;
pub use weights::Weights;
