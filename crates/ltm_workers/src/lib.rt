//! - **What it is**: who works on a core: a drain, which brings it to rest without other workers; a drive, in which four
//!   virtual workers act in the order that a schedule says; and workers that take turns with an editor, with the editor's
//!   own settle.
//! - **On what it stands**: `ltm_core`, by whose public clauses alone it is proved; `ltm_turn`, in which the core lies beside
//!   workers; the back-off of `crossbeam_utils`.
//! - **What a call costs**: a claim, a node step and a commit for each pair whose inputs have changed, in a drain as one call
//!   of the core, in a drive at most that for each byte of its schedule; beside workers one turn for each, and two where
//!   workers are called. `Bench::create` takes the memory of four workers, no other call takes any; what takes turns may wait.
//! - **When to change it here**: where somebody works on a core in another order, or where workers are called at other times
//!   (`calling`, `hints`) or wait in another way (`idling`); what becomes of a pair is `ltm_core`'s.
#![tactic(auto)]

mod bench;
mod calling;
mod draining;
mod driving;
mod editor_turns;
mod events;
mod gate;
mod hands;
mod hints;
mod idling;
mod settling;
mod turns;
mod virtual_turns;
mod worker;

pub use bench::Bench;
pub use draining::drain;
pub use driving::{Driven, drive};
pub use editor_turns::{Settled, stop_beside};
pub use gate::{Gate, PlainGate};
pub use hints::Hints;
pub use settling::{Settler, settle_beside};
pub use worker::work;
