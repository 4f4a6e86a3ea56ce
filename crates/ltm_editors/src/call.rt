//! Calls of editors, and what each was answered.
use ltm_scenario::{Batch, EditFault};
use std::snapshot::Snapshot;

/// What a batch was answered.
#[derive(Clone, Copy, Debug, PartialEq, Eq)]
pub enum Verdict {
    /// It was accepted, and so many batches were accepted up to and with it.
    Accepted(u64),
    /// Its first edit at fault, and the cause.
    Refused(EditFault),
}

/// One call of an editor.
#[derive(Drop)]
pub struct Call {
    /// The number of the editor's seat.
    pub editor: u32,
    pub verdict: Verdict,
    /// The batch, for clauses alone: it takes no memory.
    pub batch: Snapshot<Batch>,
}
