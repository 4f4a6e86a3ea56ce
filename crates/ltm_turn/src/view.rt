//! What a pass knows. No value of it is made: it stands in proofs alone.
use std::collections::LinkedList;

/// The view of one pass.
pub struct View<E> {
    /// It is the editor's.
    pub editor: bool,
    /// It is a worker's that was split and not yet joined.
    pub works: bool,
    /// It holds the turn.
    pub holds: bool,
    /// The list of the value: as the editor left it, or as a holder found it or notes it.
    pub entries: LinkedList<E>,
    /// The greatest number that it has seen.
    pub number: u64,
    /// How many passes the editor has split and not joined.
    pub workers: u64,
}
