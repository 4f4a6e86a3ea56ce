//! What a seat at a board knows.
use ltm_core::LogEntry;
use std::collections::LinkedList;

/// The posts that a seat looked at last. No value of it is made: it stands in proofs alone.
pub struct Glimpse {
    pub seen: LinkedList<LinkedList<LogEntry>>,
}
