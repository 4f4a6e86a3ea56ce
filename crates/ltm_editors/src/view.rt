//! What a seat knows. No value of it is made: it stands in proofs alone.
use std::collections::LinkedList;

/// The view of one seat.
pub struct View<O, E> {
    /// It is the first seat's.
    pub chair: bool,
    /// It is that of a seat that was not joined.
    pub live: bool,
    /// It holds the desk.
    pub holds: bool,
    /// The seat's number.
    pub number: u64,
    /// The numbers of which it has seen all entries: its own, and those of the seats that were joined with it.
    pub numbers: LinkedList<u64>,
    /// The opening of the desk's value.
    pub opening: Option<O>,
    /// The history as it last saw it.
    pub seen: LinkedList<E>,
    /// How many numbers the first seat has given out, its own among them.
    pub made: u64,
    /// How many seats were split from the first and not joined.
    pub others: u64,
    /// A seat was joined with it, and what both had seen was not told yet.
    pub joining: bool,
    /// What it had seen before that.
    pub before: LinkedList<E>,
    /// Its numbers before that.
    pub these: LinkedList<u64>,
    /// What the other seat had seen.
    pub guest: LinkedList<E>,
    /// The other seat's numbers.
    pub those: LinkedList<u64>,
}
