//! What the calls of a core answer.
use crate::claim::Claim;
use crate::scratch::Scratch;
use ltm_units::Pair;

/// What a claim found.
pub enum Claimed {
    /// A pair to be worked on. It is kept as claimed until it is committed, given back or made void by a batch.
    Got(Claim),
    /// Claims are out, and no other pair of their slot has to be worked on.
    NotYet(Scratch),
    /// No pair is active or claimed.
    Rest(Scratch),
}

/// What became of a commit.
pub enum Committed {
    /// It is made.
    Ok(Scratch),
    /// No kept claim has its pair, ticket and inputs.
    Stale {
        /// How many batches had been accepted at the claim.
        claimed_at: u64,
        /// How many are accepted now.
        now: u64,
        scratch: Scratch,
    },
}

/// What came of a pair that was to be computed anew.
#[derive(Clone, Copy, Debug, PartialEq, Eq)]
pub enum Recomputed {
    /// It was claimed and committed.
    Done(Pair),
    /// Claims are out, and no other pair of their slot has to be worked on.
    NotYet,
    /// No pair is active or claimed.
    Rest,
}

/// What became of a publishing.
#[derive(Clone, Copy, Debug, PartialEq, Eq)]
pub enum Published {
    /// The loading of so many batches is shown.
    Done(u64),
    /// A pair is active or claimed.
    NotAtRest,
}
