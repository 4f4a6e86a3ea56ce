//! What is told of delays: sums of vehicle time in units times milliseconds, and the greatest numbers.
use ltm_units::Units;

/// The greatest of the numbers at all boundaries, and the first boundary that has it.
#[derive(Clone, Copy)]
pub struct Peak {
    pub most: Units,
    pub at: u32,
}

/// What has entered a link and left it by a boundary, and how many stand in its queue then.
#[derive(Clone, Copy)]
pub struct LinkState {
    pub entered: Units,
    pub left: Units,
    pub queue: Units,
}

/// The time that vehicles spend on a link, how much of it they stand in its queue, and the longest queue.
#[derive(Clone, Copy)]
pub struct LinkDelay {
    pub spent: u128,
    pub queued: u128,
    pub peak: Peak,
}

/// What an origin has produced and what has left it by a boundary, and how many wait there then.
#[derive(Clone, Copy)]
pub struct OriginState {
    pub produced: Units,
    pub left: Units,
    pub waiting: Units,
}

/// The time that vehicles wait at an origin, and when most of them do.
#[derive(Clone, Copy)]
pub struct OriginDelay {
    pub waited: u128,
    pub peak: Peak,
}

/// The time that all vehicles spend, how much of it they stand in queues on links, and how much they wait at their origins.
#[derive(Clone, Copy)]
pub struct DelayTotals {
    pub spent: u128,
    pub queued: u128,
    pub waited: u128,
}
