//! What is told of each route split.

/// Which line each route split has.
#[derive(Clone, Copy, Debug, PartialEq, Eq)]
pub enum RouteLines {
    /// Its record in `splits.csv`, below a header.
    Splits,
    /// The least time of a route from its node to its destination.
    Times,
}
