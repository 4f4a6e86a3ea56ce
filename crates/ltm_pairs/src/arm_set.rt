//! The counts of a pair that changed.

/// Which counts of a pair changed: those of the arm at place p where bit p of `arms` is set, of the out-link at place p where
/// bit p of `outs` is, and of what has arrived where bit 0 of `sinks` is. The arms are the in-links, and then the origin of a
/// node with out-links.
#[derive(Clone, Copy, Debug, PartialEq, Eq)]
pub struct ArmSet {
    pub arms: u32,
    pub outs: u32,
    pub sinks: u32,
}
