//! The two sides of a link that limits stand at.

/// Where a limit of a link stands: at its entry, or at its exit.
#[derive(Clone, Copy)]
pub enum Side {
    Entry,
    Exit,
}
