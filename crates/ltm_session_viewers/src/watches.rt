//! The viewers of a view.
use crate::watch::Watch;

/// A viewer for each board.
#[derive(Drop)]
pub struct Watches {
    pub(crate) first: Watch,
    pub(crate) second: Option<Watch>,
}
