//! The lists that a viewer knows.
use crate::panel::Panel;
use std::snapshot::Snapshot;

/// Lists, the newest first. When the program runs nothing of them is kept but a tag.
#[derive(Drop)]
pub enum Told {
    None,
    Then(Snapshot<Panel>, Snapshot<Told>),
}
