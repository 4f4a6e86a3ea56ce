//! What a board tells its viewer.
use crate::panel::Panel;

/// The posts that a board has published, as a loan: it takes no memory. Contracts see them: `note_list`.
#[derive(Clone, Copy)]
pub struct Note<'a> {
    pub(crate) panel: &'a Panel,
}
