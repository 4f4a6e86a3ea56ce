//! A viewer, and what it reads into.
ghost use Rattle.std.specs.Prelude.{◌≡◌};
ghost use Rattle.ltm_board.specs.Sheets.{links_on};
ghost use Rattle.ltm_board.specs.Boards.{viewer_links};

use ltm_board::{Sheet, Viewer};

/// A viewer, the sheet that it read last, and one more of that size.
#[derive(Drop)]
pub struct Watch {
    pub(crate) viewer: Viewer,
    pub(crate) sheet: Sheet,
    pub(crate) spare: Sheet,
    pub ghost fits: { (links_on sheet ≡ viewer_links viewer) × (links_on spare ≡ viewer_links viewer) },
}
