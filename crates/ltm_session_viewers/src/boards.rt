//! The boards of a view.
use ltm_board::Board;
use std::sync::Wait;

/// A board for each viewer; all are posted on alike. It is not `Drop`: end it by `end`.
pub struct Boards {
    pub(crate) first: Board,
    pub(crate) second: Option<Board>,
}

impl Boards {
    /// Ends each board.
    pub(crate) fn end<R: Wait>(self, rt: &R) {
        let Boards { first, second } = self;
        first.end(rt);
        match second {
            Some(board) => board.end(rt),
            None => (),
        }
    }
}
