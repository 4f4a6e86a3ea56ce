//! The rule of a board, and what each step on it tells.
ghost use Rattle.ltm_board.specs.Rule.{Keeps, Looked};

use crate::glimpse::Glimpse;
use crate::panel::Panel;
use atomic_table::{Join, Split};
use crossbeam_utils::rule::{Outcome, Protocol};

/// The rule of a board.
pub struct BoardRule;

impl Protocol<Panel, Glimpse> for BoardRule {
    ghost use Rattle.ltm_board.specs.Glimpses.{newcomer};

    ghost holds = { Keeps };

    ghost first = { newcomer };
}

// A seat looks at what is shown, or shows something.
pub(crate) struct Looks;

impl Outcome<Panel, Glimpse> for Looks {
    ghost then = { Looked };
}

// At the start alone: the board tells its viewer of the opening.
pub(crate) struct Opens;

impl Split<Glimpse> for Opens {
    ghost left = { λ v. v };

    ghost right = { λ v. v };
}

impl Join<Glimpse> for Opens {
    ghost use Rattle.ltm_board.specs.Glimpses.{newcomer};

    ghost both = { λ v w. w };

    ghost spent = { newcomer };
}
