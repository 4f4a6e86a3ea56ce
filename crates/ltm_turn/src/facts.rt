//! What holds of a turn between any two steps of its threads.
ghost use Rattle.ltm_turn.specs.Rule.{IsTurn};
ghost use Rattle.ltm_turn.specs.Boxes.{boxed};
ghost use Rattle.ltm_turn.specs.Facts.{OneHolder, HomeWhenFree, EditorsList, NumberNeverFalls, MayBePutBack};

use crate::Told;

/// The rule of a turn, which every step keeps, says that one view is the editor's and at most one holds the turn; that the
/// value is in its slot exactly while the turn is free; that a value in the slot has the list that the editor left, and a
/// number that no view exceeds; and that a holder can put back only a value of which both hold.
pub fn holds_between_steps<T: Told>()
    ensures one_holder { (s : _) → IsTurn (boxed T.entries) (boxed T.number) s → OneHolder s }
    ensures home_when_free { (s : _) → IsTurn (boxed T.entries) (boxed T.number) s
        → HomeWhenFree s }
    ensures editors_list { (s : _) → IsTurn (boxed T.entries) (boxed T.number) s
        → EditorsList (boxed T.entries) s }
    ensures number_never_falls { (s : _) → IsTurn (boxed T.entries) (boxed T.number) s
        → NumberNeverFalls (boxed T.number) s }
    ensures may_be_put_back { (s : _) → IsTurn (boxed T.entries) (boxed T.number) s
        → MayBePutBack (boxed T.entries) (boxed T.number) s }
{}
