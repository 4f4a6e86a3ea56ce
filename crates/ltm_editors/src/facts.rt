//! What holds of a desk between any two steps of its threads.
ghost use Rattle.ltm_editors.specs.Boxes.{boxed};
ghost use Rattle.ltm_editors.specs.Rule.{IsDesk};
ghost use Rattle.ltm_editors.specs.Facts.{OneHolder, OneOpening, OneHistory, SeenBelongs, HomeBelongs, MayBePutBack};

use crate::recorded::Recorded;

/// The rule of a desk, which every step keeps, says that one view is the first seat's and at most one holds the desk; that the
/// value is in its slot exactly while the desk is free, with the one opening of all seats; that what the views have seen, and
/// the history in the slot, are beginnings of one list; that in each of these the entries belong to their seats; and that a
/// holder can put back only a value of which all this holds.
pub fn holds_between_steps<T: Recorded>()
    ensures one_holder { (s : _) → IsDesk (boxed T.opening) (boxed T.history) T.author s
        → OneHolder s }
    ensures one_opening { (s : _) → IsDesk (boxed T.opening) (boxed T.history) T.author s
        → OneOpening (boxed T.opening) s }
    ensures one_history { (s : _) → IsDesk (boxed T.opening) (boxed T.history) T.author s
        → OneHistory (boxed T.history) s }
    ensures seen_belongs { (s : _) → IsDesk (boxed T.opening) (boxed T.history) T.author s
        → SeenBelongs T.author s }
    ensures home_belongs { (s : _) → IsDesk (boxed T.opening) (boxed T.history) T.author s
        → HomeBelongs (boxed T.history) T.author s }
    ensures may_be_put_back { (s : _) → IsDesk (boxed T.opening) (boxed T.history) T.author s
        → MayBePutBack (boxed T.opening) (boxed T.history) T.author s }
{}
