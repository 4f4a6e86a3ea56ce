//! The rule of a desk, and what each step on its word tells.
//!
//! The word is 0 while the desk is free, and 1 while it is held; the slot has the value, in a box. Eight kinds of step are
//! made, and no other: a take that wins, which takes the slot; a take that loses; an exchange that takes the value out; one
//! that puts it back; a store by which the holder notes the history that it leaves, frees the desk and gives the slot back;
//! a split; a join; and a load by which the first seat is told what a join has shown it. A view changes only at a step on
//! the word.
//!
//! Who changes a step changes three things together: its play here, what it tells in `specs/Steps.antt`, and the lemma by
//! which it keeps the rule in `proofs/`. A further field of a view goes into `specs/Views.antt` first.
ghost use Rattle.ltm_editors.specs.Boxes.{boxed};
ghost use Rattle.ltm_editors.specs.Rule.{IsDesk};
ghost use Rattle.ltm_editors.specs.Steps.{Takes, Frees, Tells};
ghost use Rattle.ltm_editors.specs.Views.{first_view, after_split, new_view, joined, spent_view};

use crate::recorded::Recorded;
use crate::view::View;
use atomic_table::{Join, Play, Split, TableRule};
use std::snapshot::Snapshot;

/// The rule of a desk. The key of the table is the first value, from whose opening the first seat's view begins.
pub struct DeskRule;

impl<T: Recorded> TableRule<Option<Box<T>>, View<T::Opening, T::Entry>, Snapshot<T>> for DeskRule {
    ghost holds = { λ _. IsDesk (boxed T.opening) (boxed T.history) T.author };

    ghost first = { λ key. first_view (T.opening key.value) };
}

// A seat tries to take the desk.
pub(crate) struct Take;

impl<T: Recorded> Play<Option<Box<T>>, View<T::Opening, T::Entry>> for Take {
    ghost then = { Takes (boxed T.opening) (boxed T.history) T.author };
}

// The holder notes the history, and frees the desk.
pub(crate) struct Free;

impl<T: Recorded> Play<Option<Box<T>>, View<T::Opening, T::Entry>> for Free {
    ghost then = { Frees (boxed T.history) };
}

// The first seat is told what a join has shown it.
pub(crate) struct Tell;

impl<T: Recorded> Play<Option<Box<T>>, View<T::Opening, T::Entry>> for Tell {
    ghost then = { Tells T.author };
}

// The first seat makes another.
pub(crate) struct SplitSeat;

impl<O, E> Split<View<O, E>> for SplitSeat {
    ghost left = { after_split };

    ghost right = { new_view };
}

// The first seat takes another in.
pub(crate) struct JoinSeat;

impl<O, E> Join<View<O, E>> for JoinSeat {
    ghost both = { joined };

    ghost spent = { spent_view };
}
