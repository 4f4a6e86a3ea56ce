//! The rule of a turn, and what each step on its word tells.
//!
//! The word is 0 while the turn is free, and 1 while it is held; the slot has the value, in a box. Eight kinds of step are made, and
//! no other: a take that wins, which takes the slot; a take that loses; an exchange that takes the value out; one that puts
//! a value back; a load by which the holder notes the list and the number of the value in its hand; a store that frees the
//! turn and gives the slot back; a split; a join. A view changes only at a step on the word, so a holder notes before it
//! frees.
//!
//! Who changes a step changes three things together: its play here, what it tells in `specs/Steps.antt`, and the lemma by
//! which it keeps the rule in `proofs/`. A further field of a view goes into `specs/Views.antt` first. The facts that users
//! meet (`specs/Passes.antt`) stand on the views and not on the rule, so they stay where the rule grows.
ghost use Rattle.ltm_turn.specs.Rule.{IsTurn};
ghost use Rattle.ltm_turn.specs.Boxes.{boxed};
ghost use Rattle.ltm_turn.specs.Steps.{Takes, Notes, Frees};
ghost use Rattle.ltm_turn.specs.Views.{opening_view, after_split, worker_view, after_join, spent_view};

use crate::Told;
use crate::view::View;
use atomic_table::{Join, Play, Split, TableRule};
use std::snapshot::Snapshot;

/// The rule of a turn. The key of the table is the first value, from which the editor's view begins.
pub struct TurnRule;

impl<T: Told> TableRule<Option<Box<T>>, View<T::Entry>, Snapshot<T>> for TurnRule {
    ghost holds = { λ _. IsTurn (boxed T.entries) (boxed T.number) };

    ghost first = { λ key. opening_view (T.entries key.value) (T.number key.value) };
}

// A pass tries to take the turn.
pub(crate) struct Take;

impl<T: Told> Play<Option<Box<T>>, View<T::Entry>> for Take {
    ghost then = { Takes (boxed T.entries) (boxed T.number) };
}

// The holder notes what it has in its hand.
pub(crate) struct Note;

impl<T: Told> Play<Option<Box<T>>, View<T::Entry>> for Note {
    ghost then = { Notes (boxed T.entries) (boxed T.number) };
}

// The holder frees the turn.
pub(crate) struct Free;

impl<T: Told> Play<Option<Box<T>>, View<T::Entry>> for Free {
    ghost then = { Frees };
}

// The editor splits a worker's pass.
pub(crate) struct SplitWorker;

impl<E> Split<View<E>> for SplitWorker {
    ghost left = { after_split };

    ghost right = { worker_view };
}

// The editor takes a worker's pass in.
pub(crate) struct JoinWorker;

impl<E> Join<View<E>> for JoinWorker {
    ghost both = { after_join };

    ghost spent = { spent_view };
}
