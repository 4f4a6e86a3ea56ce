//! When an editor that settles calls workers.
use crate::hints::Hints;
use crossbeam_utils::Backoff;
use ltm_core::Core;
use ltm_turn::Turn;

/// Workers are called where so many pairs of one slot were worked on, and the row of the last has so many numbers.
const WIDE_SLOT: u32 = 16;

const WIDE_ROW: usize = 800;

/// So many slots in a row, in each of which the editor makes fewer pairs than this, are narrow: then workers are sent away.
const NARROW_SLOTS: u32 = 5;

const NARROW_SLOT: u32 = 8;

/// After so many pairs the editor looks whether workers help.
const WINDOW: u64 = 256;

/// A look for a pair that is in vain after so many others in a row yields the processor.
const SPINS: u32 = 7;

/// After how many vain tries in a row the time until the next one is not doubled again.
const MOST_TRIES: u32 = 10;

/// Whether workers are called, and what an editor has seen of them. They are called where slots and rows are wide, and sent away
/// where slots are narrow again, where they make few pairs, and where they are waited for; then it does without them for some
/// slots, twice as many each time. It reads no clock.
#[derive(Drop)]
pub(crate) struct Calling {
    together: bool,
    slot: u32,
    pairs: u32,
    narrow: u32,
    own: u64,
    helped: u64,
    waited: u64,
    tries: u32,
    ban: u32,
    looks: u32,
    backoff: Backoff,
}

impl Calling {
    /// Of an editor that has not settled yet.
    pub(crate) fn new() -> Calling {
        Calling {
            together: false,
            slot: 0,
            pairs: 0,
            narrow: 0,
            own: 0,
            helped: 0,
            waited: 0,
            tries: 0,
            ban: 0,
            looks: 0,
            backoff: Backoff::new(),
        }
    }

    /// Whether workers are called.
    pub(crate) fn is_together(&self) -> bool {
        self.together
    }

    /// At the beginning and at the end of a settle: workers are sent away.
    pub(crate) fn alone(&mut self, hints: &Hints) {
        self.together = false;
        self.pairs = 0;
        self.narrow = 0;
        hints.call_none();
    }

    /// After the editor made a pair of a slot, whose row has so many numbers.
    pub(crate) fn after_pair(&mut self, turn: &Turn<Core>, hints: &Hints, slot: u32, width: usize) {
        self.after_look();
        self.own = self.own.saturating_add(1);
        if slot == self.slot {
            self.pairs = self.pairs.saturating_add(1);
        } else {
            self.begin_slot(hints, slot);
        }
        if self.together {
            self.look_back(hints);
        } else if self.ban == 0 && self.pairs >= WIDE_SLOT && width >= WIDE_ROW {
            self.call(turn, hints);
        }
    }

    /// After a look that found a pair.
    fn after_look(&mut self) {
        if self.looks > 0 {
            self.looks = 0;
            self.backoff.reset();
        }
    }

    /// After a look that found no pair while claims are out: steps back.
    pub(crate) fn after_vain_look(&mut self) {
        if self.looks < SPINS {
            self.looks += 1;
        } else {
            self.waited = self.waited.saturating_add(1);
        }
        self.backoff.snooze();
    }

    /// Another slot than that of the pair before: that one may have been narrow.
    fn begin_slot(&mut self, hints: &Hints, slot: u32) {
        let was_narrow = self.pairs < NARROW_SLOT;
        self.slot = slot;
        self.pairs = 1;
        self.ban = self.ban.saturating_sub(1);
        self.narrow = if was_narrow {
            self.narrow.saturating_add(1)
        } else {
            0
        };
        if self.together && self.narrow >= NARROW_SLOTS {
            self.alone(hints);
        }
    }

    /// Calls workers.
    fn call(&mut self, turn: &Turn<Core>, hints: &Hints) {
        self.together = true;
        self.narrow = 0;
        self.begin_window(hints);
        hints.call_where_wide(turn);
    }

    /// Once in each window: sends workers away that make few pairs or are waited for.
    fn look_back(&mut self, hints: &Hints) {
        if self.own < WINDOW {
            return;
        }
        let helped = hints.helped().wrapping_sub(self.helped);
        if helped.saturating_mul(4) < self.own || self.waited > helped.saturating_mul(8) {
            self.tries = self.tries.saturating_add(1).min(MOST_TRIES);
            self.ban = 4 << self.tries.min(MOST_TRIES);
            self.alone(hints);
        } else {
            self.tries = self.tries.saturating_sub(1);
        }
        self.begin_window(hints);
    }

    fn begin_window(&mut self, hints: &Hints) {
        self.own = 0;
        self.waited = 0;
        self.helped = hints.helped();
    }
}
