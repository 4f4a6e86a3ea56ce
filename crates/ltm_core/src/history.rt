//! What was done to a core.
ghost use Rattle.std.specs.Prelude.{◌≡◌, ◌∷◌};
ghost use Rattle.ltm_core.specs.Histories.{event_of, events_of};

use ltm_units::Pair;
use std::snapshot::Snapshot;

/// What a call does to a core, where it changes anything.
#[derive(Drop)]
pub enum Event {
    /// A claim that found no pair.
    Look,
    Claim(Pair),
    GiveBack(Pair),
    Commit(Pair),
    Accept,
    Publish,
    Settle(u128),
}

/// Events, the newest first. When the program runs nothing of them is kept but a tag.
#[derive(Drop)]
pub enum History {
    None,
    Then(Snapshot<Event>, Snapshot<History>),
}

/// One event more.
pub(crate) fn add(history: &mut History, event: Event)
    ensures { events_of history.new ≡ event_of event ∷ events_of history.old }
{
    *history = History::Then(Snapshot::of(&event), Snapshot::of(history));
}
