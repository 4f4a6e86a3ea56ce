//! How a worker steps back where it finds nothing to do.
use crate::hints::Hints;
use crossbeam_utils::Backoff;
use crossbeam_utils::sync::Key;
use ltm_core::Core;
use ltm_turn::Turn;
use std::sync::Wait;
use std::thread::Parker;
use std::time::Duration;

/// After so many looks in a row that found no pair, while claims are out, a worker pauses before each further one.
const PATIENCE: u32 = 64;

/// How long it pauses then, in microseconds.
const PAUSE: u64 = 512;

/// What a worker keeps while it finds nothing to do. Where it is not called, and where the core rests, it sleeps until it is told
/// of news. While claims are out it looks again and again, and pauses in between: the slots to come may be wide. Whoever was
/// woken wakes one more as soon as it has claimed a pair, before it works on it, so that all who are called come while the first
/// pairs are at work.
#[derive(Drop)]
pub(crate) struct Idling {
    came: bool,
    looks: u32,
    rested: bool,
    woken: bool,
    backoff: Backoff,
    parker: Parker,
}

impl Idling {
    /// A worker that has just begun.
    pub(crate) fn new() -> Idling {
        Idling {
            came: false,
            looks: 0,
            rested: false,
            woken: false,
            backoff: Backoff::new(),
            parker: Parker::new(),
        }
    }

    /// Before a round: whether the worker is called. Where it is not it sleeps until it is told of news. It listens before it
    /// asks, so it misses no call.
    pub(crate) fn is_called<R: Wait>(&mut self, rt: &R, turn: &Turn<Core>, hints: &Hints) -> bool {
        if self.came && hints.make_way() {
            self.came = false;
        }
        if self.came {
            return true;
        }
        let news = turn.listen();
        if hints.enter() {
            self.came = true;
            return true;
        }
        self.sleep(rt, news);
        false
    }

    /// Before a look: whoever will sleep if it finds the core at rest listens for news from now on.
    pub(crate) fn before_look<'a>(&self, turn: &'a Turn<Core>) -> Option<Key<'a>> {
        if !self.rested {
            return None;
        }
        Some(turn.listen())
    }

    /// After a claim, before the pair is worked on.
    pub(crate) fn after_claim(&mut self, turn: &Turn<Core>) {
        if self.woken {
            self.woken = false;
            turn.notify_one();
        }
    }

    /// After a pair was committed.
    pub(crate) fn after_work(&mut self, hints: &Hints) {
        self.looks = 0;
        self.rested = false;
        self.backoff.reset();
        hints.count();
    }

    /// After a look at which another held the turn: steps back.
    pub(crate) fn after_busy_look(&mut self) {
        self.backoff.snooze();
    }

    /// After a look that found no pair while claims are out: steps back.
    pub(crate) fn after_vain_look<R: Wait>(&mut self, rt: &R) {
        self.rested = false;
        if self.looks < PATIENCE {
            self.looks += 1;
            self.backoff.snooze();
            return;
        }
        self.parker.park_timeout(rt, Duration::from_micros(PAUSE));
    }

    /// After a look at a core that rests: goes and sleeps, where the worker listened for news before it.
    pub(crate) fn after_rest<R: Wait>(&mut self, rt: &R, hints: &Hints, news: Option<Key<'_>>) {
        match news {
            Some(news) => {
                self.came = false;
                hints.leave();
                self.sleep(rt, news);
            }
            None => self.rested = true,
        }
    }

    fn sleep<R: Wait>(&mut self, rt: &R, news: Key<'_>) {
        news.wait(rt);
        self.looks = 0;
        self.rested = false;
        self.woken = true;
        self.backoff.reset();
    }
}
