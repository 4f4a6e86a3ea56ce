//! What an editor and its workers tell each other beside the turn.
use crossbeam_utils::CachePadded;
use ltm_core::Core;
use ltm_turn::Turn;
use std::sync::atomic::AtomicU64;
use std::sync::atomic::Ordering::SeqCst;

/// How many workers are called where something is left to do and the editor waits for a line. The first is told, and tells the
/// next one when it has a pair.
const WHILE_READING: u64 = 2;

/// How many workers are called by a settle that finds slots and rows wide: more take more time and save none.
const WHERE_WIDE: u64 = 1;

/// How many workers are called, how many have come, how many pairs workers have committed, and whether a batch left something to
/// do. These are hints: any thread may change them at any time, so nothing is claimed of them, and only who works when depends on
/// them.
#[derive(Drop)]
pub struct Hints {
    called: CachePadded<AtomicU64>,
    came: CachePadded<AtomicU64>,
    helped: CachePadded<AtomicU64>,
    behind: CachePadded<AtomicU64>,
}

impl Hints {
    /// No worker is called.
    pub fn new() -> Hints {
        Hints {
            called: CachePadded::new(AtomicU64::new(0)),
            came: CachePadded::new(AtomicU64::new(0)),
            helped: CachePadded::new(AtomicU64::new(0)),
            behind: CachePadded::new(AtomicU64::new(0)),
        }
    }

    /// Notes whether an accepted batch left something to do.
    pub fn note_behind(&self, behind: bool) {
        self.behind.store(u64::from(behind), SeqCst);
    }

    /// Calls workers to what was left to do, if anything was: the editor may be about to wait. The turn was given before.
    pub fn call_while_reading(&self, turn: &Turn<Core>) {
        if self.behind.load(SeqCst) == 0 {
            return;
        }
        self.called.store(WHILE_READING, SeqCst);
        turn.notify_one();
    }

    /// Calls workers to wide slots.
    pub(crate) fn call_where_wide(&self, turn: &Turn<Core>) {
        self.called.store(WHERE_WIDE, SeqCst);
        turn.notify_one();
    }

    /// Calls every worker, so that each sees that the core is stopped.
    pub(crate) fn call_all(&self, turn: &Turn<Core>) {
        self.called.store(u64::MAX, SeqCst);
        turn.notify_all();
    }

    /// Sends all workers away: each leaves after the pair that it has.
    pub(crate) fn call_none(&self) {
        self.called.store(0, SeqCst);
    }

    /// A worker comes; whether it is called.
    pub(crate) fn enter(&self) -> bool {
        if self.came.load(SeqCst) >= self.called.load(SeqCst) {
            return false;
        }
        if self.came.fetch_add(1, SeqCst) < self.called.load(SeqCst) {
            return true;
        }
        self.leave();
        false
    }

    /// A worker that had come goes.
    pub(crate) fn leave(&self) {
        self.came.fetch_sub(1, SeqCst);
    }

    /// A worker that had come goes, where more have come than are called; whether it went.
    pub(crate) fn make_way(&self) -> bool {
        let came = self.came.load(SeqCst);
        if came <= self.called.load(SeqCst) {
            return false;
        }
        self.came
            .compare_exchange(came, came - 1, SeqCst, SeqCst)
            .is_ok()
    }

    /// A worker has committed a pair.
    pub(crate) fn count(&self) {
        self.helped.fetch_add(1, SeqCst);
    }

    /// How many pairs workers have committed.
    pub(crate) fn helped(&self) -> u64 {
        self.helped.load(SeqCst)
    }
}
