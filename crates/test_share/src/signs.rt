//! A sign that one thread gives another, which waits for it, but not for ever.
use std::sync::atomic::AtomicU64;
use std::sync::atomic::Ordering::SeqCst;
use std::thread::yield_now;

/// How often a wait yields before it gives up.
const PATIENCE: u64 = 2_000_000;

/// That one thread is so far, for another that waits for it. Where no thread can be made one side runs after the other, and who
/// waits first waits in vain.
#[derive(Drop)]
pub struct Sign {
    given: AtomicU64,
    met: AtomicU64,
}

impl Sign {
    pub fn new() -> Sign {
        Sign {
            given: AtomicU64::new(0),
            met: AtomicU64::new(0),
        }
    }

    pub fn give(&self) {
        self.given.store(1, SeqCst);
    }

    /// Waits until the sign is given, or until it has waited too long.
    pub fn wait(&self) {
        for _ in 0..PATIENCE {
            if self.given.load(SeqCst) > 0 {
                self.met.store(1, SeqCst);
                return;
            }
            yield_now();
        }
    }

    /// Whether who waited for it saw it.
    pub fn is_met(&self) -> bool {
        self.met.load(SeqCst) > 0
    }
}
