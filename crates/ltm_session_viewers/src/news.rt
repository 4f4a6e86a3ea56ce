//! What viewers listen for.
use std::sync::Wait;
use std::sync::atomic::{AtomicBool, AtomicU64, Ordering};

/// How many loadings were posted since the boards were hung, and whether the script is at its end. It is a bell alone: what
/// is read is told by the boards.
#[derive(Drop)]
pub(crate) struct News {
    posts: AtomicU64,
    ended: AtomicBool,
}

impl News {
    /// Nothing was posted yet.
    pub(crate) fn new() -> News {
        News {
            posts: AtomicU64::new(0),
            ended: AtomicBool::new(false),
        }
    }

    /// What was heard so far.
    pub(crate) fn heard(&self) -> u64 {
        self.posts.load(Ordering::SeqCst)
    }

    /// Whether the script is at its end.
    pub(crate) fn has_ended(&self) -> bool {
        self.ended.load(Ordering::SeqCst)
    }

    /// Tells all who listen of a post.
    pub(crate) fn tell_post(&self) {
        self.posts.fetch_add(1, Ordering::SeqCst);
        self.posts.wake_all();
    }

    /// Tells all who listen that the script is at its end.
    pub(crate) fn tell_end(&self) {
        self.ended.store(true, Ordering::SeqCst);
        self.tell_post();
    }

    /// Sleeps until there is more than what was heard. It may also return for no reason.
    pub(crate) fn listen<R: Wait>(&self, rt: &R, heard: u64) {
        self.posts.park(rt, (heard % (1 << 32)) as u32);
    }
}
