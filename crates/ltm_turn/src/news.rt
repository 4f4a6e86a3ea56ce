//! How those who find nothing to do in the value wait for news of it.
use crate::Told;
use crate::passes::Turn;
use crossbeam_utils::sync::Key;

impl<T: Told> Turn<T> {
    /// Listens for news from now on. It is called before a turn is taken; where that turn shows nothing to do, `wait` of what
    /// it gives sleeps until news are told that came after the call, and where it shows something, it is let go.
    pub fn listen(&self) -> Key<'_> {
        self.news.prepare_wait()
    }

    /// Tells news to one of those who sleep, and to all who listen and do not sleep yet. The turn was given before.
    pub fn notify_one(&self) {
        self.news.notify_one();
    }

    /// Tells news to all who listen. The turn was given before.
    pub fn notify_all(&self) {
        self.news.notify_all();
    }
}
