//! - **What it is**: a session beside workers: the thread that reads the script answers its lines, while up to 64 workers
//!   repair the loading in threads of their own.
//! - **On what it stands**: `ltm_session` for lines, answers and ends, `ltm_turn` in which the core lies, `ltm_workers` for what
//!   a worker does and for a settle beside workers.
//! - **What a call costs**: what a session without workers costs, a turn for each line, and the buffers of each worker. It
//!   starts threads and may wait.
//! - **When to change it here**: when threads are started or ended in another way, or when a line is answered in other turns.
#![tactic(auto)]

mod answering;
mod beside;
mod crew;
mod place;
mod serving;

pub use serving::serve;
