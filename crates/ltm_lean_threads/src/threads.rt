//! How many threads pay.
ghost use Rattle.std.specs.Prelude.{◌≡◌, ◌-◌, ◌^◌, ◌<◌, ◌≤◌, min};
ghost use Rattle.ltm_lean_threads.specs.Threads.{most_threads, entries_of, threads_that_pay};

use ltm_lean::Tables;
use std::thread;
use std::thread::Threads;

/// Nodes are never moved in more threads than this.
const MOST_THREADS: usize = 16;

/// With fewer destinations on all links together a slot takes less time than starting threads does.
const FEWEST_ENTRIES: u64 = 200_000;

/// How many destinations can be on the links, together.
#[tactic(auto, using(ltm_units::proofs::Sums::sum_below_more))]
fn entries(tables: &Tables) -> u64
    ensures { result ≡ min (2 ^ 64 - 1) (entries_of tables.now) }
{
    let mut sum = 0u64;
    for link in 0..tables.links.links() {
        sum = sum.saturating_add(tables.links.on(link).len() as u64);
    }
    sum
}

/// How many processors there are, at most 16.
pub fn processors<R: Threads>(rt: &R) -> usize
    ensures some { 0 < result }
    ensures few { result ≤ most_threads }
{
    match thread::available_parallelism(rt) {
        Ok(count) => count.get().min(MOST_THREADS),
        Err(_) => 1,
    }
}

/// In how many threads the nodes of a slot are moved where so many are at hand: in one, unless so many destinations can be on the
/// links that a slot takes longer than starting threads does.
pub fn threads_for(tables: &Tables, most: usize) -> usize
    ensures { result ≡ threads_that_pay (entries_of tables.now) most }
{
    if entries(tables) < FEWEST_ENTRIES {
        1
    } else {
        most.min(MOST_THREADS).max(1)
    }
}
