//! Whether posts begin with others.
ghost use Rattle.std.specs.Prelude.{◌≡◌, IsTrue};
ghost use mathlib.Core.List.{IsPrefix};
ghost use Rattle.ltm_board.specs.Panels.{batches_in};

use ltm_scenario::{Batch, same_batch};

fn same_batches(a: &[Batch], b: &[Batch]) -> bool
    ensures { IsTrue result → a.now ≡ b.now }
{
    if a.len() != b.len() {
        return false;
    }
    for i in 0..a.len() {
        if !same_batch(&a[i], &b[i]) {
            return false;
        }
    }
    true
}

/// Whether the first posts have the batches of others.
pub(crate) fn begins_with(posts: &[Vec<Batch>], others: &[Vec<Batch>]) -> bool
    ensures { IsTrue result → IsPrefix (batches_in others.now) (batches_in posts.now) }
{
    if posts.len() < others.len() {
        return false;
    }
    for i in 0..others.len() {
        if !same_batches(&posts[i], &others[i]) {
            return false;
        }
    }
    true
}
