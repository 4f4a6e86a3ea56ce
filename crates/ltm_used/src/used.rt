//! The destinations that can be on each link, in order.
ghost use Rattle.std.specs.Prelude.{◌≡◌, ℕ, ◌+◌, ◌<◌, ◌≤◌, length, slice_index};

/// For each link, or each node, the destinations that can be there, in order. Nothing of any other is ever counted there.
#[derive(Drop)]
pub struct Used {
    /// Where the list of each link or node begins, and where the last one ends.
    starts: Vec<usize>,
    destinations: Vec<u32>,
    ghost some: { 0 < length starts.items },
    ghost rise: { (l : ℕ) → l + 1 < length starts.items → slice_index starts.items l ≤ slice_index starts.items (l + 1) },
    ghost inside: { (l : ℕ) → l < length starts.items → slice_index starts.items l ≤ length destinations.items },
}

impl Used {
    ghost use Rattle.ltm_used.specs.Lists.{links_of, list_of};

    /// Lists that lie one behind another, and where each begins and the last one ends.
    pub(crate) fn of(starts: Vec<usize>, destinations: Vec<u32>) -> Used
        requires some { 0 < length starts.items }
        requires rise { (l : ℕ) → l + 1 < length starts.items → slice_index starts.items l ≤ slice_index starts.items (l + 1) }
        requires inside { (l : ℕ) → l < length starts.items → slice_index starts.items l ≤ length destinations.items }
        ensures starts { result.starts.items ≡ starts.items }
        ensures destinations { result.destinations.items ≡ destinations.items }
    {
        Used {
            starts,
            destinations,
        }
    }

    /// For how many links, or nodes, there are lists.
    pub fn links(&self) -> usize
        ensures { result ≡ links_of self.now }
    {
        self.starts.len() - 1
    }

    /// The destinations that can be on a link, or at a node, in order.
    pub fn on(&self, link: usize) -> &[u32]
        requires { link < links_of self.now }
        ensures { result.now ≡ list_of self.now link }
    {
        &self.destinations[self.starts[link]..self.starts[link + 1]]
    }
}
