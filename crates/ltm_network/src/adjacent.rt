//! The links on one side of a node.
ghost use Rattle.std.specs.Prelude.{◌≡◌, ℕ, ◌<◌, ◌≤◌, List, [], ◌∷◌, ◌++◌, length, map};

use ltm_units::LinkId;
use std::alloc::AllocError;
use std::marker::Model;

/// At most four links, in order of number. Contracts see the list of their numbers.
#[derive(Drop)]
pub struct Adjacent {
    links: [LinkId; 4],
    count: u8,
}

impl Model for Adjacent {
    ghost use Rattle.std.specs.Prelude.{◌≤◌, List, ℕ, map, take};

    ghost Value = { List ℕ };

    ghost view = { λ a. map (λ link. link.0) (take a.count a.links) };

    ghost invariant = { λ a. a.count ≤ 4 };
}

impl Clone for Adjacent {
    ghost use Rattle.std.specs.Prelude.{◌≡◌};

    ghost is_clone = { λ adjacent copy. copy ≡ adjacent };

    fn clone(&self) -> Result<Adjacent, AllocError> {
        Ok(Adjacent {
            links: self.links,
            count: self.count,
        })
    }
}

impl Adjacent {
    pub fn new() -> Adjacent
        ensures { result ≡ [] }
    {
        Adjacent {
            links: [LinkId(0); 4],
            count: 0,
        }
    }

    pub fn links(&self) -> &[LinkId]
        ensures links { map (λ link. link.0) result.now ≡ self.now }
        ensures few { length result.now ≤ 4 }
    {
        &self.links[..self.count as usize]
    }

    /// Puts a link last.
    pub fn push(&mut self, link: LinkId)
        requires { length self.old < 4 }
        ensures { self.new ≡ self.old ++ link.0 ∷ [] }
    {
        self.links[self.count as usize] = link;
        self.count += 1;
    }
}
