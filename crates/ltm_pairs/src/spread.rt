//! A short list of reaches.
ghost use Rattle.std.specs.Prelude.{◌≡◌, ◌<◌, [], ◌∷◌, ◌++◌, length, Some};
ghost use Rattle.ltm_pairs.specs.Reaches.{no_spread};

use ltm_units::{NodeId, Reach};
use std::marker::Model;

/// At most 16 reaches, and slots of which every pair is new. Pairs that lie in none of them read what they read before.
///
/// Contracts see the list of reaches and the slots.
#[derive(Drop)]
pub struct Spread {
    reaches: [Reach; 16],
    count: u8,
    /// The first slot, and the slot behind the last one, of which the pairs of all nodes are new.
    pub all_new: Option<(u32, u32)>,
}

impl Model for Spread {
    ghost use Rattle.std.specs.Prelude.{◌≤◌, take};
    ghost use Rattle.ltm_pairs.specs.Reaches.{SpreadData};

    ghost Value = { SpreadData };

    ghost view = { λ s. record { reaches = take s.count s.reaches; all_new = s.all_new } };

    ghost invariant = { λ s. s.count ≤ 16 };
}

impl Spread {
    /// No reach, and no new slots.
    pub fn new() -> Spread
        ensures { result ≡ no_spread }
    {
        let none = Reach {
            node: NodeId(0),
            from: 0,
            to: 0,
        };
        Spread {
            reaches: [none; 16],
            count: 0,
            all_new: None,
        }
    }

    /// The reaches, in order.
    pub fn reaches(&self) -> &[Reach]
        ensures { result.now ≡ self.now.reaches }
    {
        &self.reaches[..self.count as usize]
    }

    /// Takes all reaches and the new slots out.
    pub(crate) fn clear(&mut self)
        ensures { self.new ≡ no_spread }
    {
        self.count = 0;
        self.all_new = None;
    }

    /// Says of which slots every pair is new.
    pub(crate) fn add_slots(&mut self, from: u32, to: u32)
        ensures { self.new ≡ record self.old { all_new = Some (from, to) } }
    {
        self.all_new = Some((from, to));
    }

    /// Puts one more reach behind the others.
    pub(crate) fn push(&mut self, reach: Reach)
        requires { length self.old.reaches < 16 }
        ensures { self.new ≡ record self.old { reaches = self.old.reaches ++ reach ∷ [] } }
    {
        self.reaches[self.count as usize] = reach;
        self.count += 1;
    }
}
