//! What is kept of each turn while the arms move, destination by destination.
ghost use Rattle.std.specs.Prelude.{◌≡◌, ℕ, ◌+◌, ◌<◌};
ghost use Rattle.ltm_node.specs.Inputs.{Inputs};
ghost use Rattle.ltm_node.specs.declared.portion.Portion.{Portion};
ghost use Rattle.ltm_node.specs.Moving.{IsPart, Passes, moved_by};

use crate::loads::Part;
use crate::moves::Mover;
use crate::split::part_of_turn;
use crate::turns::Turns;
use ltm_shares::Sent;

/// What is kept of each turn, an arm and an out-link, while the arms move. `Sent` has what has moved, and rounds each part
/// down by itself; `Turns` has what is left to move, and splits it.
pub trait Tally {
    ghost stands: { Self → Inputs → Portion → ℕ → ℕ → ℕ → Type 0 };

    /// To a destination to which nothing is sent an arm has moved as soon as to those before it.
    fn passes()
        ensures { (t : Self) (n : Inputs) (q : Portion) → Passes n (stands t n q) };

    /// What moves of a part.
    fn take(&mut self, mover: &Mover<'_>, part: Part) -> u64
        requires part { IsPart mover.now.inputs.now part }
        requires before { stands self.old mover.now.inputs.now mover.now.portion part.arm part.out part.destination }
        ensures moved { result ≡ moved_by mover.now part.arm part.destination part.out }
        ensures after { stands self.new mover.now.inputs.now mover.now.portion part.arm part.out
            (part.destination + 1) }
        ensures others { (i j d : ℕ) → j < 4 → (i ≡ part.arm → j ≡ part.out → ⊥)
            → stands self.old mover.now.inputs.now mover.now.portion i j d
            → stands self.new mover.now.inputs.now mover.now.portion i j d };
}

impl Tally for Sent {
    ghost use Rattle.ltm_node.specs.Tally.{HasMovedTo};

    ghost stands = { HasMovedTo };

    #[inline]
    fn passes() {}

    #[inline]
    fn take(&mut self, mover: &Mover<'_>, part: Part) -> u64 {
        let moved = mover.portion.of(part.arm, part.amount);
        self.add(part.arm as usize, part.out as usize, moved);
        moved
    }
}

impl Tally for Turns {
    ghost use Rattle.ltm_node.specs.Tally.{IsLeftOf};

    ghost stands = { IsLeftOf };

    #[inline]
    fn passes() {}

    #[inline]
    fn take(&mut self, _mover: &Mover<'_>, part: Part) -> u64 {
        let arm = part.arm as usize;
        let out = part.out as usize;
        let left = self.left.at(arm, out);
        let rest = self.rest.at(arm, out);
        let moved = part_of_turn(left, part.amount, rest);
        self.left.take(arm, out, moved);
        self.rest.take(arm, out, part.amount);
        moved
    }
}
