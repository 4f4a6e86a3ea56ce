//! The destinations in the order of their numbers.
//!
//! Where there are many, most nodes send to few of them in a slot. So those to which nothing is sent are passed over four
//! at a time.
ghost use Rattle.std.specs.Prelude.{◌≡◌, ◌<◌, ◌≤◌, ◌+◌, ℕ, IsFalse};
ghost use Rattle.ltm_node.specs.Shape.{sending_place};
ghost use Rattle.ltm_node.specs.Inputs.{sending};

use super::Mover;
use crate::tally::Tally;

/// From so many destinations on they are looked at by fours.
const MANY: u32 = 12;

impl Mover<'_> {
    ghost use Rattle.ltm_node.specs.Moving.{HaveMovedTo, IsSentNothing};

    /// What an arm sends to the four destinations from this one on, laid over one another: 0 only where it sends to none.
    #[inline]
    fn four_at(&self, arm: u32, destination: u32, place: usize) -> u64
        requires arm { arm < self.now.inputs.now.shape.arms }
        requires four { destination + 4 ≤ self.now.inputs.now.shape.destinations }
        requires place { place ≡ sending_place self.now.shape arm destination }
        ensures { (d : ℕ) → destination ≤ d → d < destination + 4
            → sending self.now.inputs.now arm d ≤ result }
    {
        let four = &self.numbers.row[place..place + 4];
        (four[0] | four[1]) | (four[2] | four[3])
    }

    /// Whether some arm sends to one of the four destinations from this one on.
    #[inline]
    fn is_sent_to_four(&self, destination: u32) -> bool
        requires { destination + 4 ≤ self.now.inputs.now.shape.destinations }
        ensures { IsFalse result → IsSentNothing self.now.inputs.now destination (destination + 4) }
    {
        let mut any = 0u64;
        let mut place = destination as usize;
        for arm in 0..self.shape.arms {
            any |= self.four_at(arm, destination, place);
            place += self.shape.destinations as usize;
        }
        any != 0
    }

    /// The first of the next four destinations to which some arm sends, or the first of the fewer that are left.
    #[inline]
    fn next_four(&self, from: u32) -> u32
        requires { from ≤ self.now.inputs.now.shape.destinations }
        ensures behind { from ≤ result }
        ensures within { result ≤ self.now.inputs.now.shape.destinations }
        ensures nothing { IsSentNothing self.now.inputs.now from result }
    {
        let mut destination = from;
        while destination + 4 <= self.shape.destinations {
            if self.is_sent_to_four(destination) {
                return destination;
            }
            destination += 4;
        }
        destination
    }

    /// From where on destinations are looked at one by one: where there are few, from this one on.
    #[inline]
    fn next_sent(&self, from: u32) -> u32
        requires { from ≤ self.now.inputs.now.shape.destinations }
        ensures behind { from ≤ result }
        ensures within { result ≤ self.now.inputs.now.shape.destinations }
        ensures nothing { IsSentNothing self.now.inputs.now from result }
    {
        if self.shape.destinations < MANY {
            return from;
        }
        self.next_four(from)
    }

    /// How far they are: where there are few, to the last one, else four of them.
    #[inline]
    fn end_of(&self, next: u32) -> u32
        requires { next ≤ self.now.inputs.now.shape.destinations }
        ensures order { next ≤ result }
        ensures within { result ≤ self.now.inputs.now.shape.destinations }
        ensures on { next < self.now.inputs.now.shape.destinations → next < result }
    {
        if self.shape.destinations < MANY {
            return self.shape.destinations;
        }
        (next + 4).min(self.shape.destinations)
    }

    /// Adds what all arms move to some destinations, in the order of their numbers.
    #[inline]
    fn move_some<T: Tally>(&self, from: u32, end: u32, row: &mut [u64], tally: &mut T)
        requires order { from ≤ end }
        requires within { end ≤ self.now.inputs.now.shape.destinations }
        requires before { HaveMovedTo self.now (T.stands tally.old) from row.old }
        ensures after { HaveMovedTo self.now (T.stands tally.new) end row.new }
    {
        for destination in from..end {
            self.move_to(destination, row, tally);
        }
    }

    /// Adds what all arms move to the next destinations that are looked at one by one, and gives the one behind them.
    #[inline]
    fn move_next<T: Tally>(&self, from: u32, row: &mut [u64], tally: &mut T) -> u32
        requires from { from < self.now.inputs.now.shape.destinations }
        requires before { HaveMovedTo self.now (T.stands tally.old) from row.old }
        ensures on { from < result }
        ensures within { result ≤ self.now.inputs.now.shape.destinations }
        ensures after { HaveMovedTo self.now (T.stands tally.new) result row.new }
    {
        T::passes();
        let next = self.next_sent(from);
        let end = self.end_of(next);
        self.move_some(next, end, row, tally);
        end
    }

    /// Adds what all arms move to all destinations, in the order of their numbers, and keeps the tally. One pass serves few and
    /// many, so that what is done for a destination stays in line.
    pub fn move_all<T: Tally>(&self, row: &mut [u64], tally: &mut T)
        requires before { HaveMovedTo self.now (T.stands tally.old) 0 row.old }
        ensures after { HaveMovedTo self.now (T.stands tally.new) self.now.inputs.now.shape.destinations row.new }
    {
        let mut destination = 0u32;
        while destination < self.shape.destinations {
            destination = self.move_next(destination, row, tally);
        }
    }
}
