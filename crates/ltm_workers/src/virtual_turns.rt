//! The turns of virtual workers.
ghost use Rattle.std.specs.Prelude.{◌≡◌, ℕ, ◌+◌, min, All, IsSome, None};
ghost use Rattle.ltm_workers.specs.Draining.{KeepsButWork};
ghost use Rattle.ltm_workers.specs.Driving.{says_give_back};
ghost use Rattle.ltm_workers.specs.Hands.{held_in, all_held, IsHandKept, AreHandsKept, committed, TellsAct, SparesOthers, IsNextHand, TellsTurn, LaysDown};

use crate::draining::finish;
use crate::hands::{Hand, Hands, pick, put};
use ltm_core::{Claim, Claimed, Core, Scratch};
use ltm_units::Steps;

/// What a worker did.
#[derive(Clone, Copy)]
pub(crate) enum Act {
    /// It claimed a pair.
    Claimed,
    /// It worked on its pair and committed it.
    Committed,
    /// It gave its pair back.
    GaveBack,
    /// It claimed, and no pair is to be had yet.
    Waited,
    /// It claimed, and no pair is left.
    Rested,
}

/// Whether a byte says that a worker gives its pair back.
fn gives_back(byte: u8) -> bool
    ensures { result ≡ says_give_back byte }
{
    byte / 4 % 8 == 7
}

/// Claims a pair.
fn take_pair(core: &mut Core, scratch: Scratch) -> (Act, Hand)
    ensures act { (byte : ℕ) → TellsAct byte core.old None result.0 core.new (held_in result.1) }
    ensures commits { committed result.0 ≡ 0 }
    ensures spares { SparesOthers core.old (Hand.Free scratch) core.new }
    ensures next { IsNextHand core.old (Hand.Free scratch) core.new result.1 }
{
    core.facts();
    match core.claim(scratch) {
        Claimed::Got(claim) => return (Act::Claimed, Hand::Holds(claim)),
        Claimed::NotYet(scratch) => return (Act::Waited, Hand::Free(scratch)),
        Claimed::Rest(scratch) => return (Act::Rested, Hand::Free(scratch)),
    }
}

/// Gives a claim back that is kept.
fn give_up(core: &mut Core, claim: Claim) -> Scratch
    requires { IsHandKept core.old (Hand.Holds claim) }
    ensures { LaysDown core.old (Hand.Holds claim) core.new }
{
    core.give_back(claim)
}

/// Makes the turn of a byte with what its worker has in hand.
fn act_with(core: &mut Core, hand: Hand, byte: u8, steps: &mut Steps) -> (Act, Hand)
    requires { IsHandKept core.old hand }
    ensures act { TellsAct byte core.old (held_in hand) result.0 core.new (held_in result.1) }
    ensures ticks { steps.new ≡ min (steps.old + committed result.0) u64.MAX }
    ensures spares { SparesOthers core.old hand core.new }
    ensures next { IsNextHand core.old hand core.new result.1 }
{
    let _taken = steps.count();
    match hand {
        Hand::Free(scratch) => return take_pair(core, scratch),
        Hand::Holds(claim) => {
            if gives_back(byte) {
                return (Act::GaveBack, Hand::Free(give_up(core, claim)));
            }
            return (Act::Committed, Hand::Free(finish(core, claim, steps)));
        }
    }
}

/// Makes the turn of a byte.
pub(crate) fn turn(core: &mut Core, hands: &mut Hands, byte: u8, steps: &mut Steps) -> Act
    requires kept { AreHandsKept core.old hands.old }
    requires full { All IsSome hands.old }
    ensures act { TellsTurn byte core.old (all_held hands.old) result core.new
        (all_held hands.new) }
    ensures ticks { steps.new ≡ min (steps.old + committed result) u64.MAX }
    ensures keeps { KeepsButWork core.old core.new }
    ensures kept { AreHandsKept core.new hands.new }
    ensures full { All IsSome hands.new }
{
    let worker = usize::from(byte % 4);
    let hand = pick(hands, worker);
    let (act, next) = act_with(core, hand, byte, steps);
    put(hands, worker, next);
    act
}

/// Empties a hand: a pair in it is given back.
pub(crate) fn lay_down(core: &mut Core, hand: Hand) -> Scratch
    requires { IsHandKept core.old hand }
    ensures { LaysDown core.old hand core.new }
{
    match hand {
        Hand::Free(scratch) => return scratch,
        Hand::Holds(claim) => return give_up(core, claim),
    }
}
