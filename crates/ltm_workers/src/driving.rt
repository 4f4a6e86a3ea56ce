//! Work of four virtual workers, in the order of a schedule.
ghost use Rattle.std.specs.Prelude.{◌≡◌, ◌↔◌, ◌+◌, ◌<◌, ◌^◌, All, IsSome, IsTrue};
ghost use Rattle.ltm_core.specs.Cores.{IsNoneOut};
ghost use Rattle.ltm_core.specs.Runs.{IsRun};
ghost use Rattle.ltm_workers.specs.Draining.{Works, KeepsButWork};
ghost use Rattle.ltm_workers.specs.Driving.{none_held, give_backs, TellsDrive, IsShortWhereEnded};
ghost use Rattle.ltm_workers.specs.Hands.{all_held, gave_back, waited, AreHandsKept, TellsFollowed, TellsEnd};

use crate::bench::{Bench, WORKERS};
use crate::hands::{Hands, let_go, pick, take_up};
use crate::virtual_turns::{Act, lay_down, turn};
use ltm_core::{Core, Scratch, logs_tell_all, runs_of_cores};
use ltm_units::Steps;

/// How a drive ended.
#[derive(Clone, Copy, Debug, PartialEq, Eq)]
pub enum Driven {
    /// No pair is active or claimed.
    Rest,
    /// All bytes of the schedule are used, and a pair is active.
    ScheduleEnded {
        /// How many bytes gave a claim back.
        given_back: u64,
        /// How many claims found that no pair was to be had yet.
        not_yet: u64,
    },
}

/// Counts of what workers did.
#[derive(Clone, Copy)]
struct Tally {
    given_back: u64,
    not_yet: u64,
}

impl Tally {
    /// Counts an act, and tells whether nothing was left to do.
    fn count(&mut self, act: Act) -> bool
        requires given_back { self.old.given_back < 2 ^ 63 }
        requires not_yet { self.old.not_yet < 2 ^ 63 }
        ensures given_back { self.new.given_back ≡ self.old.given_back + gave_back act }
        ensures not_yet { self.new.not_yet ≡ self.old.not_yet + waited act }
        ensures rest { IsTrue result ↔ (act ≡ Act.Rested) }
    {
        match act {
            Act::Claimed | Act::Committed => return false,
            Act::GaveBack => {
                self.given_back += 1;
                return false;
            }
            Act::Waited => {
                self.not_yet += 1;
                return false;
            }
            Act::Rested => return true,
        }
    }
}

/// How far a schedule was followed.
#[derive(Clone, Copy)]
enum Followed {
    /// To a claim that found nothing left to do.
    ToRest,
    /// To its end.
    ToEnd(Tally),
}

/// Makes the turns of a schedule, up to its end or to a claim that finds nothing left to do.
fn follow(core: &mut Core, hands: &mut Hands, schedule: &[u8], steps: &mut Steps) -> Followed
    requires none { all_held hands.old ≡ none_held }
    requires kept { AreHandsKept core.old hands.old }
    requires full { All IsSome hands.old }
    ensures followed { TellsFollowed core.old steps.old schedule.now result
        (all_held hands.new) core.new steps.new }
    ensures keeps { KeepsButWork core.old core.new }
    ensures kept { AreHandsKept core.new hands.new }
    ensures full { All IsSome hands.new }
{
    let _taken = steps.count();
    let mut tally = Tally {
        given_back: 0,
        not_yet: 0,
    };
    for byte in schedule {
        let act = turn(core, hands, *byte, steps);
        if tally.count(act) {
            return Followed::ToRest;
        }
    }
    Followed::ToEnd(tally)
}

/// Empties all hands: the pairs in them are given back, in the order of the workers.
fn lay_all_down(core: &mut Core, hands: Hands, scratches: &mut [Option<Scratch>; WORKERS])
    requires kept { AreHandsKept core.old hands }
    requires full { All IsSome hands }
    ensures run { IsRun core.old (give_backs (all_held hands)) core.new }
    ensures keeps { KeepsButWork core.old core.new }
    ensures full { All IsSome scratches.new }
{
    let mut hands = hands;
    for worker in 0..WORKERS {
        let hand = pick(&mut hands, worker);
        scratches[worker] = Some(lay_down(core, hand));
    }
    let_go(hands);
}

/// Tells how a drive ended.
fn end(core: &Core, followed: Followed) -> Driven
    ensures { TellsEnd followed result core.now }
{
    match followed {
        Followed::ToRest => return Driven::Rest,
        Followed::ToEnd(tally) => {
            if core.at_rest() {
                return Driven::Rest;
            }
            return Driven::ScheduleEnded {
                given_back: tally.given_back,
                not_yet: tally.not_yet,
            };
        }
    }
}

/// Works on a core, where no claim is out, by four virtual workers, as a schedule says: with the byte `b` worker `b % 4`
/// acts. Without a pair it claims one; with a pair it gives it back where `b / 4 % 8` is 7, and else works on it and commits
/// it. A claim that finds no pair active or claimed ends the drive; at its end the pairs that are still held are given back.
/// Each commit ticks the counter once. Takes no memory.
///
/// A schedule of `2 * pairs + 1` bytes of 0 always brings the core to rest.
pub fn drive(core: &mut Core, bench: &mut Bench, schedule: &[u8], steps: &mut Steps) -> Driven
    requires { IsNoneOut core.old }
    ensures drive { TellsDrive core.old schedule.now result core.new }
    ensures works { Works core.old steps.old core.new steps.new }
    ensures short { IsShortWhereEnded core.old schedule.now result }
{
    runs_of_cores();
    logs_tell_all();
    core.facts();
    let _out = core.claimed();
    let mut hands = take_up(&mut bench.scratches);
    let followed = follow(core, &mut hands, schedule, steps);
    core.facts();
    lay_all_down(core, hands, &mut bench.scratches);
    end(core, followed)
}
