//! A core on which one thing at a time is done.
use crate::roads::{Case, Change, batch_of, scenario_of};
use ltm_core::{Claim, Claimed, Committed, Core, Published, Recomputed, Scratch};
use ltm_scenario::{Batch, EditCause};
use ltm_units::Steps;
use ltm_workers::{Bench, Driven, drain, drive};
use std::alloc::Global;

/// What is done.
#[derive(Clone, Copy)]
pub enum Act {
    Accept(Change),
    /// A claim, which is kept in hand beside the one that was made before it.
    Claim,
    /// The claim that was made last is worked on and committed.
    CommitLast,
    /// The claim that was made before the last one is worked on and committed.
    CommitOther,
    /// The claim that was made last is given back.
    GiveBack,
    /// A pair is claimed, worked on and committed in one call.
    Recompute,
    /// Claims, works and commits until nothing is left to do.
    Work,
    /// The same by a drain.
    Drain,
    /// A drive by a schedule.
    Drive(&'static [u8]),
    Publish,
    Count,
    /// How many batches are accepted, how many of them are shown, how many pairs are claimed, and how many cells changed.
    Books,
    /// Generated, arrived, on links and waiting of what is shown, in units.
    Totals,
}

/// What is answered.
#[derive(Clone, Copy, PartialEq, Eq)]
pub enum Told {
    /// It is done.
    Yes,
    /// The batch came back with so many edits, and the edit of this place was refused.
    Refused(u64, u32),
    /// The node and the slot that are claimed, or computed anew.
    Pair(u32, u32),
    NotYet,
    Rest,
    /// The ticket of the work, and the number of batches now.
    Stale(u64, u64),
    /// So many steps were made.
    Steps(u64),
    /// A drive came to rest after so many steps.
    Rested(u64),
    /// A schedule ended: so many bytes gave back, so many claims had to wait, and so many steps were made.
    Ended(u64, u64, u64),
    Version(u64),
    NotAtRest,
    Commits(u128),
    NoCount,
    Numbers([u64; 4]),
    /// There is no memory, no claim in hand, or no fit batch.
    Nothing,
}

/// A core, and the claims in hand.
pub struct Rig {
    core: Core,
    last: Option<Claim>,
    other: Option<Claim>,
}

/// A core of a case.
pub fn rig_of(alloc: Global, case: Case) -> Option<Rig> {
    let scenario = scenario_of(alloc, case)?;
    match Core::create(alloc, scenario) {
        Ok(core) => Some(Rig {
            core,
            last: None,
            other: None,
        }),
        Err(_) => None,
    }
}

/// Has a batch accepted.
fn accept(core: &mut Core, batch: Batch) -> Told {
    if !batch.has_amounts() {
        return Told::Nothing;
    }
    match core.accept(batch) {
        Ok(()) => Told::Yes,
        Err((back, fault)) => refused(&back, fault.place),
    }
}

fn refused(batch: &Batch, place: u32) -> Told {
    Told::Refused(batch.edits().len() as u64, place)
}

/// Works on a claim and commits it.
fn finish(core: &mut Core, claim: Claim, steps: &mut Steps) -> Told {
    match core.commit(claim.work(steps)) {
        Committed::Ok(_) => Told::Yes,
        Committed::Stale {
            claimed_at,
            now,
            scratch: _,
        } => Told::Stale(claimed_at, now),
    }
}

fn give_back(core: &mut Core, claim: Claim) -> Told {
    let _ = core.give_back(claim);
    Told::Yes
}

/// Computes a pair anew in one call.
fn recompute(core: &mut Core) -> Told {
    let Ok(mut scratch) = core.scratch() else {
        return Told::Nothing;
    };
    match core.recompute(&mut scratch) {
        Recomputed::Done(pair) => Told::Pair(pair.node.0, pair.slot),
        Recomputed::NotYet => Told::NotYet,
        Recomputed::Rest => Told::Rest,
    }
}

/// Claims a pair, works on it and commits it; none at rest or where claims are out.
fn work_once(core: &mut Core, scratch: Scratch, steps: &mut Steps) -> Option<Scratch> {
    match core.claim(scratch) {
        Claimed::Got(claim) => match core.commit(claim.work(steps)) {
            Committed::Ok(scratch) => Some(scratch),
            Committed::Stale {
                claimed_at: _,
                now: _,
                scratch: _,
            } => None,
        },
        Claimed::NotYet(_) => None,
        Claimed::Rest(_) => None,
    }
}

fn work(core: &mut Core) -> Told {
    let mut steps = Steps::new();
    let Ok(first) = core.scratch() else {
        return Told::Nothing;
    };
    let mut scratch = first;
    for _ in 0..1000 {
        match work_once(core, scratch, &mut steps) {
            Some(next) => scratch = next,
            None => return Told::Steps(steps.count()),
        }
    }
    Told::Nothing
}

fn drained(core: &mut Core) -> Told {
    let Ok(mut scratch) = core.scratch() else {
        return Told::Nothing;
    };
    if core.claimed() != 0 {
        return Told::Nothing;
    }
    let mut steps = Steps::new();
    drain(core, &mut scratch, &mut steps);
    Told::Steps(steps.count())
}

fn driven(core: &mut Core, schedule: &[u8]) -> Told {
    let Ok(mut bench) = Bench::create(core) else {
        return Told::Nothing;
    };
    if core.claimed() != 0 {
        return Told::Nothing;
    }
    let mut steps = Steps::new();
    match drive(core, &mut bench, schedule, &mut steps) {
        Driven::Rest => Told::Rested(steps.count()),
        Driven::ScheduleEnded {
            given_back,
            not_yet,
        } => Told::Ended(given_back, not_yet, steps.count()),
    }
}

fn publish(core: &mut Core) -> Told {
    match core.publish() {
        Published::Done(version) => Told::Version(version),
        Published::NotAtRest => Told::NotAtRest,
    }
}

fn count(core: &mut Core) -> Told {
    match core.settle_count() {
        Some(commits) => Told::Commits(commits),
        None => Told::NoCount,
    }
}

fn books(core: &Core) -> Told {
    Told::Numbers([
        core.version(),
        core.shown().version(),
        u64::from(core.claimed()),
        core.changed(),
    ])
}

fn totals(core: &Core) -> Told {
    let totals = core.shown().totals();
    Told::Numbers([
        totals.generated.0,
        totals.arrived.0,
        totals.on_links.0,
        totals.waiting.0,
    ])
}

/// Gives a claim back, where there is one.
fn put_back(core: &mut Core, claim: Option<Claim>) -> Told {
    match claim {
        Some(claim) => give_back(core, claim),
        None => Told::Nothing,
    }
}

/// Works on a claim and commits it, where there is one.
fn commit(core: &mut Core, claim: Option<Claim>) -> Told {
    let mut steps = Steps::new();
    match claim {
        Some(claim) => finish(core, claim, &mut steps),
        None => Told::Nothing,
    }
}

impl Rig {
    fn change(&mut self, alloc: Global, change: Change) -> Told {
        match batch_of(alloc, change) {
            Some(batch) => accept(&mut self.core, batch),
            None => Told::Nothing,
        }
    }

    /// Keeps a claim in hand, and the one before it; any older one is given back.
    fn hold(&mut self, claim: Claim) {
        let before = self.last.replace(claim);
        let oldest = std::mem::replace(&mut self.other, before);
        let _ = put_back(&mut self.core, oldest);
    }

    fn claim(&mut self) -> Told {
        let Ok(scratch) = self.core.scratch() else {
            return Told::Nothing;
        };
        match self.core.claim(scratch) {
            Claimed::Got(claim) => {
                let pair = claim.pair();
                self.hold(claim);
                Told::Pair(pair.node.0, pair.slot)
            }
            Claimed::NotYet(_) => Told::NotYet,
            Claimed::Rest(_) => Told::Rest,
        }
    }

    fn commit_last(&mut self) -> Told {
        let claim = self.last.take();
        commit(&mut self.core, claim)
    }

    fn commit_other(&mut self) -> Told {
        let claim = self.other.take();
        commit(&mut self.core, claim)
    }

    fn give_back(&mut self) -> Told {
        let claim = self.last.take();
        put_back(&mut self.core, claim)
    }

    /// Does one thing.
    pub fn act(&mut self, alloc: Global, act: Act) -> Told {
        match act {
            Act::Accept(change) => self.change(alloc, change),
            Act::Claim => self.claim(),
            Act::CommitLast => self.commit_last(),
            Act::CommitOther => self.commit_other(),
            Act::GiveBack => self.give_back(),
            Act::Recompute => recompute(&mut self.core),
            Act::Work => work(&mut self.core),
            Act::Drain => drained(&mut self.core),
            Act::Drive(schedule) => driven(&mut self.core, schedule),
            Act::Publish => publish(&mut self.core),
            Act::Count => count(&mut self.core),
            Act::Books => books(&self.core),
            Act::Totals => totals(&self.core),
        }
    }

    /// Gives the claims in hand back.
    pub fn end(self) {
        let Rig {
            mut core,
            last,
            other,
        } = self;
        let _ = put_back(&mut core, last);
        let _ = put_back(&mut core, other);
    }
}
