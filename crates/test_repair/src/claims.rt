//! Claims and commits, in the orders in which several workers may make them.
use crate::rig::{Act, Told};
use crate::roads::{Case, Change};
use crate::stories::tell;

// Both nodes of slot 0 are claimed, and nothing more is to be had there; they are committed in the other order. The loading
// is worked through slot by slot, and what is shown at the end are the totals of the road as it was.
#[test]
fn all_pairs_are_repaired_slot_by_slot(rt: HostRuntime) {
    tell(
        &rt,
        rt.alloc(),
        Case::OneRoad,
        &[
            (Act::Accept(Change::FasterWave), Told::Yes),
            (Act::Claim, Told::Pair(0, 0)),
            (Act::Claim, Told::Pair(1, 0)),
            (Act::Books, Told::Numbers([1, 0, 2, 0])),
            (Act::Claim, Told::NotYet),
            (Act::Publish, Told::NotAtRest),
            (Act::Count, Told::NoCount),
            (Act::CommitLast, Told::Yes),
            (Act::CommitOther, Told::Yes),
            (Act::Claim, Told::Pair(0, 1)),
            (Act::CommitLast, Told::Yes),
            (Act::Work, Told::Steps(5)),
            (Act::Claim, Told::Rest),
            (Act::Publish, Told::Version(1)),
            (Act::Books, Told::Numbers([1, 1, 0, 0])),
            (Act::Totals, Told::Numbers([1000, 1000, 0, 0])),
            (Act::Count, Told::Commits(8)),
            (Act::Count, Told::Commits(0)),
        ],
    );
}

// While one node of slot 0 is claimed, the other is computed anew beside it, and then nothing more is to be had until the claim
// is committed. In all the same pairs are committed.
#[test]
fn pairs_are_computed_anew_beside_a_claim(rt: HostRuntime) {
    tell(
        &rt,
        rt.alloc(),
        Case::OneRoad,
        &[
            (Act::Accept(Change::FasterWave), Told::Yes),
            (Act::Claim, Told::Pair(0, 0)),
            (Act::Recompute, Told::Pair(1, 0)),
            (Act::Recompute, Told::NotYet),
            (Act::CommitLast, Told::Yes),
            (Act::Recompute, Told::Pair(0, 1)),
            (Act::Claim, Told::Pair(1, 1)),
            (Act::CommitLast, Told::Yes),
            (Act::Drain, Told::Steps(4)),
            (Act::Recompute, Told::Rest),
            (Act::Publish, Told::Version(1)),
            (Act::Totals, Told::Numbers([1000, 1000, 0, 0])),
            (Act::Count, Told::Commits(8)),
        ],
    );
}

// A batch voids the claim: its work is stale, and the same pair can be claimed again.
#[test]
fn work_of_an_older_batch_is_stale(rt: HostRuntime) {
    tell(
        &rt,
        rt.alloc(),
        Case::OneRoad,
        &[
            (Act::Accept(Change::FasterWave), Told::Yes),
            (Act::Claim, Told::Pair(0, 0)),
            (Act::Accept(Change::SameDemand), Told::Yes),
            (Act::Books, Told::Numbers([2, 0, 0, 0])),
            (Act::CommitLast, Told::Stale(1, 2)),
            (Act::Books, Told::Numbers([2, 0, 0, 0])),
            (Act::Claim, Told::Pair(0, 0)),
            (Act::CommitLast, Told::Yes),
            (Act::Work, Told::Steps(7)),
        ],
    );
}

// A claim that is given back leaves its pair to be claimed again, and no step is made.
#[test]
fn a_claim_that_is_given_back_can_be_made_again(rt: HostRuntime) {
    tell(
        &rt,
        rt.alloc(),
        Case::OneRoad,
        &[
            (Act::Accept(Change::FasterWave), Told::Yes),
            (Act::Claim, Told::Pair(0, 0)),
            (Act::GiveBack, Told::Yes),
            (Act::Books, Told::Numbers([1, 0, 0, 0])),
            (Act::Claim, Told::Pair(0, 0)),
            (Act::GiveBack, Told::Yes),
            (Act::Drain, Told::Steps(8)),
        ],
    );
}
