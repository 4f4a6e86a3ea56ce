//! Settle counts and what is shown, after batches.
use crate::rig::{Act, Told};
use crate::roads::{Case, Change};
use crate::stories::tell;

// The queue before the closed `b` reaches back to the origin: slots 6 to 11 of n1, all twelve of n2, and 4 to 11 of n3.
#[test]
fn a_closure_that_spills_back_commits_26_pairs(rt: HostRuntime) {
    tell(
        &rt,
        rt.alloc(),
        Case::TwoRoads,
        &[
            (Act::Totals, Told::Numbers([5000, 4000, 1000, 0])),
            (Act::Accept(Change::CloseB), Told::Yes),
            (Act::Work, Told::Steps(26)),
            (Act::Publish, Told::Version(1)),
            (Act::Count, Told::Commits(26)),
            (Act::Totals, Told::Numbers([5000, 0, 3000, 2000])),
        ],
    );
}

// A closure at the entry delays the departure: slots 0 to 2 of n1 and 2 to 3 of n2, out of 8 pairs; they change counts in
// eight cells. Once n1 is done in slot 0, n2 has nothing to do in slot 1. Nothing is shown or counted before all is done.
#[test]
fn a_closure_at_the_entry_commits_five_pairs(rt: HostRuntime) {
    tell(
        &rt,
        rt.alloc(),
        Case::OneRoad,
        &[
            (Act::Accept(Change::CloseA), Told::Yes),
            (Act::Publish, Told::NotAtRest),
            (Act::Claim, Told::Pair(0, 0)),
            (Act::CommitLast, Told::Yes),
            (Act::Claim, Told::Pair(0, 1)),
            (Act::Claim, Told::NotYet),
            (Act::CommitLast, Told::Yes),
            (Act::Work, Told::Steps(3)),
            (Act::Books, Told::Numbers([1, 0, 0, 8])),
            (Act::Count, Told::NoCount),
            (Act::Publish, Told::Version(1)),
            (Act::Books, Told::Numbers([1, 1, 0, 0])),
            (Act::Totals, Told::Numbers([1000, 500, 500, 0])),
            (Act::Count, Told::Commits(5)),
        ],
    );
}

// A demand row that is set again changes nothing.
#[test]
fn a_count_begins_again_after_each_settle(rt: HostRuntime) {
    tell(
        &rt,
        rt.alloc(),
        Case::OneRoad,
        &[
            (Act::Accept(Change::CloseA), Told::Yes),
            (Act::Drain, Told::Steps(5)),
            (Act::Drain, Told::Steps(0)),
            (Act::Books, Told::Numbers([1, 0, 0, 8])),
            (Act::Publish, Told::Version(1)),
            (Act::Count, Told::Commits(5)),
            (Act::Accept(Change::SameDemand), Told::Yes),
            (Act::Count, Told::NoCount),
            (Act::Drain, Told::Steps(0)),
            (Act::Publish, Told::Version(2)),
            (Act::Count, Told::Commits(0)),
            (Act::Publish, Told::Version(2)),
            (Act::Count, Told::Commits(0)),
            (Act::Totals, Told::Numbers([1000, 500, 500, 0])),
        ],
    );
}

// No link is called z, so neither edit is made, and the batch comes back.
#[test]
fn a_refused_batch_changes_nothing(rt: HostRuntime) {
    tell(
        &rt,
        rt.alloc(),
        Case::OneRoad,
        &[
            (Act::Accept(Change::CloseAThenZ), Told::Refused(2, 2)),
            (Act::Books, Told::Numbers([0, 0, 0, 0])),
            (Act::Work, Told::Steps(0)),
            (Act::Publish, Told::Version(0)),
            (Act::Count, Told::Commits(0)),
            (Act::Totals, Told::Numbers([1000, 1000, 0, 0])),
        ],
    );
}
