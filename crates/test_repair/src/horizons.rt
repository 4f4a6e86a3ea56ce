//! Batches that make the horizon longer.
use crate::rig::{Act, Told};
use crate::roads::{Case, Change};
use crate::stories::tell;

// Both pairs of the fourth slot are new, and nothing else is to be done. They change the counts at boundary 4, which begin at
// 0: what has entered and left the link, what has left the origin and what has arrived. The three slots stay shown meanwhile.
#[test]
fn new_slots_are_repaired_and_then_shown(rt: HostRuntime) {
    tell(
        &rt,
        rt.alloc(),
        Case::ShortRoad,
        &[
            (Act::Accept(Change::Slots(4)), Told::Yes),
            (Act::Totals, Told::Numbers([1000, 500, 500, 0])),
            (Act::Publish, Told::NotAtRest),
            (Act::Claim, Told::Pair(0, 3)),
            (Act::Claim, Told::Pair(1, 3)),
            (Act::Claim, Told::NotYet),
            (Act::CommitOther, Told::Yes),
            (Act::CommitLast, Told::Yes),
            (Act::Claim, Told::Rest),
            (Act::Books, Told::Numbers([1, 0, 0, 4])),
            (Act::Totals, Told::Numbers([1000, 500, 500, 0])),
            (Act::Count, Told::NoCount),
            (Act::Publish, Told::Version(1)),
            (Act::Books, Told::Numbers([1, 1, 0, 0])),
            (Act::Totals, Told::Numbers([1000, 1000, 0, 0])),
            (Act::Count, Told::Commits(2)),
            (Act::Count, Told::Commits(0)),
        ],
    );
}

// A claim is void where the horizon grows as with any batch. Then five pairs of the four slots and both of the fifth are done,
// and the half vehicle that the closure held back arrives in it.
#[test]
fn longer_horizon_makes_claims_void(rt: HostRuntime) {
    tell(
        &rt,
        rt.alloc(),
        Case::OneRoad,
        &[
            (Act::Accept(Change::CloseA), Told::Yes),
            (Act::Claim, Told::Pair(0, 0)),
            (Act::Accept(Change::Slots(5)), Told::Yes),
            (Act::Books, Told::Numbers([2, 0, 0, 0])),
            (Act::CommitLast, Told::Stale(1, 2)),
            (Act::Claim, Told::Pair(0, 0)),
            (Act::CommitLast, Told::Yes),
            (Act::Drain, Told::Steps(6)),
            (Act::Publish, Told::Version(2)),
            (Act::Count, Told::Commits(7)),
            (Act::Totals, Told::Numbers([1000, 1000, 0, 0])),
        ],
    );
}

// A batch that is refused leaves the four slots, whether for its horizon or for what comes after it; and then a longer one is
// accepted. One worker claims and commits in turn: two pairs take four bytes.
#[test]
fn refused_horizon_changes_nothing(rt: HostRuntime) {
    tell(
        &rt,
        rt.alloc(),
        Case::OneRoad,
        &[
            (Act::Accept(Change::Slots(4)), Told::Refused(1, 1)),
            (Act::Accept(Change::Slots(0)), Told::Refused(1, 1)),
            (Act::Accept(Change::Slots(10_001)), Told::Refused(1, 1)),
            (Act::Accept(Change::FiveSlotsThenZ), Told::Refused(2, 2)),
            (Act::Books, Told::Numbers([0, 0, 0, 0])),
            (Act::Claim, Told::Rest),
            (Act::Publish, Told::Version(0)),
            (Act::Count, Told::Commits(0)),
            (Act::Accept(Change::Slots(5)), Told::Yes),
            (Act::Drive(&[0; 5]), Told::Rested(2)),
            (Act::Publish, Told::Version(1)),
            (Act::Count, Told::Commits(2)),
            (Act::Totals, Told::Numbers([1000, 1000, 0, 0])),
        ],
    );
}
