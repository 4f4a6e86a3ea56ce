//! Drives of four virtual workers by a schedule.
use crate::rig::{Act, Told};
use crate::roads::{Case, Change};
use crate::stories::tell;

// One worker claims and commits in turn: 8 pairs take 16 bytes, and the claim of the 17th finds nothing left.
#[test]
fn seventeen_bytes_of_one_worker_repair_eight_pairs(rt: HostRuntime) {
    tell(
        &rt,
        rt.alloc(),
        Case::OneRoad,
        &[
            (Act::Accept(Change::FasterWave), Told::Yes),
            (Act::Drive(&[0; 17]), Told::Rested(8)),
            (Act::Publish, Told::Version(1)),
            (Act::Count, Told::Commits(8)),
            (Act::Count, Told::Commits(0)),
        ],
    );
}

// No byte; a claim that is given back; and three workers of which the third has to wait, since two claims are all that
// their slot has. What is still held at the end is given back.
#[test]
fn a_schedule_that_ends_early_counts_what_it_did(rt: HostRuntime) {
    tell(
        &rt,
        rt.alloc(),
        Case::OneRoad,
        &[
            (Act::Accept(Change::FasterWave), Told::Yes),
            (Act::Drive(&[]), Told::Ended(0, 0, 0)),
            (Act::Drive(&[0, 28]), Told::Ended(1, 0, 0)),
            (Act::Drive(&[0, 1, 2]), Told::Ended(0, 1, 0)),
            (Act::Books, Told::Numbers([1, 0, 0, 0])),
            (Act::Drain, Told::Steps(8)),
        ],
    );
}
