//! Made cases of the two ends of the range.
use ltm_make::{Made, MakeFault, make_case};
use std::alloc::Global;

/// What is told of a made case: its nodes, links, and pairs of node and slot; its edits, the length of its schedule, and
/// whether it is valid.
fn told(made: &Made) -> ([u32; 3], [usize; 2], bool) {
    let network = made.scenario.network();
    let nodes = network.nodes();
    let sizes = [nodes, network.links(), nodes * made.scenario.setup().slots];
    let counts = [made.batch.edits().len(), made.schedule.len()];
    (sizes, counts, made.scenario.check().is_ok())
}

fn told_of(alloc: Global, start: u64, nodes: u32) -> Option<([u32; 3], [usize; 2], bool)> {
    match make_case(alloc, start, nodes) {
        Ok(made) => Some(told(&made)),
        Err(_) => None,
    }
}

#[test]
fn grids_of_both_ends(rt: HostRuntime) {
    let small = ([4, 8, 240], [2, 480 * 4], true);
    let large = ([400, 1520, 24_000], [2, 480 * 400], true);
    for (start, nodes, want) in [(1, 4, small), (7, 400, large)] {
        assert!(rt;
            told_of(rt.alloc(), start, nodes) == Some(want),
            "{nodes} nodes"
        );
    }
}

/// Why there is no case; none where there is one.
fn fault_of(alloc: Global, start: u64, nodes: u32) -> Option<MakeFault> {
    make_case(alloc, start, nodes).err()
}

#[test]
fn no_case_outside_the_range(rt: HostRuntime) {
    for nodes in [0, 3, 401, u32::MAX] {
        assert!(rt;
            fault_of(rt.alloc(), 7, nodes) == Some(MakeFault::BadSize),
            "{nodes} nodes"
        );
    }
}
