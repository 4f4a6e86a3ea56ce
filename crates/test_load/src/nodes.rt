//! What moves at a node in a slot.
ghost use Rattle.std.specs.Prelude.{◌≡◌, ◌≤◌, length};
ghost use Rattle.ltm_node.specs.Shape.{width, counts_width};
ghost use Rattle.ltm_node.specs.Solvable.{IsSolvable};

use crate::solvable::{check_sizes, width_of};
use ltm_node::{NodeInputs, NodeOutputs, NodeShape, Solved, solve};
use ltm_units::Steps;
use std::alloc::Global;
use std::process::Abort;
use std::slice::Iter;

/// The room that the cases take.
const ROOM: u32 = 100;

/// Whether these are the next numbers.
fn are_next(rest: &mut Iter<'_, u64>, counts: &[u64]) -> bool {
    for count in counts {
        if rest.next() != Some(count) {
            return false;
        }
    }
    true
}

/// The counts are these, in the order of their row.
fn check_counts(rt: &impl Abort, outputs: &NodeOutputs, counts: &[u64]) {
    let mut rest = counts.iter();
    for arm in 0..outputs.shape().arms {
        assert!(rt; are_next(&mut rest, outputs.left_row(arm)));
    }
    for out in 0..outputs.shape().outs {
        assert!(rt; are_next(&mut rest, outputs.entered_row(out)));
    }
    assert!(rt; are_next(&mut rest, &[outputs.arrived()]));
    assert!(rt; rest.next().is_none());
}

/// Takes a row that `solve` can take.
fn take_row(rt: &impl Abort, inputs: &mut NodeInputs, shape: NodeShape, row: &[u64])
    requires shape { width shape ≤ inputs.old.room }
    requires width { length row.now ≡ width shape }
    ensures solvable { IsSolvable inputs.new }
    ensures shape { inputs.new.shape ≡ shape }
{
    inputs.copy_row(shape, row);
    check_sizes(rt, inputs);
}

/// Solves inputs and compares the counts.
fn solves(
    rt: &impl Abort,
    inputs: NodeInputs,
    outputs: NodeOutputs,
    row: &[u64],
    counts: &[u64],
) -> NodeShape
    requires sizes { IsSolvable inputs }
    requires room { counts_width inputs.shape ≤ outputs.room }
{
    let mut steps = Steps::new();
    let solved = solve(inputs, outputs, &mut steps);
    check_solved(rt, &solved, row, counts);
    check_steps(rt, &steps);
    let (inputs, _outputs) = solved.release();
    inputs.shape()
}

fn check_solved(rt: &impl Abort, solved: &Solved, row: &[u64], counts: &[u64]) {
    assert!(rt; solved.inputs().same(row));
    check_counts(rt, solved.outputs(), counts);
}

fn check_steps(rt: &impl Abort, steps: &Steps) {
    assert_eq!(rt; steps.count(), 1);
}

/// Solves inputs whose row is taken.
fn solves_row(
    rt: &impl Abort,
    alloc: Global,
    inputs: NodeInputs,
    row: &[u64],
    counts: &[u64],
) -> NodeShape
    requires sizes { IsSolvable inputs }
    requires room { width inputs.shape ≤ 100 }
{
    match NodeOutputs::create(alloc, ROOM) {
        Ok(outputs) => solves(rt, inputs, outputs, row, counts),
        Err(_) => panic!(rt; "no memory"),
    }
}

/// Solves a row and compares the counts.
fn gives(rt: &impl Abort, alloc: Global, shape: NodeShape, row: &[u64], counts: &[u64]) {
    let width = width_of(rt, shape);
    assert_eq!(rt; row.len(), width);
    match NodeInputs::create(alloc, ROOM) {
        Ok(mut inputs) => {
            take_row(rt, &mut inputs, shape, row);
            let solved = solves_row(rt, alloc, inputs, row, counts);
            assert!(rt; solved == shape);
        }
        Err(_) => panic!(rt; "no memory"),
    }
}

/// A shape without a destination that is the node.
fn shape(arms: u32, outs: u32, destinations: u32) -> NodeShape {
    NodeShape {
        arms,
        outs,
        destinations,
        own: None,
        by_turn: false,
    }
}

/// A shape with a destination that is the node.
fn shape_of(arms: u32, outs: u32, destinations: u32, own: u32) -> NodeShape {
    NodeShape {
        arms,
        outs,
        destinations,
        own: Some(own),
        by_turn: false,
    }
}

/// The same shape where turns are rounded down whole.
fn by_turn(mut shape: NodeShape) -> NodeShape {
    shape.by_turn = true;
    shape
}

// Rows and counts are written part by part, as the layout has them.
#[test]
fn moves_at_one_share_an_arm(rt: HostRuntime) {
    // two arms share a short out-link as their capacities
    gives(
        &rt,
        rt.alloc(),
        shape(2, 1, 1),
        &[500, 500, 0, 0, 0, 0, 600, 500, 1000, 1],
        &[200, 400, 600, 0],
    );
    // a turn that cannot move holds the other turn back
    gives(
        &rt,
        rt.alloc(),
        shape(1, 2, 1),
        &[400, 0, 0, 0, 0, 0, 500, 1000, 1, 1],
        &[0, 0, 0, 0],
    );
    // what one arm does not need goes to the others
    gives(
        &rt,
        rt.alloc(),
        shape(3, 1, 1),
        &[100, 500, 500, 0, 0, 0, 0, 0, 600, 500, 500, 500, 1],
        &[100, 250, 250, 600, 0],
    );
    // two thirds of 1 and of 2, rounded down
    gives(
        &rt,
        rt.alloc(),
        shape(1, 1, 2),
        &[1, 2, 0, 0, 0, 0, 0, 2, 1000, 1, 1],
        &[0, 1, 0, 1, 0],
    );
    // one arm alone moves what its only out-link can take
    gives(
        &rt,
        rt.alloc(),
        shape(1, 1, 1),
        &[300, 5, 6, 7, 200, 1000, 3],
        &[205, 206, 7],
    );
    // two out-links are short, one after the other
    gives(
        &rt,
        rt.alloc(),
        shape(3, 2, 2),
        &[
            300, 300, 600, 0, 0, 500, 0, 0, 0, 0, 0, 0, 0, 0, 0, 0, 0, 450, 700, 1000, 600, 1000,
            1, 0, 0, 1,
        ],
        &[204, 204, 245, 0, 0, 495, 449, 0, 0, 699, 0],
    );
    // five arms and four out-links at the limits of all sizes
    let most = 1 << 48;
    let weight = 4_294_967_295;
    gives(
        &rt,
        rt.alloc(),
        shape(5, 4, 1),
        &[
            32000, 32000, 32000, 32000, 32000, most, 0, 0, 0, 0, most, 0, 0, 0, most, 32000, 32000,
            32000, 32000, 32000, 32000, 32000, 32000, 32000, weight, weight, weight, weight,
        ],
        &[
            most + 25600,
            25600,
            25600,
            25600,
            25600,
            most + 32000,
            32000,
            32000,
            32000,
            most,
        ],
    );
}

#[test]
fn moves_all_where_there_is_room(rt: HostRuntime) {
    // 10 over 3, 1 and 7 over 0, 1, added to the counts before
    gives(
        &rt,
        rt.alloc(),
        shape(1, 2, 2),
        &[10, 7, 5, 6, 1, 2, 3, 4, 0, 100, 100, 1000, 3, 1, 0, 1],
        &[15, 13, 8, 2, 6, 11, 0],
    );
    // all goes one way
    gives(
        &rt,
        rt.alloc(),
        shape(2, 1, 1),
        &[30, 12, 1, 2, 3, 4, 100, 50, 60, 7],
        &[31, 14, 45, 4],
    );
    // a destination without a split stays
    gives(
        &rt,
        rt.alloc(),
        shape(1, 1, 2),
        &[5, 6, 0, 0, 0, 0, 0, 100, 50, 0, 1],
        &[0, 6, 0, 6, 0],
    );
    // nothing but a count
    gives(&rt, rt.alloc(), shape(0, 0, 1), &[5], &[5]);
}

#[test]
fn moves_to_the_sink(rt: HostRuntime) {
    // without an out-link only what is for the node moves
    gives(
        &rt,
        rt.alloc(),
        shape_of(2, 0, 2, 1),
        &[3, 5, 0, 7, 1, 2, 3, 4, 10, 100, 100],
        &[1, 7, 3, 11, 22],
    );
    // all is for the node, whatever its out-link can take
    gives(
        &rt,
        rt.alloc(),
        shape_of(1, 1, 1, 0),
        &[5, 1, 2, 3, 0, 9, 1],
        &[6, 2, 8],
    );
    // a short out-link holds back what stands in one queue with it; weights for the node itself do not count
    gives(
        &rt,
        rt.alloc(),
        shape_of(1, 1, 2, 0),
        &[4, 6, 0, 0, 0, 0, 1, 3, 10, 5, 1],
        &[2, 3, 0, 3, 3],
    );
    // an out-link that can take nothing does not hold back an arm that does not use it
    gives(
        &rt,
        rt.alloc(),
        shape_of(2, 1, 2, 1),
        &[8, 0, 0, 9, 0, 0, 0, 0, 0, 0, 0, 0, 20, 20, 1, 0],
        &[0, 0, 0, 9, 0, 0, 9],
    );
}

#[test]
fn moves_by_turn(rt: HostRuntime) {
    // two thirds of 3 are 2: of 1 and 2 these are 0 and 2
    gives(
        &rt,
        rt.alloc(),
        by_turn(shape(1, 1, 2)),
        &[1, 2, 0, 0, 0, 0, 0, 2, 1000, 1, 1],
        &[0, 2, 0, 2, 0],
    );
    // 7 of 15: of 5, 5 and 5 these are 2, 2 and 3, the last destination's what the others leave
    gives(
        &rt,
        rt.alloc(),
        by_turn(shape(1, 1, 3)),
        &[5, 5, 5, 1, 2, 3, 4, 5, 6, 0, 7, 1000, 1, 1, 1],
        &[3, 4, 6, 6, 7, 9, 0],
    );
    // a turn that is not short has the same share of two thirds: 1 of 1 and 1; and of 5 for the node 3 arrive
    gives(
        &rt,
        rt.alloc(),
        by_turn(shape_of(1, 2, 4, 3)),
        &[
            6, 1, 1, 5, 10, 20, 30, 40, 1, 2, 3, 4, 5, 6, 7, 8, 9, 4, 100, 13, 1, 0, 0, 1, 0, 1, 1,
            1,
        ],
        &[14, 20, 31, 43, 5, 2, 3, 4, 5, 6, 8, 8, 12],
    );
    // each of two arms moves half, and splits its own turn: 3 are 1 and 2 of 3 and 3, and 0, 0 and 3 of 1, 0 and 5
    gives(
        &rt,
        rt.alloc(),
        by_turn(shape(2, 1, 3)),
        &[
            3, 3, 0, 1, 0, 5, 0, 0, 0, 0, 0, 0, 0, 0, 0, 0, 6, 6, 6, 1, 1, 1,
        ],
        &[1, 2, 0, 0, 0, 3, 1, 2, 3, 0],
    );
    // where there is room, all moves
    gives(
        &rt,
        rt.alloc(),
        by_turn(shape(1, 2, 2)),
        &[10, 7, 5, 6, 1, 2, 3, 4, 0, 100, 100, 1000, 3, 1, 0, 1],
        &[15, 13, 8, 2, 6, 11, 0],
    );
}
