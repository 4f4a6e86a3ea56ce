//! What stands before the first slot.
use crate::used::{add_demand, fork};
use ltm_lean::LeanNode;
use ltm_lean_make::{nodes_of, tables_of, widest_listed};
use std::process::Abort;

// How many links lead into a node and out of it, and how many destinations can be there; and which of these it is.
fn check(rt: &impl Abort, nodes: &[LeanNode], number: usize, want: [usize; 3], own: Option<u32>) {
    assert!(rt; number < nodes.len());
    let node = &nodes[number];
    assert!(rt; [node.ins.len(), node.outs.len(), node.gone.len()] == want);
    assert!(rt; node.own == own);
}

// Both destinations can be at A and B, and at C and D each itself. B has the widest row: of two arms, two out-links and two
// destinations.
#[test]
fn finds_memory_for_what_stands_first(rt: HostRuntime) {
    let mut scenario = fork(&rt, rt.alloc());
    add_demand(&rt, &mut scenario, 0);
    add_demand(&rt, &mut scenario, 1);
    let Ok(tables) = tables_of(rt.alloc(), &scenario) else {
        panic!(rt; "no memory");
    };
    let Ok(nodes) = nodes_of(rt.alloc(), &scenario, &tables) else {
        panic!(rt; "no memory");
    };
    assert_eq!(rt; nodes.len(), 4);
    check(&rt, &nodes, 0, [0, 1, 2], None);
    check(&rt, &nodes, 1, [1, 2, 2], None);
    check(&rt, &nodes, 2, [2, 0, 1], Some(0));
    check(&rt, &nodes, 3, [1, 1, 1], Some(0));
    assert_eq!(rt; widest_listed(&scenario, &tables), 21);
}
