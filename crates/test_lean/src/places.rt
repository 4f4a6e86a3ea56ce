//! Where the destination of one list stands in another.
use ltm_lean_node::places_of;
use std::alloc::Global;
use std::process::Abort;

// The places of the number of a list of one in another list of one.
fn check(rt: &impl Abort, alloc: Global, inner: [u32; 1], outer: [u32; 1], want: [u32; 1]) {
    let Ok(places) = places_of(alloc, &inner, &outer) else {
        panic!(rt; "no memory");
    };
    assert!(rt; places.as_slice() == want.as_slice());
}

#[test]
fn places_are_those_of_equal_numbers(rt: HostRuntime) {
    check(&rt, rt.alloc(), [3], [3], [0]);
    check(&rt, rt.alloc(), [3], [5], [1]);
    check(&rt, rt.alloc(), [5], [3], [1]);
}
