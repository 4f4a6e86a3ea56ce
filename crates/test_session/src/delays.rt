//! Queues and delays of what is shown.
use crate::cases::{Case, expect_answers};

// By hand: half a vehicle enters in each of the slots 0 and 1. Two and a half slots later a quarter could leave by boundary 3
// and three quarters by boundary 4. Where the exit is shut in slot 2 none leaves in it and a half, the capacity, in slot 3.
#[test]
fn a_shut_exit_makes_a_queue_once_it_is_settled(rt: HostRuntime) {
    let script =
        "{\"do\":\"edit\",\"edits\":[{\"kind\":\"exit\",\"link\":\"a\",\"from\":2,\"to\":3,\"vehicles\":\"0\"}]}\n\
        {\"do\":\"delay\"}\n\
        {\"do\":\"settle\"}\n\
        {\"do\":\"delay\"}\n\
        {\"do\":\"queue\",\"link\":\"a\",\"slot\":2}\n\
        {\"do\":\"queue\",\"link\":\"a\",\"slot\":4}\n\
        {\"do\":\"queue\",\"link\":\"a\",\"slot\":5}\n\
        {\"do\":\"queue\",\"link\":\"z\",\"slot\":5}\n";
    let output = "accepted version 1\n\
        version 0 spent 2.500000 queued 0.000000 waited 0.000000\n\
        settled version 1 recomputed 2\n\
        version 1 spent 3.000000 queued 0.500000 waited 0.000000\n\
        version 1 link a slot 2 in 1.000 out 0.000 queue 0.000\n\
        version 1 link a slot 4 in 1.000 out 0.500 queue 0.250\n\
        refused queue BadSlots\n\
        refused queue UnknownName\n";
    expect_answers(&rt, rt.alloc(), Case::LongerRoad, script, output);
}

// By hand: half a vehicle is produced by boundary 1 and leaves at once; where the entry is shut in slot 0 it waits then, which
// is told once it is settled.
#[test]
fn a_shut_entry_makes_vehicles_wait_once_it_is_settled(rt: HostRuntime) {
    let script = "{\"do\":\"origin\",\"node\":\"n1\",\"slot\":1}\n\
        {\"do\":\"edit\",\"edits\":[{\"kind\":\"limit\",\"link\":\"a\",\"from\":0,\"to\":1,\"vehicles\":\"0\"}]}\n\
        {\"do\":\"origin\",\"node\":\"n1\",\"slot\":1}\n\
        {\"do\":\"settle\"}\n\
        {\"do\":\"origin\",\"node\":\"n1\",\"slot\":1}\n\
        {\"do\":\"origin\",\"node\":\"n2\",\"slot\":4}\n\
        {\"do\":\"origin\",\"node\":\"n1\",\"slot\":5}\n\
        {\"do\":\"origin\",\"node\":\"z\",\"slot\":5}\n";
    let output = "version 0 node n1 slot 1 produced 0.500 left 0.500 waiting 0.000\n\
        accepted version 1\n\
        version 0 node n1 slot 1 produced 0.500 left 0.500 waiting 0.000\n\
        settled version 1 recomputed 5\n\
        version 1 node n1 slot 1 produced 0.500 left 0.000 waiting 0.500\n\
        version 1 node n2 slot 4 produced 0.000 left 0.000 waiting 0.000\n\
        refused origin BadSlots\n\
        refused origin UnknownName\n";
    expect_answers(&rt, rt.alloc(), Case::LongerRoad, script, output);
}

// By hand: who is produced at boundary 0 arrives after 2500 ms, and who is at boundary 1 too: 1.25 vehicle seconds. Of slot 1
// 0.250 vehicles arrive, the last at 4000 ms, and take the mean of 2.5 and 2 s; the others take 3 s: 1.3125 vehicle seconds. Where
// the exit is shut in slot 2 the first arrives at 3001 ms and who is produced at boundary 1 at 4000, so all of slot 1 are late.
#[test]
fn the_gap_is_that_of_what_is_shown(rt: HostRuntime) {
    let script =
        "{\"do\":\"edit\",\"edits\":[{\"kind\":\"exit\",\"link\":\"a\",\"from\":2,\"to\":3,\"vehicles\":\"0\"}]}\n\
        {\"do\":\"gap\"}\n\
        {\"do\":\"settle\"}\n\
        {\"do\":\"gap\"}\n";
    let output = "accepted version 1\n\
        version 0 spent 2.500000 least 2.562500 gap -0.062500 late 0.250\n\
        settled version 1 recomputed 2\n\
        version 1 spent 3.000000 least 3.000250 gap -0.000250 late 0.500\n";
    expect_answers(&rt, rt.alloc(), Case::LongerRoad, script, output);
}
