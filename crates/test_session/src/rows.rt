//! All links, all origins and all boundaries of what is shown.
use crate::cases::{Case, expect_answers};

// By hand: 700 thousandths are produced in each of ten slots, and 500 of them enter `a` in a slot until 3,000 stand on it;
// from then on as many enter as have left a wave time before. From slot 2 on `b` takes 200 in a slot.
#[test]
fn all_is_told_at_once(rt: HostRuntime) {
    let script = "{\"do\":\"state\",\"slot\":4}\n\
        {\"do\":\"curve\",\"link\":\"a\"}\n\
        {\"do\":\"departures\",\"node\":\"n1\"}\n\
        {\"do\":\"departures\",\"node\":\"n3\"}\n\
        {\"do\":\"delays\"}\n";
    let output = "version 0 slot 4 in 2000 400 out 400 0 queue 600 0 waiting 800 0 0\n\
        version 0 link a in 0 500 1000 1500 2000 2500 3000 3200 3400 3600 3800 4000 4200 4400 4600 4800 5000 out 0 0 0 200 400 600 800 1000 1200 1400 1600 1800 2000 2200 2400 2600 2800\n\
        version 0 node n1 produced 0 700 1400 2100 2800 3500 4200 4900 5600 6300 7000 7000 7000 7000 7000 7000 7000 left 0 500 1000 1500 2000 2500 3000 3200 3400 3600 3800 4000 4200 4400 4600 4800 5000\n\
        version 0 node n3 produced 0 0 0 0 0 0 0 0 0 0 0 0 0 0 0 0 0 left 0 0 0 0 0 0 0 0 0 0 0 0 0 0 0 0 0\n\
        version 0 spent 64.900000 queued 20.700000 waited 29.000000 links 30.500000 20.700000 1.800 8 5.400000 0.000000 0.000 0 nodes 29.000000 3.200 10 0.000000 0.000 0 0.000000 0.000 0\n";
    expect_answers(&rt, rt.alloc(), Case::Spillback, script, output);
}

// By hand, from the same counts at the boundaries 6, 12 and 16; `b` lets out what `a` had let out two slots before. None set out at
// `n2` or `n3`. Where the boundaries lie further apart than the horizon is long, the last alone is told.
#[test]
fn all_is_told_by_so_many_slots(rt: HostRuntime) {
    let script = "{\"do\":\"totals\",\"every\":6}\n\
        {\"every\":16,\"do\":\"totals\"}\n\
        {\"do\":\"totals\",\"every\":4294967295}\n\
        {\"do\":\"totals\",\"every\":0}\n\
        {\"do\":\"totals\",\"every\":4294967296}\n\
        {\"do\":\"totals\",\"every\":\"6\"}\n\
        {\"do\":\"totals\",\"slot\":6}\n";
    let output =
        "version 0 every 6 in 3000 4200 5000 800 2000 2800 out 800 2000 2800 400 1600 2400 departed 3000 4200 5000 0 0 0 0 0 0\n\
        version 0 every 16 in 5000 2800 out 2800 2400 departed 5000 0 0\n\
        version 0 every 4294967295 in 5000 2800 out 2800 2400 departed 5000 0 0\n\
        refused totals BadSlots\n\
        refused command NotCommand 0\n\
        refused command NotCommand 0\n\
        version 0 generated 7.000 arrived 2.400 on_links 2.600 waiting 2.000\n";
    expect_answers(&rt, rt.alloc(), Case::Spillback, script, output);
}

// By hand: where `a` is shut from the start none leaves its origin, and all that is spent is waited there: 700 more in each
// of ten slots, and then 7,000 for seven more. It is told, and has a slot more, once it is settled: that is of `n1` seventeen
// pairs, of `n2` fifteen, which had something to send from slot 2 on, and of `n3` thirteen.
#[test]
fn all_is_told_of_what_is_shown(rt: HostRuntime) {
    let script =
        "{\"do\":\"edit\",\"edits\":[{\"kind\":\"horizon\",\"slots\":17},{\"kind\":\"limit\",\"link\":\"a\",\"from\":0,\"to\":17,\"vehicles\":\"0\"}]}\n\
        {\"do\":\"state\",\"slot\":16}\n\
        {\"do\":\"state\",\"slot\":17}\n\
        {\"do\":\"curve\",\"link\":\"z\"}\n\
        {\"do\":\"departures\",\"node\":\"a\"}\n\
        {\"do\":\"settle\"}\n\
        {\"do\":\"state\",\"slot\":17}\n\
        {\"do\":\"delays\"}\n";
    let output = "accepted version 1\n\
        version 0 slot 16 in 5000 2800 out 2800 2400 queue 1800 0 waiting 2000 0 0\n\
        refused state BadSlots\n\
        refused curve UnknownName\n\
        refused departures UnknownName\n\
        settled version 1 recomputed 45\n\
        version 1 slot 17 in 0 0 out 0 0 queue 0 0 waiting 7000 0 0\n\
        version 1 spent 87.500000 queued 0.000000 waited 87.500000 links 0.000000 0.000000 0.000 0 0.000000 0.000000 0.000 0 nodes 87.500000 7.000 10 0.000000 0.000 0 0.000000 0.000 0\n";
    expect_answers(&rt, rt.alloc(), Case::Spillback, script, output);
}
