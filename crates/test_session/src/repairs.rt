//! Edits, settles and reports.
use crate::cases::{Case, expect_answers, expect_served};
use ltm_session::SessionEnd;

// The entry of `b` is closed for all twelve slots, and the queue before it reaches back to the origin. Computed anew are
// slots 6 to 11 of n1, all twelve of n2, and 4 to 11 of n3.
#[test]
fn queue_spills_back(rt: HostRuntime) {
    let script = "{\"do\":\"totals\"}\n\
        {\"do\":\"edit\",\"edits\":[{\"kind\":\"limit\",\"link\":\"b\",\"from\":0,\"to\":12,\"vehicles\":\"0\"}]}\n\
        {\"do\":\"settle\"}\n\
        {\"do\":\"totals\"}\n\
        {\"do\":\"link\",\"link\":\"a\"}\n";
    let output = "version 0 generated 5.000 arrived 4.000 on_links 1.000 waiting 0.000\n\
        accepted version 1\n\
        settled version 1 recomputed 26\n\
        version 1 generated 5.000 arrived 0.000 on_links 3.000 waiting 2.000\n\
        version 1 link a in 3.000 out 0.000\n";
    expect_answers(&rt, rt.alloc(), Case::TwoRoads, script, output);
}

// Slots 0 to 2 of n1 and 2 to 3 of n2 are computed anew, out of 8 pairs. The core that is handed back has the batch, shows
// it, rests, and has nothing more to count.
#[test]
fn closure_at_entry_delays_departure(rt: HostRuntime) {
    let script =
        b"{\"do\":\"edit\",\"edits\":[{\"kind\":\"limit\",\"link\":\"a\",\"from\":0,\"to\":1,\"vehicles\":\"0\"}]}\n\
        {\"do\":\"settle\"}\n\
        {\"do\":\"totals\"}\n";
    let output = "accepted version 1\n\
        settled version 1 recomputed 5\n\
        version 1 generated 1.000 arrived 0.500 on_links 0.500 waiting 0.000\n";
    let outcome = expect_served(
        &rt,
        rt.alloc(),
        Case::OneRoad,
        script,
        output,
        SessionEnd::Ended,
    );
    assert!(&rt; outcome.accepted == 1);
    assert!(&rt; outcome.version == 1);
    assert!(&rt; outcome.shown == 1);
    assert!(&rt; outcome.rests);
    assert!(&rt; outcome.count == Some(0));
}

#[test]
fn demand_set_again_changes_nothing(rt: HostRuntime) {
    let script =
        "{\"do\":\"edit\",\"edits\":[{\"kind\":\"demand\",\"origin\":\"n1\",\"destination\":\"n2\",\"from\":0,\"to\":2,\"vehicles\":\"1\"}]}\n\
        {\"do\":\"settle\"}\n\
        {\"do\":\"settle\"}\n";
    let output = "accepted version 1\n\
        settled version 1 recomputed 0\n\
        settled version 1 recomputed 0\n";
    expect_answers(&rt, rt.alloc(), Case::OneRoad, script, output);
}

// No link is called z, so neither edit is made.
#[test]
fn refused_batch_changes_nothing(rt: HostRuntime) {
    let script =
        "{\"do\":\"edit\",\"edits\":[{\"kind\":\"limit\",\"link\":\"a\",\"from\":0,\"to\":1,\"vehicles\":\"0\"},{\"kind\":\"limit\",\"link\":\"z\",\"from\":0,\"to\":1,\"vehicles\":\"0\"}]}\n\
        {\"do\":\"totals\"}\n";
    let output = "refused edit 2 UnknownName\n\
        version 0 generated 1.000 arrived 1.000 on_links 0.000 waiting 0.000\n";
    expect_answers(&rt, rt.alloc(), Case::OneRoad, script, output);
}

// A signal lets a quarter of a vehicle out of `a` in each slot. Slots 2 and 3 of n2 are computed anew.
#[test]
fn signal_holds_back(rt: HostRuntime) {
    let script =
        "{\"do\":\"edit\",\"edits\":[{\"kind\":\"exit\",\"link\":\"a\",\"from\":0,\"to\":4,\"vehicles\":\"0.250\"}]}\n\
        {\"do\":\"settle\"}\n\
        {\"do\":\"totals\"}\n";
    let output = "accepted version 1\n\
        settled version 1 recomputed 2\n\
        version 1 generated 1.000 arrived 0.500 on_links 0.500 waiting 0.000\n";
    expect_answers(&rt, rt.alloc(), Case::OneRoad, script, output);
}

#[test]
fn times_are_told(rt: HostRuntime) {
    let script = "{\"do\":\"time\",\"link\":\"a\",\"slot\":1}\n\
        {\"do\":\"time\",\"link\":\"a\",\"slot\":0}\n\
        {\"do\":\"time\",\"link\":\"a\",\"slot\":3}\n\
        {\"do\":\"time\",\"link\":\"a\",\"slot\":4}\n\
        {\"do\":\"time\",\"link\":\"z\",\"slot\":1}\n";
    let output = "version 0 link a slot 1 time 2000\n\
        version 0 link a slot 0 time 2000\n\
        version 0 link a slot 3 time 2000\n\
        refused time BadSlots\n\
        refused time UnknownName\n";
    expect_answers(&rt, rt.alloc(), Case::OneRoad, script, output);

    let script =
        "{\"do\":\"time\",\"link\":\"a\",\"slot\":1}\n{\"do\":\"time\",\"link\":\"a\",\"slot\":2}\n";
    let output = "version 0 link a slot 1 time 2500\nversion 0 link a slot 2 time none\n";
    expect_answers(&rt, rt.alloc(), Case::LongerRoad, script, output);
}
