//! A horizon that is raised while a session runs.
use crate::cases::{Case, expect_answers, expect_bytes, scenario_of};
use ltm_flows::{Loading, cold};
use ltm_report::totals_text;
use ltm_session::SessionEnd;
use ltm_units::NoMemory;
use std::alloc::Global;

// What is asked before the settle is told of the three slots that are shown. The fourth has two pairs, and half a vehicle
// arrives in it.
#[test]
fn longer_horizon_is_shown_when_it_is_settled(rt: HostRuntime) {
    let script = "{\"do\":\"totals\"}\n\
        {\"do\":\"edit\",\"edits\":[{\"kind\":\"horizon\",\"slots\":4}]}\n\
        {\"do\":\"time\",\"link\":\"a\",\"slot\":3}\n\
        {\"do\":\"totals\"}\n\
        {\"do\":\"settle\"}\n\
        {\"do\":\"totals\"}\n\
        {\"do\":\"time\",\"link\":\"a\",\"slot\":3}\n\
        {\"do\":\"settle\"}\n";
    let output = "version 0 generated 1.000 arrived 0.500 on_links 0.500 waiting 0.000\n\
        accepted version 1\n\
        refused time BadSlots\n\
        version 0 generated 1.000 arrived 0.500 on_links 0.500 waiting 0.000\n\
        settled version 1 recomputed 2\n\
        version 1 generated 1.000 arrived 1.000 on_links 0.000 waiting 0.000\n\
        version 1 link a slot 3 time 2000\n\
        settled version 1 recomputed 0\n";
    expect_answers(&rt, rt.alloc(), Case::ShortRoad, script, output);
}

// The horizon never falls, an edit sees the horizon that the edits before it leave, and what is refused leaves the old one.
#[test]
fn horizons_are_refused_with_their_cause(rt: HostRuntime) {
    let script = "{\"do\":\"edit\",\"edits\":[{\"kind\":\"horizon\",\"slots\":3}]}\n\
        {\"do\":\"edit\",\"edits\":[{\"kind\":\"horizon\",\"slots\":10001}]}\n\
        {\"do\":\"edit\",\"edits\":[{\"kind\":\"demand\",\"origin\":\"n1\",\"destination\":\"n2\",\"from\":4,\"to\":6,\"vehicles\":\"1\"},{\"kind\":\"horizon\",\"slots\":6}]}\n\
        {\"do\":\"edit\",\"edits\":[{\"kind\":\"horizon\",\"slots\":6},{\"kind\":\"limit\",\"link\":\"z\",\"from\":0,\"to\":1,\"vehicles\":\"0\"}]}\n\
        {\"do\":\"settle\"}\n\
        {\"do\":\"time\",\"link\":\"a\",\"slot\":3}\n\
        {\"do\":\"edit\",\"edits\":[{\"kind\":\"horizon\",\"slots\":6},{\"kind\":\"demand\",\"origin\":\"n1\",\"destination\":\"n2\",\"from\":4,\"to\":6,\"vehicles\":\"1\"}]}\n";
    let output = "refused edit 1 BadSlots\n\
        refused edit 1 BadSlots\n\
        refused edit 1 BadSlots\n\
        refused edit 2 UnknownName\n\
        settled version 0 recomputed 0\n\
        refused time BadSlots\n\
        accepted version 1\n";
    expect_answers(&rt, rt.alloc(), Case::ShortRoad, script, output);
}

// A thousand links over 10,000 slots are too many cells, whatever the horizon was. After that one slot more is no matter.
#[test]
fn horizon_with_too_many_cells_is_refused(rt: HostRuntime) {
    let script = "{\"do\":\"edit\",\"edits\":[{\"kind\":\"horizon\",\"slots\":10000}]}\n\
        {\"do\":\"edit\",\"edits\":[{\"kind\":\"horizon\",\"slots\":3}]}\n\
        {\"do\":\"settle\"}\n";
    let output = "refused edit 1 CellsOver 180056004\n\
        accepted version 1\n\
        settled version 1 recomputed 1001\n";
    expect_answers(&rt, rt.alloc(), Case::Corridor, script, output);
}

// The road is closed in slot 0 before or after the fourth slot comes, or with it. Of its four slots the closure reaches slots
// 0 to 2 of n1 and 2 to 3 of n2; the other pair of slot 3 counts where the slot is new.
#[test]
fn repairs_are_as_over_the_longer_horizon(rt: HostRuntime) {
    let script = "{\"do\":\"edit\",\"edits\":[{\"kind\":\"horizon\",\"slots\":4}]}\n\
        {\"do\":\"settle\"}\n\
        {\"do\":\"edit\",\"edits\":[{\"kind\":\"limit\",\"link\":\"a\",\"from\":0,\"to\":1,\"vehicles\":\"0\"}]}\n\
        {\"do\":\"settle\"}\n\
        {\"do\":\"totals\"}\n";
    let output = "accepted version 1\n\
        settled version 1 recomputed 2\n\
        accepted version 2\n\
        settled version 2 recomputed 5\n\
        version 2 generated 1.000 arrived 0.500 on_links 0.500 waiting 0.000\n";
    expect_answers(&rt, rt.alloc(), Case::ShortRoad, script, output);

    let script =
        "{\"do\":\"edit\",\"edits\":[{\"kind\":\"limit\",\"link\":\"a\",\"from\":0,\"to\":1,\"vehicles\":\"0\"},{\"kind\":\"horizon\",\"slots\":4}]}\n\
        {\"do\":\"settle\"}\n\
        {\"do\":\"totals\"}\n\
        {\"do\":\"edit\",\"edits\":[{\"kind\":\"demand\",\"origin\":\"n1\",\"destination\":\"n2\",\"from\":0,\"to\":2,\"vehicles\":\"1\"}]}\n\
        {\"do\":\"settle\"}\n";
    let output = "accepted version 1\n\
        settled version 1 recomputed 6\n\
        version 1 generated 1.000 arrived 0.500 on_links 0.500 waiting 0.000\n\
        accepted version 2\n\
        settled version 2 recomputed 0\n";
    expect_answers(&rt, rt.alloc(), Case::ShortRoad, script, output);
}

// Three nodes have twelve pairs in four more slots. From there on the queue before the closed `b` is that of twelve slots.
#[test]
fn queue_spills_back_in_new_slots(rt: HostRuntime) {
    let script = "{\"do\":\"edit\",\"edits\":[{\"kind\":\"horizon\",\"slots\":12}]}\n\
        {\"do\":\"settle\"}\n\
        {\"do\":\"totals\"}\n\
        {\"do\":\"edit\",\"edits\":[{\"kind\":\"limit\",\"link\":\"b\",\"from\":0,\"to\":12,\"vehicles\":\"0\"}]}\n\
        {\"do\":\"settle\"}\n\
        {\"do\":\"totals\"}\n\
        {\"do\":\"link\",\"link\":\"a\"}\n";
    let output = "accepted version 1\n\
        settled version 1 recomputed 12\n\
        version 1 generated 5.000 arrived 4.000 on_links 1.000 waiting 0.000\n\
        accepted version 2\n\
        settled version 2 recomputed 26\n\
        version 2 generated 5.000 arrived 0.000 on_links 3.000 waiting 2.000\n\
        version 2 link a in 3.000 out 0.000\n";
    expect_answers(&rt, rt.alloc(), Case::TwoRoadsOver(8), script, output);
}

/// Appends the totals of the two links over so many slots, read and loaded as a case of their own.
fn push_loaded(
    alloc: Global,
    slots: u32,
    version: u64,
    into: &mut Vec<u8>,
) -> Result<(), NoMemory> {
    let Some(scenario) = scenario_of(alloc, Case::TwoRoadsOver(slots)) else {
        return Err(NoMemory);
    };
    let curves = cold(alloc, &scenario)?;
    let loading = Loading::create(alloc, &scenario, &curves, version)?;
    totals_text(alloc, &loading, into)
}

/// Appends three lines that raise the horizon, settle and ask for the totals, and their answers: of three nodes there are
/// three new pairs.
fn push_raise(
    alloc: Global,
    slots: u32,
    version: u64,
    script: &mut String,
    answers: &mut Vec<u8>,
) -> Result<(), NoMemory> {
    write!(
        script,
        "{{\"do\":\"edit\",\"edits\":[{{\"kind\":\"horizon\",\"slots\":{slots}}}]}}\n{{\"do\":\"settle\"}}\n{{\"do\":\"totals\"}}\n"
    )?;
    let told = format!(in alloc;
        "accepted version {version}\nsettled version {version} recomputed 3\n"
    )?;
    answers.extend_from_slice(told.as_bytes())?;
    push_loaded(alloc, slots, version, answers)
}

/// A script that raises the horizon of five slots twenty times by one, and its answers.
fn twenty_raises(alloc: Global) -> Result<(String, Vec<u8>), NoMemory> {
    let mut script = String::new(alloc);
    let mut answers = Vec::new(alloc);
    for raise in 1..21u32 {
        push_raise(
            alloc,
            5 + raise,
            u64::from(raise),
            &mut script,
            &mut answers,
        )?;
    }
    Ok((script, answers))
}

// Each time the totals are those of the longer case, loaded from nothing.
#[test]
fn horizon_is_raised_slot_by_slot(rt: HostRuntime) {
    let (script, answers) = twenty_raises(rt.alloc()).expect(&rt, "memory");
    let _outcome = expect_bytes(
        &rt,
        rt.alloc(),
        Case::TwoRoadsOver(5),
        script.as_bytes(),
        &answers,
        SessionEnd::Ended,
    );
}
