//! Loadings of cases before and after edits.
use crate::cases::{lean_loading_of, loading_of, scenario_of, threaded_loading_of};
use ltm_flows::Loading;
use ltm_io::MemFolder;
use ltm_scenario::{Batch, Edit, EditFault, Scenario};
use ltm_units::{Name, NoMemory, Units};
use std::alloc::Global;
use std::process::Abort;

/// Gives a valid scenario the edits.
pub(crate) fn accept(
    rt: &impl Abort,
    alloc: Global,
    scenario: &mut Scenario,
    edits: &[Edit],
) -> Result<(), EditFault> {
    let batch = Batch::of(alloc, edits).expect(rt, "a batch");
    assert!(rt; batch.has_amounts());
    assert!(rt; scenario.check().is_ok());
    scenario.accept(&batch)
}

/// Generated, arrived, on links and waiting are these, in units.
fn expect_totals(rt: &impl Abort, loading: &Loading, expected: [u64; 4]) {
    assert!(rt; loading.version() == 1);
    let totals = loading.totals();
    let found = [
        totals.generated.0,
        totals.arrived.0,
        totals.on_links.0,
        totals.waiting.0,
    ];
    assert_eq!(rt; found, expected);
}

/// What entered and what left the links `a` and `b` by a boundary are these, in units.
fn expect_counts(rt: &impl Abort, loading: &Loading, boundary: u32, expected: [u64; 4]) {
    assert!(rt; loading.links() >= 2);
    let curves = loading.curves();
    assert!(rt; curves.slots() >= boundary);
    let found = [
        curves.total(0, boundary),
        curves.total(1, boundary),
        curves.total(2, boundary),
        curves.total(3, boundary),
    ];
    assert_eq!(rt; found, expected, "at boundary {boundary}");
}

fn name<R: Abort>(rt: &R, text: &str) -> Name {
    match Name::read(text.as_bytes()) {
        Some(name) => name,
        None => panic!(rt; "no name"),
    }
}

/// Two equal links of capacity 500, storage 3000, free-flow time 2 slots and wave time 4 slots; five vehicles start in the
/// first five slots.
fn corridor(alloc: Global) -> Result<MemFolder, NoMemory> {
    MemFolder::of_case(
        alloc,
        &[],
        "step_ms,slots,origin_capacity\n1000,12,1\n",
        "link,from,to,length_m,free_kmh,wave_kmh,jam_per_km\na,n1,n2,20,36,18,150\nb,n2,n3,20,36,18,150\n",
        "origin,destination,from_slot,to_slot,vehicles\nn1,n3,0,5,5\n",
        "node,destination,from_slot,weights\nn1,n3,0,a=1\nn2,n3,0,b=1\n",
    )
}

/// The corridor with the entry of `b` closed from the start up to a slot; open where the slot is 0.
fn closed_corridor(rt: &impl Abort, alloc: Global, to: u32) -> Scenario {
    let mut folder = corridor(alloc).expect(rt, "memory");
    let mut scenario = scenario_of(alloc, &mut folder).expect(rt, "a case");
    if to > 0 {
        let closure = Edit::Limit {
            link: name(rt, "b"),
            from: 0,
            to,
            amount: Units(0),
        };
        assert!(rt; accept(rt, alloc, &mut scenario, &[closure]).is_ok());
    }
    scenario
}

#[test]
fn closure_spills_back_to_the_origin(rt: HostRuntime) {
    let open = loading_of(&rt, &closed_corridor(&rt, rt.alloc(), 0));
    expect_totals(&rt, &open, [5000, 4000, 1000, 0]);

    let closed = loading_of(&rt, &closed_corridor(&rt, rt.alloc(), 12));
    expect_totals(&rt, &closed, [5000, 0, 3000, 2000]);
    expect_counts(&rt, &closed, 12, [3000, 0, 0, 0]);
}

// `b` opens after 8 slots. `a` then sends 500 in a slot, and sees the room at its entry only a wave time of 4 slots later.
fn expect_discharge(rt: &impl Abort, loading: &Loading) {
    expect_totals(rt, loading, [5000, 1000, 2000, 2000]);
    expect_counts(rt, loading, 6, [3000, 0, 0, 0]);
    expect_counts(rt, loading, 8, [3000, 0, 0, 0]);
    expect_counts(rt, loading, 10, [3000, 1000, 1000, 0]);
    expect_counts(rt, loading, 12, [3000, 2000, 2000, 1000]);
}

#[test]
fn queue_discharges_after_wave_time(rt: HostRuntime) {
    let loading = loading_of(&rt, &closed_corridor(&rt, rt.alloc(), 8));
    expect_discharge(&rt, &loading);
}

// What stands on links is enough: the same counts, and memory is found for them.
#[test]
fn queue_discharges_without_history(rt: HostRuntime) {
    let loading = lean_loading_of(&rt, &closed_corridor(&rt, rt.alloc(), 8));
    expect_discharge(&rt, &loading);
}

// And so do nodes that are shared out over threads, however many there are.
#[test]
fn queue_discharges_in_threads(rt: HostRuntime) {
    let scenario = closed_corridor(&rt, rt.alloc(), 8);
    for threads in [0, 1, 2, 3, 8, 64] {
        let loading = threaded_loading_of(&rt, &scenario, threads);
        expect_discharge(&rt, &loading);
    }
}

/// Five hundred such links in a row, over 1,005 slots: the counts of their loading are more than 1,500,000.
fn long_corridor(alloc: Global) -> Result<MemFolder, NoMemory> {
    let mut links = String::from_str(
        alloc,
        "link,from,to,length_m,free_kmh,wave_kmh,jam_per_km\n",
    )?;
    let mut splits = String::from_str(alloc, "node,destination,from_slot,weights\n")?;
    for tail in 0..500u32 {
        let head = tail + 1;
        write!(links, "l{tail},n{tail},n{head},20,36,18,150\n")?;
        write!(splits, "n{tail},n500,0,l{tail}=1\n")?;
    }
    MemFolder::of_case(
        alloc,
        &[],
        "step_ms,slots,origin_capacity\n1000,1005,1\n",
        &links,
        "origin,destination,from_slot,to_slot,vehicles\nn0,n500,0,5,5\n",
        &splits,
    )
}

// 500 units set out in each of the first ten slots, and pass a link in two slots. So the first are there by boundary 1,001.
#[test]
fn no_count_is_too_many(rt: HostRuntime) {
    let mut folder = long_corridor(rt.alloc()).expect(&rt, "memory");
    let scenario = scenario_of(rt.alloc(), &mut folder).expect(&rt, "a case");
    expect_totals(&rt, &loading_of(&rt, &scenario), [5000, 2500, 2500, 0]);
}
