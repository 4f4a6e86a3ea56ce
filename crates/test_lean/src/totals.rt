//! How many units may leave a link, and how many it can take.
use ltm_diagram::Diagram;
use ltm_scenario::{Scenario, Setup};
use ltm_setting::{link_count, slot_count};
use ltm_totals::{Totals, can_take, may_leave};
use ltm_units::{LinkId, Millis, Name, Units};
use std::alloc::Global;
use std::process::Abort;

fn named(rt: &impl Abort, text: &str) -> Name {
    let Some(name) = Name::read(text.as_bytes()) else {
        panic!(rt; "no name");
    };
    name
}

// A link of 100 m for six slots of 5 s: it takes 10 s freely, a wave 20 s, it holds 10 vehicles, and of 1,200 in an hour 1,666
// units pass in a slot.
fn road(rt: &impl Abort, alloc: Global) -> Scenario {
    let setup = Setup::of(Millis(5000), 6, Units(5000));
    let Ok(mut scenario) = Scenario::create(alloc, setup) else {
        panic!(rt; "no scenario");
    };
    let diagram = Diagram {
        length_m: 100,
        free_kmh: 36,
        wave_kmh: 18,
        jam_per_km: 100,
    };
    let added = scenario.add_link(named(rt, "a"), named(rt, "A"), named(rt, "B"), diagram);
    assert!(rt; added.is_ok());
    scenario
}

// Totals of one link at the first boundaries.
fn totals_of(rt: &impl Abort, alloc: Global, numbers: &[u32]) -> Totals {
    let Ok(mut totals) = Totals::none(alloc, 1, 6) else {
        panic!(rt; "no memory");
    };
    let mut boundary = 0;
    for number in numbers {
        assert!(rt; boundary <= 6 && totals.links() == 1 && totals.slots() == 6);
        totals.set(0, boundary, *number);
        boundary += 1;
    }
    totals
}

// How many units may have left by the end of a slot, how many have, and how many the link can take.
fn flows(
    rt: &impl Abort,
    scenario: &Scenario,
    entered: &Totals,
    left: &Totals,
    slot: u32,
) -> [u64; 3] {
    assert!(rt; link_count(scenario) == 1 && slot < slot_count(scenario));
    assert!(rt; entered.links() == 1 && slot <= entered.slots());
    assert!(rt; left.links() == 1 && slot <= left.slots());
    let may = may_leave(scenario, entered, left, LinkId(0), slot);
    let takes = can_take(scenario, entered, left, LinkId(0), slot);
    [may.goal, may.gone, takes]
}

// What entered by two slots before the slot's end may leave, up to the capacity; four slots later it has made room.
#[test]
fn tells_flows_from_totals(rt: HostRuntime) {
    let scenario = road(&rt, rt.alloc());
    let entered = totals_of(&rt, rt.alloc(), &[0, 1000, 2500, 9500, 9500]);
    let left = totals_of(&rt, rt.alloc(), &[0, 0, 0, 1000, 2000]);
    assert!(rt; flows(&rt, &scenario, &entered, &left, 0) == [0, 0, 1666]);
    assert!(rt; flows(&rt, &scenario, &entered, &left, 2) == [1000, 0, 1666]);
    assert!(rt; flows(&rt, &scenario, &entered, &left, 3) == [2500, 1000, 500]);
    assert!(rt; flows(&rt, &scenario, &entered, &left, 4) == [3666, 2000, 500]);
}
