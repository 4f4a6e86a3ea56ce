//! Travel times on one road: half a vehicle enters it in each of the slots 0 and 1, and leaves it a free-flow time later.
ghost use Rattle.std.specs.Prelude.{◌≡◌, ◌<◌};
ghost use Rattle.ltm_flows.specs.Shown.{last_of, links_of};

use crate::cases::{loading_of, scenario_of};
use ltm_flows::Loading;
use ltm_io::MemFolder;
use ltm_times::{exit_ms, time_spent, travel};
use ltm_units::{LinkId, NoMemory, Units};
use std::alloc::Global;
use std::process::Abort;

/// A road over which a vehicle sets out in the first two slots.
fn road(alloc: Global, links: &str) -> Result<MemFolder, NoMemory> {
    MemFolder::of_case(
        alloc,
        &[],
        "step_ms,slots,origin_capacity\n1000,4,1\n",
        links,
        "origin,destination,from_slot,to_slot,vehicles\nn1,n2,0,2,1\n",
        "node,destination,from_slot,weights\nn1,n2,0,a=1\n",
    )
}

/// The loading of the road with this file of links.
fn loading_over<R: Abort + AllocGlobal>(rt: &R, links: &str) -> Loading {
    let mut folder = road(rt.alloc(), links).expect(rt, "memory");
    let scenario = scenario_of(rt.alloc(), &mut folder).expect(rt, "a case");
    loading_of(rt, &scenario)
}

/// The travel time at a slot.
fn travelled(loading: &Loading, slot: u32) -> Option<u64>
    requires one_link { links_of loading.now ≡ 1 }
    requires slot { slot < last_of loading.now }
{
    travel(loading, LinkId(0), slot).map(|time| time.0)
}

/// When so many units have left.
fn left_by(loading: &Loading, count: u64) -> Option<u64>
    requires { links_of loading.now ≡ 1 }
{
    exit_ms(loading, LinkId(0), Units(count)).map(|time| time.0)
}

/// The travel times at the four slots, and when 0, 500, 750 and 1001 units have left.
fn expect(rt: &impl Abort, loading: &Loading, times: [Option<u64>; 4], exits: [Option<u64>; 4]) {
    assert!(rt; loading.links() == 1);
    assert!(rt; loading.slots() == 4);
    for slot in 0..4u32 {
        assert!(rt;
            travelled(loading, slot) == times[slot as usize],
            "slot {slot}"
        );
    }
    let left = [
        left_by(loading, 0),
        left_by(loading, 500),
        left_by(loading, 750),
        left_by(loading, 1001),
    ];
    assert!(rt; left == exits);
}

// Nothing has left by boundary 2, 500 units by boundary 3 and all 1000 by boundary 4.
#[test]
fn a_free_road_is_passed_in_its_free_flow_time(rt: HostRuntime) {
    let links = "link,from,to,length_m,free_kmh,wave_kmh,jam_per_km\na,n1,n2,20,36,18,150\n";
    let loading = loading_over(&rt, links);
    let times = [Some(2000), Some(2000), Some(2000), Some(2000)];
    expect(
        &rt,
        &loading,
        times,
        [Some(0), Some(3000), Some(3500), None],
    );
    assert!(&rt; time_spent(&loading) == 2_000_000);
}

// On a road of 25 m it takes 2500 ms: nothing has left by boundary 2, 250 units by boundary 3 and 750 by boundary 4. What
// enters by boundary 2 has not left by the end.
#[test]
fn a_longer_road_is_left_too_late(rt: HostRuntime) {
    let links = "link,from,to,length_m,free_kmh,wave_kmh,jam_per_km\na,n1,n2,25,36,18,150\n";
    let loading = loading_over(&rt, links);
    let times = [Some(2500), Some(2500), None, None];
    expect(
        &rt,
        &loading,
        times,
        [Some(0), Some(3500), Some(4000), None],
    );
}
