use ltm_diagram::{
    Diagram, DiagramFault, Field, Limits, all_slots_alike, limits_in_range, nothing_is_lost,
    whole_or_one_more,
};
use ltm_units::Millis;

fn diagram(length_m: u32, free_kmh: u32, wave_kmh: u32, jam_per_km: u32) -> Diagram {
    Diagram {
        length_m,
        free_kmh,
        wave_kmh,
        jam_per_km,
    }
}

fn limits(free_ms: u64, wave_ms: u64, capacity: u64, storage: u64) -> Limits {
    Limits {
        free_ms,
        wave_ms,
        capacity,
        rest: 0,
        whole: 1,
        storage,
    }
}

#[test]
fn limits_of_a_link(rt: HostRuntime) {
    limits_in_range();
    let cases = [
        ((20, 36, 18, 150), 1000, limits(2000, 4000, 500, 3000)),
        ((20, 36, 18, 150), 2000, limits(2000, 4000, 1000, 3000)),
        ((25, 36, 18, 150), 1000, limits(2500, 5000, 500, 3750)),
        ((20, 36, 36, 150), 1000, limits(2000, 2000, 750, 3000)),
        (
            (500, 120, 20, 300),
            10_000,
            limits(15_000, 90_000, 14_285, 150_000),
        ),
    ];
    for ((length, free, wave, jam), step, want) in cases {
        assert!(rt; diagram(length, free, wave, jam).limits(Millis(step), false) == Ok(want));
    }
}

// 14,285 and 5/7 thousandths a slot: 100 vehicles in seven slots.
#[test]
fn what_is_left_over_is_carried(rt: HostRuntime) {
    nothing_is_lost();
    all_slots_alike();
    whole_or_one_more();
    let road = diagram(500, 120, 20, 300);
    let limits = road
        .limits(Millis(10_000), true)
        .expect(&rt, "the diagram sets limits");
    assert!(rt; limits.rest < limits.whole && limits.capacity <= 32_000);
    let most = [
        14_285, 14_286, 14_286, 14_285, 14_286, 14_286, 14_286, 14_285,
    ];
    for (slot, want) in most.into_iter().enumerate() {
        assert!(rt; limits.capacity_at(slot as u32) == want);
    }
    let widest = diagram(1000, 29, 29, 7945);
    assert!(rt; widest.limits(Millis(1000), false).is_ok());
    assert!(rt; widest.limits(Millis(1000), true) == Err(DiagramFault::CapacityOver));
}

#[test]
fn faults_of_a_diagram(rt: HostRuntime) {
    let too_long = |free_ms: u64, wave_ms: u64| DiagramFault::StepTooLong { free_ms, wave_ms };
    let cases = [
        ((20, 36, 18, 150), 2001, too_long(2000, 4000)),
        ((20, 18, 36, 150), 3000, too_long(4000, 2000)),
        ((0, 0, 0, 0), 1000, DiagramFault::Zero(Field::Length)),
        (
            (1_000_001, 0, 0, 0),
            1000,
            DiagramFault::Over(Field::Length),
        ),
        ((20, 0, 0, 0), 1000, DiagramFault::Zero(Field::Free)),
        ((20, 1001, 0, 0), 1000, DiagramFault::Over(Field::Free)),
        ((20, 36, 0, 10_001), 1000, DiagramFault::Zero(Field::Wave)),
        ((20, 36, 1001, 0), 1000, DiagramFault::Over(Field::Wave)),
        ((20, 36, 18, 0), 60_000, DiagramFault::Zero(Field::Jam)),
        ((20, 36, 18, 10_001), 60_000, DiagramFault::Over(Field::Jam)),
        ((20, 1, 1, 1), 1000, DiagramFault::NoCapacity),
        ((1000, 1000, 1000, 10_000), 1000, DiagramFault::CapacityOver),
    ];
    for ((length, free, wave, jam), step, want) in cases {
        assert!(rt; 1 <= step && step <= 60_000);
        assert!(rt; diagram(length, free, wave, jam).limits(Millis(step), false) == Err(want));
    }
}
