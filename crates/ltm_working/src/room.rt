//! How much room a longer horizon takes.
ghost use Rattle.std.specs.Prelude.{◌≤◌, ◌<◌, ◌+◌, ◌/◌, min};
ghost use Rattle.ltm_units.specs.Bounds.{most_slots};

/// The room to be taken where so many slots are wanted: no more than there is, or at least half more, and 10,000 slots at
/// most. So a horizon that is raised slot by slot seldom takes memory.
pub fn wide_room(room: u32, slots: u32) -> u32
    requires { slots ≤ most_slots }
    ensures enough { slots ≤ result }
    ensures most { result ≤ most_slots }
    ensures wide { room < slots → min most_slots (room + room / 2) ≤ result }
{
    if slots <= room || room >= 10_000 {
        return slots;
    }
    slots.max((room + room / 2).min(10_000))
}
