//! A link's diagram, and the limits that follow from it.
ghost use Rattle.std.specs.Prelude.{◌≡◌, ◌<◌, ◌≤◌, ◌*◌, IfOk};
ghost use Rattle.std.specs.Int.{div_ceil};
ghost use Rattle.ltm_diagram.specs.Limits.{limits_of, field_in_range, flow_of, parts_of};
ghost use Rattle.ltm_diagram.specs.Passing.{capacity_in};
ghost use Rattle.ltm_diagram.specs.InRange.{AreInRange};
ghost use Rattle.ltm_units.specs.Bounds.{longest_step, most_in_slot, most_per_km};

use ltm_units::Millis;

/// The triangular fundamental diagram of a link, with its length (Newell 1993; Yperman 2007).
///
/// Flow rises with density at the free speed up to the capacity, and from there falls to 0 at the jam density, so
/// that a change of queued traffic runs back through the link at the wave speed.
#[derive(Clone, Copy, Debug, PartialEq, Eq)]
pub struct Diagram {
    /// The length in metres, 1 to 1,000,000.
    pub length_m: u32,
    /// The free speed in km/h, 1 to 1,000.
    pub free_kmh: u32,
    /// The speed of waves in queued traffic in km/h, 1 to 1,000.
    pub wave_kmh: u32,
    /// The jam density in vehicles per km, 1 to 10,000.
    pub jam_per_km: u32,
}

/// What a link allows, for one length of a slot.
#[derive(Clone, Copy, Debug, PartialEq, Eq)]
pub struct Limits {
    /// The free-flow time: whole milliseconds from one end to the other at free speed.
    pub free_ms: u64,
    /// The wave time: whole milliseconds until space that a vehicle leaves at the exit is felt at the entry.
    pub wave_ms: u64,
    /// The most that enters or leaves in any slot, in thousandths of a vehicle, rounded down.
    pub capacity: u64,
    /// What is left over of it and carried from slot to slot: `rest / whole` thousandths of a vehicle, less than one. Nothing is
    /// where each slot is rounded down.
    pub rest: u32,
    /// The parts of a thousandth in which the rest is counted, at least 1.
    pub whole: u32,
    /// The most that stands on the link, in thousandths of a vehicle.
    pub storage: u64,
}

/// A field of a diagram.
#[derive(Clone, Copy, Debug, PartialEq, Eq)]
pub enum Field {
    /// The length in metres.
    Length,
    /// The free speed in km/h.
    Free,
    /// The wave speed in km/h.
    Wave,
    /// The jam density in vehicles per km.
    Jam,
}

/// Why a diagram sets no limits at a step.
#[derive(Clone, Copy, Debug, PartialEq, Eq)]
pub enum DiagramFault {
    /// The field is 0.
    Zero(Field),
    /// The field is past its limit.
    Over(Field),
    /// The free-flow time or the wave time is shorter than a slot. Both are told, in milliseconds.
    StepTooLong { free_ms: u64, wave_ms: u64 },
    /// Less than a thousandth of a vehicle passes in a slot.
    NoCapacity,
    /// More than 32 vehicles pass in some slot.
    CapacityOver,
}

impl Diagram {
    /// The limits of a link with this diagram in slots of `step`, or the first fault in the order of `DiagramFault`,
    /// where the fields are looked at one after the other.
    ///
    /// A time is rounded up, so that nothing arrives early; the capacity is rounded down, and what is left over is carried
    /// from slot to slot if `carry` says so. Both times are at least a step, so that a slot can be computed from the
    /// boundaries up to its start.
    #[tactic(auto, unfolding(crate::specs::Limits::limits_of))]
    pub fn limits(&self, step: Millis, carry: bool) -> Result<Limits, DiagramFault>
        requires some { 1 ≤ step.0 }
        requires most { step.0 ≤ longest_step }
        ensures value { result ≡ limits_of self.now step.0 carry }
        ensures in_range { IfOk result (λ limits. AreInRange step.0 limits) }
    {
        check_size(Field::Length, 1_000_000, self.length_m)?;
        check_size(Field::Free, 1_000, self.free_kmh)?;
        check_size(Field::Wave, 1_000, self.wave_kmh)?;
        check_size(Field::Jam, 10_000, self.jam_per_km)?;
        let free_ms = time_over(self.length_m, self.free_kmh);
        let wave_ms = time_over(self.length_m, self.wave_kmh);
        if free_ms < step.0 || wave_ms < step.0 {
            return Err(DiagramFault::StepTooLong { free_ms, wave_ms });
        }
        let (flow, parts) = (self.flow(step), self.parts());
        let capacity = flow / u64::from(parts);
        if capacity == 0 {
            return Err(DiagramFault::NoCapacity);
        }
        let rest = if carry { flow % u64::from(parts) } else { 0 };
        if capacity + rest.min(1) > 32_000 {
            return Err(DiagramFault::CapacityOver);
        }
        Ok(Limits {
            free_ms,
            wave_ms,
            capacity,
            rest: rest as u32,
            whole: if carry { parts } else { 1 },
            storage: u64::from(self.jam_per_km) * u64::from(self.length_m),
        })
    }

    /// The most that passes in a slot: the top of the triangle, in parts of a thousandth of a vehicle.
    #[tactic(auto, using(crate::proofs::Bounds::bounds))]
    fn flow(&self, step: Millis) -> u64
        requires free_most { self.now.free_kmh ≤ 1000 }
        requires wave_most { self.now.wave_kmh ≤ 1000 }
        requires jam_most { self.now.jam_per_km ≤ most_per_km }
        requires step_most { step.0 ≤ longest_step }
        ensures { result ≡ flow_of self.now step.0 }
    {
        let free = u64::from(self.free_kmh);
        let wave = u64::from(self.wave_kmh);
        u64::from(self.jam_per_km) * free * wave * step.0
    }

    /// How many of these parts a thousandth has.
    fn parts(&self) -> u32
        requires free { 1 ≤ self.now.free_kmh }
        requires free_most { self.now.free_kmh ≤ 1000 }
        requires wave_most { self.now.wave_kmh ≤ 1000 }
        ensures parts { result ≡ parts_of self.now }
        ensures some { 1 ≤ result }
    {
        (self.free_kmh + self.wave_kmh) * 3600
    }
}

impl Limits {
    /// The capacity in a slot, in thousandths of a vehicle: the whole thousandths, and one more where what is left over by the
    /// end of the slot has grown to one. Without anything left over it costs a comparison, else a division.
    #[inline]
    pub fn capacity_at(&self, slot: u32) -> u64
        requires rest { self.now.rest < self.now.whole }
        requires small { self.now.capacity ≤ most_in_slot }
        ensures { result ≡ capacity_in self.now slot }
    {
        if self.rest == 0 {
            return self.capacity;
        }
        let (rest, whole) = (u64::from(self.rest), u64::from(self.whole));
        if rest * u64::from(slot) % whole + rest < whole {
            self.capacity
        } else {
            self.capacity + 1
        }
    }
}

/// Whether a field is at least 1 and at most its limit.
fn check_size(field: Field, most: u32, value: u32) -> Result<(), DiagramFault>
    ensures { result ≡ field_in_range field most value }
{
    if value == 0 {
        return Err(DiagramFault::Zero(field));
    }
    if value > most {
        return Err(DiagramFault::Over(field));
    }
    Ok(())
}

/// The milliseconds over a length at a speed, rounded up.
fn time_over(length_m: u32, kmh: u32) -> u64
    requires { 1 ≤ kmh }
    ensures { result ≡ div_ceil (length_m * 3600) kmh }
{
    (u64::from(length_m) * 3600).div_ceil(u64::from(kmh))
}
