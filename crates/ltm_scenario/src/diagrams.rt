//! The diagram of each link, and the limits that it sets.
ghost use Rattle.std.specs.Prelude.{◌≡◌, ℕ, ◌+◌, ◌<◌, ◌≤◌, List, [], ◌∷◌, ◌++◌, length, slice_get, slice_set, Some, Ok, IfOk, OnOk};
ghost use Rattle.ltm_diagram.specs.Limits.{limits_of};
ghost use Rattle.ltm_diagram.specs.Delays.{AreDelays};
ghost use Rattle.ltm_units.specs.Bounds.{longest_step};

use ltm_diagram::{Delays, Diagram, Limits, limits_in_range};
use ltm_units::{Millis, NoMemory};
use std::alloc::Global;
use std::marker::Model;

/// The limits of a link, and its times counted in slots, so that a loading finds a boundary without a division.
#[derive(Clone, Copy)]
pub struct Timed {
    pub limits: Limits,
    pub delays: Delays,
}

/// What the limits of a link depend on besides its diagram.
#[derive(Clone, Copy)]
pub struct Pace {
    /// The length of a slot.
    pub step: Millis,
    /// Whether what is left over of a capacity is carried to the next slot.
    pub carry: bool,
}

/// The diagrams by link number, and beside them the limits that they set at the pace of the setup.
pub struct Diagrams {
    pace: Pace,
    diagrams: Vec<Diagram>,
    timed: Vec<Timed>,
}

// By hand, so that letting go of diagrams is one call, and not their parts one by one wherever that may happen.
impl Drop for Diagrams {
    fn drop(self) {
        let Diagrams {
            pace: _pace,
            diagrams: _diagrams,
            timed: _timed,
        } = self;
    }
}

impl Model for Diagrams {
    ghost use Rattle.std.specs.Prelude.{◌-◌, min, vec_len, vec_capacity};
    ghost use Rattle.ltm_scenario.specs.Diagrams.{DiagramsState};
    ghost use Rattle.ltm_scenario.specs.Timed.{AreTimed};

    ghost Value = { DiagramsState };

    ghost view = { λ d. record { pace = d.pace; diagrams = d.diagrams.items; room = min (vec_capacity d.diagrams - vec_len d.diagrams) (vec_capacity d.timed - vec_len d.timed) } };

    ghost invariant = { λ d. AreTimed d.pace.step.0 d.pace.carry d.diagrams.items d.timed.items };
}

impl Diagrams {
    pub fn new(alloc: Global, step: Millis, carry: bool) -> Diagrams
        requires some { 1 ≤ step.0 }
        requires most { step.0 ≤ longest_step }
        ensures pace { result.pace ≡ record { step = step; carry = carry } }
        ensures diagrams { result.diagrams ≡ [] }
    {
        Diagrams {
            pace: Pace { step, carry },
            diagrams: Vec::new(alloc),
            timed: Vec::new(alloc),
        }
    }

    pub fn diagram(&self, link: u32) -> &Diagram
        requires { link < length self.now.diagrams }
        ensures diagram { slice_get self.now.diagrams link ≡ Some result.now }
    {
        &self.diagrams[link as usize]
    }

    pub fn limits(&self, link: u32) -> Limits
        requires { link < length self.now.diagrams }
        ensures limits { (diagram : Diagram) → slice_get self.now.diagrams link ≡ Some diagram
            → limits_of diagram self.now.pace.step.0 self.now.pace.carry ≡ Ok result }
    {
        self.timed[link as usize].limits
    }

    /// The times of a link, counted in slots.
    pub fn delays(&self, link: u32) -> Delays
        requires { link < length self.now.diagrams }
        ensures delays { (diagram : Diagram) → (limits : Limits)
            → slice_get self.now.diagrams link ≡ Some diagram
            → limits_of diagram self.now.pace.step.0 self.now.pace.carry ≡ Ok limits → AreDelays self.now.pace.step.0 limits result }
    {
        self.timed[link as usize].delays
    }

    /// Limits with their times counted in slots.
    fn timed(&self, diagram: &Diagram, limits: Limits) -> Timed
        requires { limits_of diagram.now self.now.pace.step.0 self.now.pace.carry ≡ Ok limits }
        ensures limits { result.limits ≡ limits }
        ensures delays { AreDelays self.now.pace.step.0 result.limits result.delays }
    {
        limits_in_range();
        let delays = Delays::of(&limits, self.pace.step);
        Timed { limits, delays }
    }

    /// Makes room for one link more.
    pub fn reserve(&mut self) -> Result<(), NoMemory>
        ensures pace { self.new.pace ≡ self.old.pace }
        ensures diagrams { self.new.diagrams ≡ self.old.diagrams }
        ensures ok { OnOk result (0 < self.new.room) }
    {
        self.diagrams.reserve(1)?;
        self.timed.reserve(1)?;
        Ok(())
    }

    /// Puts a diagram last, with the limits that it sets.
    pub fn push(&mut self, diagram: Diagram, limits: Limits)
        requires limits { limits_of diagram self.old.pace.step.0 self.old.pace.carry ≡ Ok limits }
        requires room { 0 < self.old.room }
        ensures pace { self.new.pace ≡ self.old.pace }
        ensures diagrams { self.new.diagrams ≡ self.old.diagrams ++ diagram ∷ [] }
    {
        let timed = self.timed(&diagram, limits);
        match self.diagrams.push(diagram) {
            Ok(()) => {}
            Err(_) => unreachable!(),
        }
        match self.timed.push(timed) {
            Ok(()) => {}
            Err(_) => unreachable!(),
        }
    }

    /// Gives a link another diagram, with the limits that it sets.
    pub fn replace(&mut self, link: u32, diagram: Diagram, limits: Limits)
        requires limits { limits_of diagram self.old.pace.step.0 self.old.pace.carry ≡ Ok limits }
        requires link { link < length self.old.diagrams }
        ensures pace { self.new.pace ≡ self.old.pace }
        ensures diagrams { self.new.diagrams ≡ slice_set self.old.diagrams link diagram }
        ensures room { self.new.room ≡ self.old.room }
    {
        let timed = self.timed(&diagram, limits);
        self.diagrams[link as usize] = diagram;
        self.timed[link as usize] = timed;
    }

    /// An equal one, on the same allocator.
    pub fn try_copy(&self) -> Result<Diagrams, NoMemory>
        ensures pace { IfOk result (λ copy. copy.pace ≡ self.now.pace) }
        ensures diagrams { IfOk result (λ copy. copy.diagrams ≡ self.now.diagrams) }
    {
        let alloc = *self.diagrams.allocator();
        Ok(Diagrams {
            pace: self.pace,
            diagrams: Vec::from_slice(alloc, self.diagrams.as_slice())?,
            timed: Vec::from_slice(alloc, self.timed.as_slice())?,
        })
    }
}
