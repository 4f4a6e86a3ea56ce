//! A longer horizon of all tables, and the way back. Neither takes memory.
ghost use Rattle.std.specs.Prelude.{◌≡◌, ◌<◌, ◌≤◌, true, Ok, Err, OnOk, OnErr, IfOk, IfErr};
ghost use Rattle.ltm_scenario.specs.Cells.{cells_with, has_room};
ghost use Rattle.ltm_scenario.specs.Horizon.{with_slots, with_horizon};
ghost use Rattle.ltm_scenario.specs.State.{KeepsRoom};
ghost use Rattle.ltm_scenario.specs.Undo.{undone, CanUndo, Undoes};
ghost use Rattle.ltm_scenario.specs.Parts.{scenario_in, state_in, AreParts};
ghost use Rattle.ltm_units.specs.Bounds.{most_slots};

use crate::faults::HorizonFault;
use crate::parts::Parts;
use crate::parts::undo::Undo;
use crate::setup::MOST_SLOTS;

impl Parts {
    /// Raises the horizon, and gives what undoes it.
    pub fn lengthen(&mut self, slots: u32) -> Result<Undo, HorizonFault>
        requires parts { AreParts self.old }
        ensures ok { OnOk result (with_horizon (scenario_in self.old) slots
            ≡ Ok (scenario_in self.new)) }
        ensures undo { IfOk result (Undoes (state_in self.old) (state_in self.new)) }
        ensures err { OnErr result (scenario_in self.new ≡ scenario_in self.old) }
        ensures cause { IfErr result (λ e. with_horizon (scenario_in self.old) slots ≡ Err e) }
        ensures room { KeepsRoom (state_in self.old) (state_in self.new) }
        ensures parts { AreParts self.new }
    {
        match self.check_horizon(slots) {
            Ok(()) => return Ok(self.stretch(slots)),
            Err(fault) => return Err(fault),
        }
    }

    /// Why the horizon is not raised so far.
    #[tactic(auto, unfolding(crate::specs::Horizon::with_horizon))]
    fn check_horizon(&self, slots: u32) -> Result<(), HorizonFault>
        ensures ok { OnOk result (with_horizon (scenario_in self.now) slots
            ≡ Ok (with_slots (scenario_in self.now) slots)) }
        ensures longer { OnOk result ((scenario_in self.now).setup.slots < slots) }
        ensures most { OnOk result (slots ≤ most_slots) }
        ensures cause { IfErr result (λ e. with_horizon (scenario_in self.now) slots ≡ Err e) }
    {
        if slots <= self.setup.slots || slots > MOST_SLOTS {
            return Err(HorizonFault::BadSlots);
        }
        let cells = self.cells_with(slots);
        if !self.has_room(cells) {
            return Err(HorizonFault::CellsOver(cells));
        }
        Ok(())
    }

    /// Sets a longer horizon in each table.
    #[tactic(auto, using(crate::proofs::Horizons::stretched_are_parts, crate::proofs::Horizons::stretch_undoes, crate::proofs::Horizons::room_over))]
    fn stretch(&mut self, slots: u32) -> Undo
        requires parts { AreParts self.old }
        requires longer { (scenario_in self.old).setup.slots < slots }
        requires most { slots ≤ most_slots }
        ensures done { scenario_in self.new ≡ with_slots (scenario_in self.old) slots }
        ensures undo { Undoes (state_in self.old) (state_in self.new) result }
        ensures room { KeepsRoom (state_in self.old) (state_in self.new) }
        ensures parts { AreParts self.new }
    {
        let was = self.setup.slots;
        self.demand.lengthen(slots);
        self.splits.lengthen(slots);
        self.entry.lengthen(slots);
        self.exit.lengthen(slots);
        self.setup.slots = slots;
        Undo::Horizon(was)
    }

    /// Sets the horizon back that a longer one took the place of.
    #[tactic(auto, using(crate::proofs::Horizons::shortened_are_parts, crate::proofs::Horizons::room_over))]
    pub fn shorten(&mut self, slots: u32)
        requires parts { AreParts self.old }
        requires can { CanUndo (state_in self.old) (Undo.Horizon slots) }
        ensures scenario { scenario_in self.new
            ≡ undone (scenario_in self.old) (Undo.Horizon slots) }
        ensures room { KeepsRoom (state_in self.old) (state_in self.new) }
        ensures parts { AreParts self.new }
    {
        self.demand.shorten(slots);
        self.splits.shorten(slots);
        self.entry.shorten(slots);
        self.exit.shorten(slots);
        self.setup.slots = slots;
    }
}
