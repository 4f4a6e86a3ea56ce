//! Edits, one by one and in batches.
ghost use Rattle.std.specs.Prelude.{◌≡◌, ◌≢◌, ℕ, ◌+◌, ◌<◌, ◌≤◌, ◌^◌, List, [], All, length, map, Ok, Err, OnOk, OnErr, IfOk, IfErr, sum, ◌==◌, false, true};
ghost use Rattle.ltm_scenario.specs.Reads.{has_no_out_link};
ghost use Rattle.ltm_scenario.specs.Build.{are_slots};
ghost use Rattle.ltm_scenario.specs.Edits.{demand_row, demand_edited, limited_link, limit_edited, diagram_edited, horizon_edited, edited, edited_from, cause_of_demand, cause_of_horizon, amount_of, HaveAmounts};
ghost use Rattle.ltm_scenario.specs.State.{KeepsRoom};
ghost use Rattle.ltm_scenario.specs.Undo.{Undoes};
ghost use Rattle.ltm_scenario.specs.IsScenario.{IsDemandOf};
ghost use Rattle.ltm_scenario.specs.Parts.{scenario_in, state_in, AreParts};
ghost use Rattle.ltm_units.specs.Bounds.{most_amount};

mod split;
mod splits;

use crate::edit::{Edit, EditCause, EditFault};
use crate::faults::HorizonFault;
use crate::parts::Parts;
use crate::parts::undo::Undo;
use crate::side::Side;
use ltm_demand::{DemandFault, DemandRow};
use ltm_diagram::Diagram;
use ltm_units::{Name, NodeId, Units};

fn cause_of_demand(fault: DemandFault) -> EditCause
    ensures { result ≡ cause_of_demand fault }
{
    match fault {
        DemandFault::BadSlots => EditCause::BadSlots,
        DemandFault::TooManyRows => EditCause::TooManyRows,
        DemandFault::NoMemory => EditCause::NoMemory,
    }
}

fn cause_of_horizon(fault: HorizonFault) -> EditCause
    ensures { result ≡ cause_of_horizon fault }
{
    match fault {
        HorizonFault::BadSlots => EditCause::BadSlots,
        HorizonFault::CellsOver(cells) => EditCause::CellsOver(cells),
        HorizonFault::NoMemory => EditCause::NoMemory,
    }
}

impl Parts {
    /// Makes the edits in order, or none of them. The first has the place.
    #[tactic(auto, using(crate::proofs::Rooms::room_stays, crate::proofs::Rooms::room_through, crate::proofs::Rooms::still_undoes, crate::proofs::Rooms::undone_back))]
    pub fn accept_from(&mut self, place: u32, edits: &[Edit]) -> Result<(), EditFault>
        requires parts { AreParts self.old }
        requires places { place + length edits.now < 2 ^ 32 }
        requires amounts { HaveAmounts edits.now }
        ensures ok { OnOk result (edited_from place (scenario_in self.old) edits.now
            ≡ Ok (scenario_in self.new)) }
        ensures err { OnErr result (scenario_in self.new ≡ scenario_in self.old) }
        ensures cause { IfErr result (λ fault. fault.cause ≢ EditCause.NoMemory
            → edited_from place (scenario_in self.old) edits.now ≡ Err fault) }
        ensures room { KeepsRoom (state_in self.old) (state_in self.new) }
        ensures parts { AreParts self.new }
    {
        let Some((edit, rest)) = edits.split_first() else {
            return Ok(());
        };
        match self.apply(edit) {
            Err(cause) => return Err(EditFault { place, cause }),
            Ok(undo) => match self.accept_from(place + 1, rest) {
                Ok(()) => return Ok(()),
                Err(fault) => {
                    self.undo(undo);
                    return Err(fault);
                }
            },
        }
    }

    /// Makes one edit, and gives what undoes it.
    fn apply(&mut self, edit: &Edit) -> Result<Undo, EditCause>
        requires parts { AreParts self.old }
        requires amount { amount_of edit.now ≤ most_amount }
        ensures ok { OnOk result (edited (scenario_in self.old) edit.now
            ≡ Ok (scenario_in self.new)) }
        ensures undo { IfOk result (Undoes (state_in self.old) (state_in self.new)) }
        ensures err { OnErr result (scenario_in self.new ≡ scenario_in self.old) }
        ensures cause { IfErr result (λ e. e ≢ EditCause.NoMemory
            → edited (scenario_in self.old) edit.now ≡ Err e) }
        ensures room { KeepsRoom (state_in self.old) (state_in self.new) }
        ensures parts { AreParts self.new }
    {
        match edit {
            Edit::Demand {
                origin,
                destination,
                from,
                to,
                amount,
            } => return self.edit_demand(origin, destination, *from, *to, *amount),
            Edit::Limit {
                link,
                from,
                to,
                amount,
            } => return self.edit_limit(Side::Entry, link, *from, *to, *amount),
            Edit::Split {
                node,
                destination,
                from,
                weights,
            } => return self.edit_split(node, destination, *from, weights),
            Edit::Splits {
                node,
                destination,
                rows,
            } => return self.edit_splits(node, destination, rows.rows()),
            Edit::Diagram { link, diagram } => return self.edit_diagram(link, *diagram),
            Edit::Exit {
                link,
                from,
                to,
                amount,
            } => return self.edit_limit(Side::Exit, link, *from, *to, *amount),
            Edit::Horizon { slots } => return self.edit_horizon(*slots),
        }
    }

    fn edit_demand(
        &mut self,
        origin: &Name,
        destination: &Name,
        from: u32,
        to: u32,
        amount: Units,
    ) -> Result<Undo, EditCause>
        requires parts { AreParts self.old }
        requires amount { amount.0 ≤ most_amount }
        ensures ok { OnOk result
            (demand_edited (scenario_in self.old) origin.now destination.now from to amount.0
            ≡ Ok (scenario_in self.new)) }
        ensures undo { IfOk result (Undoes (state_in self.old) (state_in self.new)) }
        ensures err { OnErr result (scenario_in self.new ≡ scenario_in self.old) }
        ensures cause { IfErr result (λ e. e ≢ EditCause.NoMemory
            → demand_edited (scenario_in self.old) origin.now destination.now from to amount.0
            ≡ Err e) }
        ensures room { KeepsRoom (state_in self.old) (state_in self.new) }
        ensures parts { AreParts self.new }
    {
        let row = match self.demand_row(origin, destination, from, to, amount) {
            Ok(row) => row,
            Err(cause) => return Err(cause),
        };
        match self.change_demand(row) {
            Ok(undo) => return Ok(undo),
            Err(fault) => return Err(cause_of_demand(fault)),
        }
    }

    /// The row that an edit sets.
    #[tactic(auto, unfolding(crate::specs::Edits::demand_row))]
    fn demand_row(
        &self,
        origin: &Name,
        destination: &Name,
        from: u32,
        to: u32,
        amount: Units,
    ) -> Result<DemandRow, EditCause>
        ensures row { result
            ≡ demand_row (scenario_in self.now) origin.now destination.now from to amount.0 }
        ensures is_row { IfOk result (IsDemandOf (scenario_in self.now)) }
        ensures amount { IfOk result (λ row. row.amount ≡ amount) }
    {
        let Some(origin) = self.network.find_node(origin) else {
            return Err(EditCause::UnknownName);
        };
        let Some(end) = self.network.find_node(destination) else {
            return Err(EditCause::UnknownName);
        };
        let Some(destination) = self.destinations.place(end) else {
            return Err(EditCause::UnknownDestination);
        };
        if self.has_no_out_link(origin) {
            return Err(EditCause::NoOrigin);
        }
        if origin.0 == end.0 {
            return Err(EditCause::SameEnds);
        }
        if !self.are_slots(from, to) {
            return Err(EditCause::BadSlots);
        }
        if !self.has_split(origin, destination) {
            return Err(EditCause::OpenSplit);
        }
        Ok(DemandRow {
            origin,
            destination,
            from,
            to,
            amount,
        })
    }

    /// The link whose limits an edit sets.
    #[tactic(auto, unfolding(crate::specs::Edits::limited_link))]
    fn limited_link(&self, name: &Name, from: u32, to: u32) -> Result<u32, EditCause>
        ensures link { result ≡ limited_link (scenario_in self.now) name.now from to }
        ensures there { IfOk result (λ link. link < length (scenario_in self.now).network.links) }
        ensures slots { OnOk result (are_slots (scenario_in self.now) from to ≡ true) }
    {
        let Some(link) = self.network.find_link(name) else {
            return Err(EditCause::UnknownName);
        };
        if !self.are_slots(from, to) {
            return Err(EditCause::BadSlots);
        }
        Ok(link.0)
    }

    fn edit_limit(
        &mut self,
        side: Side,
        name: &Name,
        from: u32,
        to: u32,
        amount: Units,
    ) -> Result<Undo, EditCause>
        requires parts { AreParts self.old }
        ensures ok { OnOk result (limit_edited (scenario_in self.old) side name.now from to amount.0
            ≡ Ok (scenario_in self.new)) }
        ensures undo { IfOk result (Undoes (state_in self.old) (state_in self.new)) }
        ensures err { OnErr result (scenario_in self.new ≡ scenario_in self.old) }
        ensures cause { IfErr result (λ e. e ≢ EditCause.NoMemory
            → limit_edited (scenario_in self.old) side name.now from to amount.0 ≡ Err e) }
        ensures room { KeepsRoom (state_in self.old) (state_in self.new) }
        ensures parts { AreParts self.new }
    {
        let link = match self.limited_link(name, from, to) {
            Ok(link) => link,
            Err(cause) => return Err(cause),
        };
        match self.change_limit(side, link, from, to, amount) {
            Ok(undo) => return Ok(undo),
            Err(_) => return Err(EditCause::NoMemory),
        }
    }

    #[tactic(auto, unfolding(crate::specs::Edits::diagram_edited))]
    fn edit_diagram(&mut self, name: &Name, diagram: Diagram) -> Result<Undo, EditCause>
        requires parts { AreParts self.old }
        ensures ok { OnOk result (diagram_edited (scenario_in self.old) name.now diagram
            ≡ Ok (scenario_in self.new)) }
        ensures undo { IfOk result (Undoes (state_in self.old) (state_in self.new)) }
        ensures err { OnErr result (scenario_in self.new ≡ scenario_in self.old) }
        ensures cause { IfErr result (λ e. e ≢ EditCause.NoMemory
            → diagram_edited (scenario_in self.old) name.now diagram ≡ Err e) }
        ensures room { KeepsRoom (state_in self.old) (state_in self.new) }
        ensures parts { AreParts self.new }
    {
        let Some(link) = self.network.find_link(name) else {
            return Err(EditCause::UnknownName);
        };
        match diagram.limits(self.setup.step, self.setup.carry) {
            Ok(limits) => return Ok(self.change_diagram(link.0, diagram, limits)),
            Err(fault) => return Err(EditCause::Diagram(fault)),
        }
    }

    fn edit_horizon(&mut self, slots: u32) -> Result<Undo, EditCause>
        requires parts { AreParts self.old }
        ensures ok { OnOk result (horizon_edited (scenario_in self.old) slots
            ≡ Ok (scenario_in self.new)) }
        ensures undo { IfOk result (Undoes (state_in self.old) (state_in self.new)) }
        ensures err { OnErr result (scenario_in self.new ≡ scenario_in self.old) }
        ensures cause { IfErr result (λ e. horizon_edited (scenario_in self.old) slots ≡ Err e) }
        ensures room { KeepsRoom (state_in self.old) (state_in self.new) }
        ensures parts { AreParts self.new }
    {
        match self.lengthen(slots) {
            Ok(undo) => return Ok(undo),
            Err(fault) => return Err(cause_of_horizon(fault)),
        }
    }
}
