//! What undoes an edit, and undoing, which needs no memory.
//!
//! Each change of a table notes what it takes away (`changes`, `horizon`), and where a later edit of the batch is refused
//! the notes are used, the last first. Whoever changes this: a further kind of change is a variant of `Undo`, with what it
//! makes of the data (`undone`) and what it needs of the tables (`Fits`). When a note is used the data are those that its
//! edit left, and of the room in the tables only `KeepsRoom` is known: so each room that `Fits` asks for is a field of
//! `ScenarioState`, and `KeepsRoom` says that it does not fall.
ghost use Rattle.std.specs.Prelude.{◌≡◌};
ghost use Rattle.ltm_scenario.specs.State.{KeepsRoom};
ghost use Rattle.ltm_scenario.specs.Undo.{undone, CanUndo};
ghost use Rattle.ltm_scenario.specs.Parts.{scenario_in, state_in, AreParts};

use crate::parts::Parts;
use crate::side::Side;
use ltm_demand::DemandRow;
use ltm_diagram::{Diagram, Limits};
use ltm_splits::{PairRows, SplitKey};
use ltm_units::NodeId;

/// What an edit took away, with its place, so that it can be put back without memory.
#[derive(Drop)]
pub enum Undo {
    /// The row with the amount that stood at its key.
    Demand(DemandRow),
    /// The entry limits, or exit limits, of a link from a slot on.
    Limit {
        side: Side,
        link: u32,
        from: u32,
        was: Vec<u16>,
    },
    /// No split row stood at the key.
    NewSplit(SplitKey),
    /// The weights of the split row at the key.
    OldSplit(SplitKey, Vec<u32>),
    /// The split rows of a node and a destination.
    Pair {
        node: NodeId,
        destination: u32,
        was: PairRows,
    },
    /// The diagram of a link, and its limits.
    Diagram {
        link: u32,
        diagram: Diagram,
        limits: Limits,
    },
    /// The slots of the horizon.
    Horizon(u32),
}

impl Parts {
    /// Puts back what an edit took away.
    pub fn undo(&mut self, undo: Undo)
        requires parts { AreParts self.old }
        requires can { CanUndo (state_in self.old) undo }
        ensures scenario { scenario_in self.new ≡ undone (scenario_in self.old) undo }
        ensures room { KeepsRoom (state_in self.old) (state_in self.new) }
        ensures parts { AreParts self.new }
    {
        match undo {
            Undo::Demand(row) => self.restore_demand(row),
            Undo::Limit {
                side,
                link,
                from,
                was,
            } => self.restore_limit(side, link, from, was),
            Undo::NewSplit(key) => self.take_out_split(key),
            Undo::OldSplit(key, was) => self.restore_split(key, was),
            Undo::Pair {
                node,
                destination,
                was,
            } => self.restore_pair(node, destination, was),
            Undo::Diagram {
                link,
                diagram,
                limits,
            } => self.restore_diagram(link, diagram, limits),
            Undo::Horizon(slots) => self.shorten(slots),
        }
    }

    fn restore_demand(&mut self, row: DemandRow)
        requires parts { AreParts self.old }
        requires can { CanUndo (state_in self.old) (Undo.Demand row) }
        ensures scenario { scenario_in self.new ≡ undone (scenario_in self.old) (Undo.Demand row) }
        ensures room { KeepsRoom (state_in self.old) (state_in self.new) }
        ensures parts { AreParts self.new }
    {
        self.demand.restore(row);
    }

    #[tactic(auto, using(crate::proofs::Undoing::entry_restored, crate::proofs::Undoing::exit_restored))]
    fn restore_limit(&mut self, side: Side, link: u32, from: u32, was: Vec<u16>)
        requires parts { AreParts self.old }
        requires can { CanUndo (state_in self.old) (Undo.Limit side link from was) }
        ensures scenario { scenario_in self.new
            ≡ undone (scenario_in self.old) (Undo.Limit side link from was) }
        ensures room { KeepsRoom (state_in self.old) (state_in self.new) }
        ensures parts { AreParts self.new }
    {
        let mut values = was;
        match side {
            Side::Entry => return self.entry.exchange(link, from, &mut values),
            Side::Exit => return self.exit.exchange(link, from, &mut values),
        }
    }

    #[tactic(auto, using(crate::proofs::Undoing::splits_restored))]
    fn take_out_split(&mut self, key: SplitKey)
        requires parts { AreParts self.old }
        requires can { CanUndo (state_in self.old) (Undo.NewSplit key) }
        ensures scenario { scenario_in self.new
            ≡ undone (scenario_in self.old) (Undo.NewSplit key) }
        ensures room { KeepsRoom (state_in self.old) (state_in self.new) }
        ensures parts { AreParts self.new }
    {
        self.splits.take_out(key.node, key.destination, key.from);
    }

    #[tactic(auto, using(crate::proofs::Undoing::splits_restored))]
    fn restore_split(&mut self, key: SplitKey, was: Vec<u32>)
        requires parts { AreParts self.old }
        requires can { CanUndo (state_in self.old) (Undo.OldSplit key was) }
        ensures scenario { scenario_in self.new
            ≡ undone (scenario_in self.old) (Undo.OldSplit key was) }
        ensures room { KeepsRoom (state_in self.old) (state_in self.new) }
        ensures parts { AreParts self.new }
    {
        self.splits
            .put_back(key.node, key.destination, key.from, &was);
    }

    #[tactic(auto, using(crate::proofs::Undoing::splits_restored))]
    fn restore_pair(&mut self, node: NodeId, destination: u32, was: PairRows)
        requires parts { AreParts self.old }
        requires can { CanUndo (state_in self.old) (Undo.Pair node destination was) }
        ensures scenario { scenario_in self.new
            ≡ undone (scenario_in self.old) (Undo.Pair node destination was) }
        ensures room { KeepsRoom (state_in self.old) (state_in self.new) }
        ensures parts { AreParts self.new }
    {
        self.splits.put_back_pair(node, destination, was);
    }

    #[tactic(auto, using(crate::proofs::Undoing::diagrams_restored))]
    fn restore_diagram(&mut self, link: u32, diagram: Diagram, limits: Limits)
        requires parts { AreParts self.old }
        requires can { CanUndo (state_in self.old) (Undo.Diagram link diagram limits) }
        ensures scenario { scenario_in self.new
            ≡ undone (scenario_in self.old) (Undo.Diagram link diagram limits) }
        ensures room { KeepsRoom (state_in self.old) (state_in self.new) }
        ensures parts { AreParts self.new }
    {
        self.diagrams.replace(link, diagram, limits);
    }
}
