//! Why calls on a scenario refuse.
use ltm_diagram::DiagramFault;
use ltm_network::NetworkFault;
use ltm_units::{Name, NoMemory};
use std::alloc::{AllocError, AllocFailed};

/// Why a link is not added.
#[derive(Clone, Copy, Debug, PartialEq, Eq)]
pub enum LinkFault {
    /// The network takes no such link. It is never `NetworkFault::NoMemory`.
    Network(NetworkFault),
    /// The diagram sets no limits at the step of the setup.
    Diagram(DiagramFault),
    /// Memory was not found.
    NoMemory,
}

impl From<NoMemory> for LinkFault {
    ghost use Rattle.std.specs.Prelude.{◌≡◌};
    ghost use Rattle.ltm_scenario.specs.declared.faults.LinkFault.TheVariants as fault;

    ghost from_gives = { λ _ e. e ≡ fault.NoMemory };

    fn from(_e: NoMemory) -> LinkFault {
        LinkFault::NoMemory
    }
}

/// Why a node does not become a destination.
#[derive(Clone, Copy, Debug, PartialEq, Eq)]
pub enum DestinationFault {
    /// There are as many destinations as the setup allows, and the node is none of them.
    TooMany,
    /// Memory was not found.
    NoMemory,
}

impl From<NoMemory> for DestinationFault {
    ghost use Rattle.std.specs.Prelude.{◌≡◌};
    ghost use Rattle.ltm_scenario.specs.declared.faults.DestinationFault.TheVariants as fault;

    ghost from_gives = { λ _ e. e ≡ fault.NoMemory };

    fn from(_e: NoMemory) -> DestinationFault {
        DestinationFault::NoMemory
    }
}

/// Why the horizon is not raised.
#[derive(Clone, Copy, Debug, PartialEq, Eq)]
pub enum HorizonFault {
    /// The slots are no more than there are, or more than 10,000.
    BadSlots,
    /// The cells would be more than the case may have; this many.
    CellsOver(u128),
    /// Memory was not found. `Scenario::lengthen` takes none, so it never comes from there.
    NoMemory,
}

/// The first broken rule of a case.
#[derive(Clone, Copy, PartialEq, Eq)]
pub enum ScenarioFault {
    /// The node and the destination lack the split row that a rule asks for: any at all, or one from slot 0 on.
    NoSplit { node: Name, destination: Name },
    /// The cells are more than the case may have; this many.
    CellsOver(u128),
}
