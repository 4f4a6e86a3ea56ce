//! What the node step implies.
ghost use Rattle.ltm_node.specs.Laws.{
  OneSolution,
  OneStep,
  SupplyKept,
  SendingKept,
  NothingLost,
  NothingLostInAll,
  SameShape,
  SameStep,
  NoArrivals,
  NothingMoves,
  MovesAdd,
};

/// Two lists of shares for the same inputs are equal fractions.
pub fn one_solution()
    ensures { OneSolution }
{}

/// Two node steps of the same inputs are the same counts.
pub fn one_step()
    ensures { OneStep }
{}

/// What enters an out-link is at most its supply.
pub fn supply_kept()
    ensures { SupplyKept }
{}

/// No arm moves more to a destination than it sends there.
pub fn sending_kept()
    ensures { SendingKept }
{}

/// For each destination, what leaves the arms is what enters the out-links and the sink.
pub fn nothing_lost()
    ensures { NothingLost }
{}

/// In all, what leaves the arms is what enters the out-links and the sink.
pub fn nothing_lost_in_all()
    ensures { NothingLostInAll }
{}

/// The counts of a node step are of the shape of its inputs.
pub fn same_shape()
    ensures { SameShape }
{}

/// The node step does not depend on the room of its buffers: for inputs that agree but for their room, and counts that agree
/// but for theirs, the one are the node step of the one exactly where the other are that of the other.
pub fn same_step()
    ensures { SameStep }
{}

/// Nothing arrives at a node that is no destination.
pub fn no_arrivals()
    ensures { NoArrivals }
{}

/// Where no arm sends anything, the counts stay as they were.
pub fn nothing_moves()
    ensures { NothingMoves }
{}

/// What moves does not depend on the counts: the node step of inputs where nothing has been counted is what moves, and the
/// counts and what moves are the node step.
pub fn moves_add()
    ensures { MovesAdd }
{}
