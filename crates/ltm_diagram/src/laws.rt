//! What follows from the definition of a link's limits. Each law is the contract of a function that does nothing.
ghost use Rattle.ltm_diagram.specs.InRange.{LimitsInRange};
ghost use Rattle.ltm_diagram.specs.Passing.{AllSlotsAlike, NothingIsLost, WholeOrOneMore};

/// Wherever a diagram sets limits, they lie in the ranges of `AreInRange`.
pub fn limits_in_range()
    ensures { LimitsInRange }
{}

/// Where what is left over is carried, the slots up to any pass together what the exact capacity lets through, rounded down once.
pub fn nothing_is_lost()
    ensures { NothingIsLost }
{}

/// Where it is not, each slot passes the capacity, rounded down.
pub fn all_slots_alike()
    ensures { AllSlotsAlike }
{}

/// In either case a slot passes the capacity, rounded down, or a thousandth of a vehicle more.
pub fn whole_or_one_more()
    ensures { WholeOrOneMore }
{}
