//! What follows from the data of a scenario alone. Each law is the contract of a function that does nothing.
ghost use Rattle.ltm_scenario.specs.Makes.{EditsMake};

/// An edit that is accepted changes one part of the scenario, by its kind: it sets the demand row, the limits, the split
/// row or the diagram that it says, and leaves all else.
pub fn edits_make()
    ensures { EditsMake }
{}
