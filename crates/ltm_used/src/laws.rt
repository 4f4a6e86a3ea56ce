//! What holds of the destinations that can be on a link.
ghost use Rattle.ltm_used.specs.Closed.{NothingElse};
ghost use Rattle.ltm_used.specs.Found.{FoundAreClosed};

/// Of a destination that is on no list of closed ones nothing ever enters a link or leaves it.
pub fn nothing_else()
    ensures { NothingElse }
{}

/// Lists of what is found are closed, where what origins send of their demand is found and all that goes on from it.
pub fn found_are_closed()
    ensures { FoundAreClosed }
{}
