//! What follows from the definitions of limits alone. Each law is the contract of a function that does nothing.
ghost use Rattle.ltm_limits.specs.Laws.{LimitsAreSet, LimitsAreLengthened, LimitsStayWhole};

/// A limit that is set stands in the slots of its link that were meant; other slots and other links keep theirs.
pub fn limits_are_set()
    ensures { LimitsAreSet }
{}

/// Over a longer horizon the limits that stood stay, and in the new slots no limit was ever set.
pub fn limits_are_lengthened()
    ensures { LimitsAreLengthened }
{}

/// Each link has a limit for each slot: where there is no link yet, with each link more, over a longer horizon, and after
/// each write.
pub fn limits_stay_whole()
    ensures { LimitsStayWhole }
{}
