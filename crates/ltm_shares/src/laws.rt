//! What the conditions on shares imply.
ghost use Rattle.ltm_shares.specs.Shares.{OneSolution};

/// Two lists of shares for the same demands are equal fractions.
pub fn one_solution()
    ensures { OneSolution }
{}
