//! What holds of every curves, whatever is in them.
ghost use Rattle.ltm_curve.specs.CurveLaws.{CountsTellAll, OneDestinationIsTotal};
ghost use Rattle.ltm_curve.specs.FirstLaws.{FirstSums, FirstRises, FirstStays, FirstWithin};

/// Two curves of one shape with the same counts at every place have the same totals at every boundary, and the same
/// total at every time up to the last boundary.
pub fn counts_tell_all()
    ensures { CountsTellAll }
{}

/// With one destination the total of a group is the count of that destination.
pub fn one_destination_is_total()
    ensures { OneDestinationIsTotal }
{}

/// The parts of all destinations in the first n units sum to n.
pub fn first_sums()
    ensures { FirstSums }
{}

/// No part falls as the number of units rises.
pub fn first_rises()
    ensures { FirstRises }
{}

/// A part is the same at each later boundary.
pub fn first_stays()
    ensures { FirstStays }
{}

/// A part is at most the whole count.
pub fn first_within()
    ensures { FirstWithin }
{}
