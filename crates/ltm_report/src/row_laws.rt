//! What holds of the lines of all links, nodes or boundaries. Each law is the contract of a function that does nothing.
ghost use Rattle.ltm_report.specs.RowLaws.{StateTellsQueues, CurvesTellQueues, DeparturesTellOrigins, TotalsTellCurves, TotalsTellDepartures, LastIsTold, SamplesTellCurves, DelaysTellDelay};

/// At a link's place `state` has the numbers of its `queue` at the boundary, at a node's place that of its `origin`.
pub fn state_tells_queues()
    ensures { StateTellsQueues }
{}

/// At a boundary's place `curve` has what has entered the link and left it by then, as `queue` tells them.
pub fn curves_tell_queues()
    ensures { CurvesTellQueues }
{}

/// At a boundary's place `departures` has what the origin has produced and what has left it by then, as `origin` tells them.
pub fn departures_tell_origins()
    ensures { DeparturesTellOrigins }
{}

/// At a boundary that `totals` tells it has what `curve` has there of the link.
pub fn totals_tell_curves()
    ensures { TotalsTellCurves }
{}

/// And of an origin what `departures` has there.
pub fn totals_tell_departures()
    ensures { TotalsTellDepartures }
{}

/// The last boundary that `totals` tells is the end of the horizon.
pub fn last_is_told()
    ensures { LastIsTold }
{}

/// The line that answers `totals` by so many slots has at a link's place what `curve` has of it at the boundary, and at a node's
/// place what `departures` has there.
pub fn samples_tell_curves()
    ensures { SamplesTellCurves }
{}

/// `delays` has the numbers of `delay` and of the lines of links and nodes behind it, and zeros where a node has no line.
pub fn delays_tell_delay()
    ensures { DelaysTellDelay }
{}
