//! What holds of queues and delays in every loading.
ghost use Rattle.ltm_times.specs.Peaks.{PeaksAreFirstGreatest};
ghost use Rattle.ltm_times.specs.DelayLaws.{LeftWasReady, LeftWasProduced, QueuesStandOnLinks, SpentAddsUp, DelaysAreSummed};

use ltm_curve::first_sums;
use ltm_loading::{
    adds_up, first_in_first_out, links_are_ready, never_fall, within_produced, within_storage,
};

/// No more has left a link by a boundary than could have left it at free speed: nothing is cut off where a queue is counted.
pub fn left_was_ready()
    ensures { LeftWasReady }
{
    first_in_first_out();
    links_are_ready();
    first_sums();
}

/// No more has left an origin by a boundary than it has produced.
pub fn left_was_produced()
    ensures { LeftWasProduced }
{
    within_produced();
}

/// A queue is at most what is on its link, which is at most the link's storage.
pub fn queues_stand_on_links()
    ensures { QueuesStandOnLinks }
{
    never_fall();
    within_storage();
}

/// What is spent on a link is queued or driven there, and what all spend is queued, waited or driven.
pub fn spent_adds_up()
    ensures { SpentAddsUp }
{
    left_was_ready();
    never_fall();
    adds_up();
}

/// What is spent on each link and what is waited sum to what all spend, and what is queued on each link and waited at each
/// origin to what all queue and wait.
pub fn delays_are_summed()
    ensures { DelaysAreSummed }
{
    left_was_produced();
    adds_up();
}

/// The place of a peak has the greatest number, and is the first that has it.
pub fn peaks_are_first_greatest()
    ensures { PeaksAreFirstGreatest }
{}
