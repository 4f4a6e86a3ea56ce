//! What an accepted batch of edits leaves as it was.
ghost use Rattle.ltm_past.specs.Past.{PastStays, ReportsStay, LongerBeginsAsShorter};

use ltm_loading::one_front;
use ltm_pairs::batch_touches_readers;
use ltm_setting::scenarios_are_settings;

/// An accepted batch of edits leaves every count as it was up to the first slot of its edits.
pub fn past_stays()
    ensures { PastStays }
{
    scenarios_are_settings();
    batch_touches_readers();
    one_front();
}

/// So does what is reported of links, origins and arrivals at each boundary up to there.
pub fn reports_stay()
    ensures { ReportsStay }
{
    batch_touches_readers();
    past_stays();
}

/// The loading of a longer horizon begins with that of the shorter one.
pub fn longer_begins_as_shorter()
    ensures { LongerBeginsAsShorter }
{
    past_stays();
}
