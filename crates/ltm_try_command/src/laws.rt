//! What holds of the reports of trials. The law is the contract of a function that does nothing.
ghost use Rattle.ltm_try_command.specs.Laws.{OneTrial};

use ltm_loading::one_loading;
use ltm_setting::scenarios_are_settings;

/// Two numbers have exactly one report: the report of a trial is a function of them.
pub fn one_trial()
    ensures { OneTrial }
{
    scenarios_are_settings();
    one_loading();
}
