//! What holds of every table.
ghost use Rattle.ltm_working.specs.Batches.{TablesFit};

/// A table of a scenario has the sizes of what a batch makes of the scenario, but for a longer horizon.
pub fn tables_fit()
    ensures { TablesFit }
{}
