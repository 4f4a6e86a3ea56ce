//! What there is of a setting, and of a scenario.
ghost use Rattle.ltm_existence.specs.Existence.{
  ThereAreShares,
  ThereIsAStep,
  ThereIsANextFront,
  ThereIsALoading,
};
ghost use Rattle.ltm_existence.specs.Scenarios.{ScenariosHaveLoadings};

use ltm_setting::scenarios_are_settings;

/// The arms of a node have shares, whatever they send and its out-links can take.
pub fn there_are_shares()
    ensures { ThereAreShares }
{}

/// Inputs in the range of a node step have one.
pub fn there_is_a_step()
    ensures { ThereIsAStep }
{}

/// A front that ends before the last slot goes on: there are counts that are the same up to its slot, and a front past it.
pub fn there_is_a_next_front()
    ensures { ThereIsANextFront }
{}

/// Every setting has a loading.
pub fn there_is_a_loading()
    ensures { ThereIsALoading }
{}

/// Every scenario has a loading.
pub fn scenarios_have_loadings()
    ensures { ScenariosHaveLoadings }
{
    scenarios_are_settings();
    there_is_a_loading();
}
