//! What is shown, and what a settle counts.
ghost use Rattle.std.specs.Prelude.{◌≡◌};

use super::Core;
use crate::answers::Published;
use crate::history::{Event, add};
use crate::laws::repair_laws;
use crate::producing::renew_since;
use ltm_demand::production_stays;
use ltm_scenario::edits_make;
use ltm_setting::is_setting;

impl Core {
    ghost use Rattle.ltm_core.specs.CoreAnswers.{TellsPublish, TellsSettle};

    /// Shows the totals of the working counts, where no pair is active or claimed, with their horizon. The changed cells
    /// alone are copied. Of what origins have produced that of the origins of edits of demand alone is renewed, each from
    /// the slot on at which its edit begins, and what a longer horizon adds is written. Takes no memory.
    pub fn publish(&mut self) -> Published
        ensures answer { TellsPublish self.old result self.new }
        ensures log { self.new.log ≡ self.old.log }
    {
        repair_laws();
        edits_make();
        production_stays();
        is_setting(&self.scenario);
        if !self.table.is_at_rest(&self.scenario) {
            return Published::NotAtRest;
        }
        let accepted = self.log.version();
        let shown_at = self.shown.version();
        renew_since(
            &self.scenario,
            self.log.batches(),
            shown_at,
            &mut self.shown,
        );
        self.shown.refresh(
            &self.scenario,
            self.table.curves(),
            self.table.cells(),
            accepted,
        );
        let _room = self.shown.room();
        self.table.clear_changed();
        add(&mut self.history, Event::Publish);
        Published::Done(accepted)
    }

    /// The commits since the last count, where no pair is active or claimed and all batches are shown; a mark is then put
    /// after the last batch, and the count begins again. Takes no memory.
    pub fn settle_count(&mut self) -> Option<u128>
        ensures answer { TellsSettle self.old result self.new }
        ensures shown { self.new.shown ≡ self.old.shown }
    {
        repair_laws();
        let accepted = self.log.version();
        if self.shown.version() != accepted {
            return None;
        }
        let commits = self.commits;
        self.log.mark_last();
        self.commits = 0;
        add(&mut self.history, Event::Settle(commits));
        Some(commits)
    }
}
