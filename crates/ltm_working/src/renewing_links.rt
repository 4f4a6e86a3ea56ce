//! The counts of a node's links are set, and the tails and heads that read them become active.
ghost use Rattle.std.specs.Prelude.{◌&&◌, ◌+◌, slice_index};
ghost use Rattle.ltm_units.specs.Sums.{sum_below};
ghost use Rattle.ltm_curve.specs.Table.{counts_of};
ghost use Rattle.ltm_loading.specs.Groups.{up_of, down_of};
ghost use Rattle.ltm_setting.specs.Setting.{setting_of};
ghost use Rattle.ltm_frontier.specs.Frontier.{Activates};
ghost use Rattle.ltm_setting.specs.Places.{IsLink};
ghost use Rattle.ltm_working.specs.Desks.{place_of};
ghost use Rattle.ltm_working.specs.Ready.{FitsTable};
ghost use Rattle.ltm_working.specs.Waking.{wakes_tail, wakes_head};
ghost use Rattle.ltm_working.specs.Rewriting.{row_at_end, FitsRow, RenewsRow};
ghost use Rattle.ltm_working.specs.Renewed.{renewed_counts, FitsRenewal, SameButCounts, RenewsTails, RenewsHeads};

use crate::differing::renew;
use crate::marking::{Entered, mark_head, mark_tail};
use crate::renewal::{LinkRow, Renewal};
use crate::table::Table;
use ltm_loading::{down_of, up_of};
use ltm_scenario::Scenario;
use ltm_setting::{in_links, is_setting, link_count, out_links, slot_count};

impl Table {
    /// Sets what has left an in-link by a slot's end, and wakes its tail if some count was another one.
    fn renew_tail(&mut self, scenario: &Scenario, row: LinkRow) -> bool
        requires fits { FitsTable (setting_of scenario.now) self.old }
        requires link { IsLink scenario.now row.link.0 }
        requires row { FitsRow row.given self.old.curves self.old.changed
            (down_of row.link.0) row.slot row.numbers.now }
        ensures same { SameButCounts self.old self.new }
        ensures row { RenewsRow row.entry.given self.old.curves self.old.changed
            (down_of row.entry.link.0) row.entry.slot row.entry.numbers.now
            result self.new.curves self.new.changed }
        ensures wakes { Activates self.old.frontier self.new.frontier
            (λ w v. result && wakes_tail (setting_of scenario.now) row.entry.link.0
            (row.entry.slot + 1) w v) }
    {
        let LinkRow {
            link,
            slot,
            given,
            numbers,
        } = row;
        let _links = link_count(scenario);
        let _slots = slot_count(scenario);
        if !renew(
            &mut self.curves,
            &mut self.changed,
            down_of(link),
            slot,
            given,
            numbers,
        ) {
            return false;
        }
        mark_tail(scenario, &mut self.frontier, link, slot + 1);
        true
    }

    /// Sets what has entered an out-link by a slot's end, and wakes its head if some count was another one.
    fn renew_head(&mut self, scenario: &Scenario, row: LinkRow) -> bool
        requires fits { FitsTable (setting_of scenario.now) self.old }
        requires link { IsLink scenario.now row.link.0 }
        requires row { FitsRow row.given self.old.curves self.old.changed
            (up_of row.link.0) row.slot row.numbers.now }
        ensures same { SameButCounts self.old self.new }
        ensures row { RenewsRow row.entry.given self.old.curves self.old.changed
            (up_of row.entry.link.0) row.entry.slot row.entry.numbers.now
            result self.new.curves self.new.changed }
        ensures wakes { Activates self.old.frontier self.new.frontier
            (λ w v. result && wakes_head (setting_of scenario.now) (counts_of self.old.curves)
            (place_of self.old.index) row.entry.link.0 (row.entry.slot + 1)
            (sum_below (setting_of scenario.now).destinations (slice_index
            (row_at_end row.entry.given self.old.curves (up_of row.entry.link.0) row.entry.slot
            row.entry.numbers.now))) w v) }
    {
        let LinkRow {
            link,
            slot,
            given,
            numbers,
        } = row;
        let _links = link_count(scenario);
        let _slots = slot_count(scenario);
        if !renew(
            &mut self.curves,
            &mut self.changed,
            up_of(link),
            slot,
            given,
            numbers,
        ) {
            return false;
        }
        let boundary = slot + 1;
        let units = self.curves.total(up_of(link), boundary);
        let entered = Entered {
            link,
            boundary,
            units,
        };
        mark_head(
            scenario,
            &self.curves,
            &self.index,
            &mut self.frontier,
            entered,
        );
        true
    }

    /// Sets what has left the in-links of a node, and wakes the tails of those of which some count was another one; whether
    /// there is one.
    pub(crate) fn renew_tails(&mut self, renewal: Renewal) -> bool
        requires { FitsRenewal renewal self.old }
        ensures { RenewsTails (setting_of renewal.entry.scenario.now) renewal.entry.pair.node.0
            (renewal.entry.pair.slot + 1) (renewed_counts renewal.entry self.old)
            ((setting_of renewal.entry.scenario.now).ins renewal.entry.pair.node.0)
            self.old result self.new }
    {
        let Renewal {
            scenario,
            pair,
            given,
            outputs,
        } = renewal;
        is_setting(scenario);
        let mut any = false;
        for (place, link) in in_links(scenario, pair.node).iter().enumerate() {
            let numbers = outputs.left_row(place as u32);
            let row = LinkRow {
                link: *link,
                slot: pair.slot,
                given,
                numbers,
            };
            let woken = self.renew_tail(scenario, row);
            any |= woken;
        }
        any
    }

    /// Sets what has entered the out-links of a node, and wakes the heads of those of which some count was another one;
    /// whether there is one.
    pub(crate) fn renew_heads(&mut self, renewal: Renewal) -> bool
        requires { FitsRenewal renewal self.old }
        ensures { RenewsHeads (setting_of renewal.entry.scenario.now) renewal.entry.pair.node.0
            (renewal.entry.pair.slot + 1) (renewed_counts renewal.entry self.old)
            ((setting_of renewal.entry.scenario.now).outs renewal.entry.pair.node.0)
            self.old result self.new }
    {
        let Renewal {
            scenario,
            pair,
            given,
            outputs,
        } = renewal;
        is_setting(scenario);
        let mut any = false;
        for (place, link) in out_links(scenario, pair.node).iter().enumerate() {
            let numbers = outputs.entered_row(place as u32);
            let row = LinkRow {
                link: *link,
                slot: pair.slot,
                given,
                numbers,
            };
            let woken = self.renew_head(scenario, row);
            any |= woken;
        }
        any
    }
}
