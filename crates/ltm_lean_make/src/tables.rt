//! The lists, totals and mails of a scenario before its first slot.
ghost use Rattle.std.specs.Prelude.{◌≡◌, ℕ, ◌<◌, length, slice_index_or, IfOk};
ghost use Rattle.ltm_curve.specs.Counts.{Counts};
ghost use Rattle.ltm_loading.specs.Loading.{IsLoading};
ghost use Rattle.ltm_setting.specs.Setting.{setting_of};
ghost use Rattle.ltm_setting.specs.Places.{IsLink};
ghost use Rattle.ltm_used.specs.Lists.{links_of, list_of};
ghost use Rattle.ltm_lean.specs.declared.mail.Mail.{Mail};
ghost use Rattle.ltm_lean.specs.Ends.{mail_width};
ghost use Rattle.ltm_lean.specs.Nodes.{AreTables, IsFrozen};

use ltm_lean::{Mail, Tables};
use ltm_scenario::Scenario;
use ltm_setting::{link_count, slot_count};
use ltm_totals::Totals;
use ltm_units::NoMemory;
use ltm_used::{Used, node_destinations, used_destinations};
use std::alloc::Global;

/// A mail of nothing for each link, for the destinations of its list.
fn mails_of(alloc: Global, lists: &Used) -> Result<Vec<Mail>, NoMemory>
    ensures count { IfOk result (λ mails. length mails.items ≡ links_of lists.now) }
    ensures wide { IfOk result (λ mails. (l : ℕ) (d : Mail) → l < links_of lists.now
        → mail_width (slice_index_or mails.items l d) ≡ length (list_of lists.now l)) }
    ensures none { IfOk result (λ mails. (l : ℕ) (d : Mail) → l < links_of lists.now → (slice_index_or mails.items l d).came ≡ 0) }
{
    let mut mails = Vec::new(alloc);
    for link in 0..lists.links() {
        let mail = Mail::none(alloc, lists.on(link).len())?;
        mails.push(mail)?;
    }
    Ok(mails)
}

/// The lists, totals and mails of a scenario before its first slot: nothing has entered or left any link.
pub fn tables_of(alloc: Global, scenario: &Scenario) -> Result<Tables, NoMemory>
    ensures tables { IfOk result (AreTables (setting_of scenario.now)) }
    ensures frozen { IfOk result (λ x. (c : Counts) → IsLoading (setting_of scenario.now) c → IsFrozen (setting_of scenario.now) c 0 x) }
    ensures none { IfOk result (λ x. (l : ℕ) (d : Mail) → IsLink scenario.now l → (slice_index_or x.mails.items l d).came ≡ 0) }
{
    let count = link_count(scenario);
    let slots = slot_count(scenario);
    let links = used_destinations(alloc, scenario)?;
    let nodes = node_destinations(alloc, scenario, &links)?;
    let entered = Totals::none(alloc, count, slots)?;
    let left = Totals::none(alloc, count, slots)?;
    let mails = mails_of(alloc, &links)?;
    Ok(Tables {
        links,
        nodes,
        entered,
        left,
        mails,
    })
}
