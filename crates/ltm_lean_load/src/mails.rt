//! What entered each link in a slot, handed over.
ghost use Rattle.std.specs.Prelude.{◌≡◌, ℕ, ◌<◌, length, slice_index, slice_index_or};
ghost use Rattle.ltm_setting.specs.Setting.{setting_of};
ghost use Rattle.ltm_lean.specs.declared.mail.Mail.{Mail};
ghost use Rattle.ltm_lean.specs.Ends.{mail_width};
ghost use Rattle.ltm_lean_load.specs.Adding.{AreDistinct};
ghost use Rattle.ltm_lean_load.specs.Nodes.{links_out, mails_out, mail_at, AreEnds};
ghost use Rattle.ltm_lean_load.specs.Publishing.{TradesTo, TradesAll};

use ltm_lean::{LeanNode, Mail, Outgoing};
use ltm_scenario::Scenario;
use ltm_setting::is_setting;

/// Hands over what entered the links out of a node, for mails as wide.
fn trade_mails(mails: &mut [Mail], outs: &mut [Outgoing])
    requires links { (j : ℕ) → j < length outs.old → slice_index (links_out outs.old) j < length mails.old }
    requires apart { AreDistinct (links_out outs.old) }
    requires wide { (j : ℕ) (d : Mail) → j < length outs.old
        → mail_width (slice_index_or mails.old (slice_index (links_out outs.old) j) d) ≡ mail_width (slice_index_or (mails_out outs.old) j d) }
    ensures { TradesTo (length outs.old) mails.old mails.new outs.old outs.new }
{
    for j in 0..outs.len() {
        let link = outs[j].link.0 as usize;
        outs[j].trade(&mut mails[link]);
    }
}

/// Hands over what entered each link, from the node where it begins.
pub(crate) fn trade_all(scenario: &Scenario, mails: &mut [Mail], nodes: &mut [LeanNode])
    requires mails { length mails.old ≡ (setting_of scenario.now).links }
    requires ends { AreEnds (setting_of scenario.now) nodes.old }
    requires wide { (l : ℕ) (d : Mail) → l < (setting_of scenario.now).links
        → mail_width (slice_index_or mails.old l d) ≡ mail_width (mail_at (setting_of scenario.now) nodes.old l d) }
    ensures { TradesAll (setting_of scenario.now) mails.old mails.new nodes.old nodes.new }
{
    is_setting(scenario);
    for u in 0..nodes.len() {
        trade_mails(mails, &mut nodes[u].outs);
    }
}
