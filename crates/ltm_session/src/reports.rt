//! What is reported of a travel time.
ghost use Rattle.std.specs.Prelude.{◌≡◌, ◌++◌, ℕ, ◌<◌, OnOk, OnErr};
ghost use Rattle.ltm_flows.specs.Counts.{Counts};
ghost use Rattle.ltm_loading.specs.Setting.{Setting};
ghost use Rattle.ltm_flows.specs.Shown.{ShowsCounts, last_of, links_of};
ghost use Rattle.ltm_session.specs.Reports.{time_report};

use ltm_flows::Loading;
use ltm_report::time_text;
use ltm_times::travel;
use ltm_units::{LinkId, Name, NoMemory};
use std::alloc::Global;

/// Appends how long a vehicle takes to pass a link of a loading that it enters at the beginning of a slot.
pub(crate) fn push_time(
    alloc: Global,
    loading: &Loading,
    name: &Name,
    link: LinkId,
    slot: u32,
    into: &mut Vec<u8>,
) -> Result<(), NoMemory>
    requires link { link.0 < links_of loading.now }
    requires slot { slot < last_of loading.now }
    ensures ok { OnOk result ((s : Setting) (version : ℕ) (c : Counts)
        → ShowsCounts s version c loading.now
        → into.new.items ≡ into.old.items ++ time_report version name.now link.0 slot s c) }
    ensures err { OnErr result (into.new.items ≡ into.old.items) }
{
    let time = travel(loading, link, slot);
    time_text(alloc, loading.version(), name, slot, time, into)
}
