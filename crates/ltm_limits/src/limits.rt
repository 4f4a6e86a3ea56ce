//! The table of limits.
ghost use Rattle.std.specs.Prelude.{◌≡◌, ℕ, ◌+◌, ◌-◌, ◌*◌, ◌/◌, ◌%◌, ◌<◌, ◌≤◌, ◌==◌, List, [], length, vec_len, slice_index, slice_index_or, replicate, IfOk, OnOk, OnErr, if◌then◌else◌};
ghost use Rattle.ltm_limits.specs.Limits.{never_set};
ghost use Rattle.ltm_limits.specs.Tables.{said, wide_at, AreExchanged};
ghost use Rattle.ltm_units.specs.Bounds.{most_links, most_slots};

use ltm_units::NoMemory;
use std::alloc::Global;
use std::marker::Model;

/// A limit that was never set, in thousandths of a vehicle: no link passes more in a slot.
const NEVER_SET: u16 = 32_000;

/// For each link its limit at each slot, in thousandths of a vehicle.
///
/// The table reaches as far as limits were set; past its end, and past the horizon, each limit is the one that was never
/// set. So a longer horizon changes no table.
#[derive(Drop)]
pub struct SlotLimits {
    links: u32,
    slots: u32,
    table: Vec<u16>,
}

impl Model for SlotLimits {
    ghost use Rattle.std.specs.Prelude.{◌≤◌, vec_len};
    ghost use Rattle.ltm_limits.specs.Limits.{LimitsState};
    ghost use Rattle.ltm_limits.specs.Tables.{limits_in, IsQuiet};
    ghost use Rattle.ltm_units.specs.Bounds.{most_links, most_slots};

    ghost Value = { LimitsState };

    ghost view = { λ t. record { limits = limits_in t.table.items t.links t.slots; slots = t.slots; places = vec_len t.table } };

    ghost invariant = { λ t. (t.links ≤ most_links) × (t.slots ≤ most_slots) × IsQuiet t.table.items t.links t.slots };
}

impl SlotLimits {
    ghost use Rattle.ltm_limits.specs.Limits.{limit_at, with_values, with_limit, values_of, with_limits_of_link, limits_over, limits_within};

    /// No link, and that many slots.
    #[tactic(auto, using(crate::proofs::Rows::limits_none, crate::proofs::Horizons::quiet_without_links))]
    pub fn new(alloc: Global, slots: u32) -> SlotLimits
        requires { slots ≤ most_slots }
        ensures limits { result.limits ≡ [] }
        ensures slots { result.slots ≡ slots }
    {
        SlotLimits {
            links: 0,
            slots,
            table: Vec::new(alloc),
        }
    }

    /// How many links there are.
    #[tactic(auto, using(crate::proofs::Rows::limits_long))]
    pub fn links(&self) -> u32
        ensures { result ≡ length self.now.limits }
    {
        self.links
    }

    /// How many slots there are.
    pub fn slots(&self) -> u32
        ensures { result ≡ self.now.slots }
    {
        self.slots
    }

    /// The limit of a link at a slot.
    #[tactic(auto, using(crate::proofs::Rows::limit_at_place, crate::proofs::Rows::limits_long))]
    pub fn limit(&self, link: u32, slot: u32) -> u16
        requires link { link < length self.now.limits }
        requires slot { slot < self.now.slots }
        ensures { result ≡ limit_at self.now.limits link slot }
    {
        let place = slot as usize * self.links as usize + link as usize;
        read(&self.table, place)
    }

    /// Sees to it that the limits of the slots below `to` can be exchanged. No limit changes.
    #[tactic(auto, using(crate::proofs::Rows::limits_reach, crate::proofs::Rows::limits_long, crate::proofs::Horizons::quiet_reach))]
    pub fn reach(&mut self, to: u32) -> Result<(), NoMemory>
        requires { to ≤ self.old.slots }
        ensures limits { self.new.limits ≡ self.old.limits }
        ensures slots { self.new.slots ≡ self.old.slots }
        ensures ok { OnOk result (to * length self.old.limits ≤ self.new.places) }
        ensures more { self.old.places ≤ self.new.places }
    {
        let count = to as usize * self.links as usize;
        if self.table.len() < count {
            self.table.resize(count, NEVER_SET)?;
        }
        Ok(())
    }

    /// Exchanges the limits of a link from a slot on with these. No memory is taken.
    #[tactic(auto, using(crate::proofs::Rows::limits_exchanged, crate::proofs::Rows::values_were, crate::proofs::Rows::exchange_undone, crate::proofs::Rows::limits_long, crate::proofs::Horizons::quiet_exchanged))]
    pub fn exchange(&mut self, link: u32, from: u32, values: &mut [u16])
        requires link { link < length self.old.limits }
        requires within { from + length values.old ≤ self.old.slots }
        requires places { (from + length values.old) * length self.old.limits ≤ self.old.places }
        ensures limits { self.new.limits ≡ with_values self.old.limits link from values.old }
        ensures values { values.new ≡ values_of self.old.limits link from (length values.old) }
        ensures back { with_values self.new.limits link from values.new ≡ self.old.limits }
        ensures slots { self.new.slots ≡ self.old.slots }
        ensures places { self.new.places ≡ self.old.places }
    {
        exchange(
            &mut self.table,
            self.links as usize,
            link as usize,
            from as usize,
            values,
        );
    }

    /// Sets the limit of a link for the slots `from` to `to - 1`, and gives those that stood there.
    pub fn set(&mut self, link: u32, from: u32, to: u32, limit: u16) -> Result<Vec<u16>, NoMemory>
        requires link { link < length self.old.limits }
        requires order { from ≤ to }
        requires within { to ≤ self.old.slots }
        ensures ok { OnOk result (self.new.limits ≡ with_limit self.old.limits link from to limit) }
        ensures back { IfOk result (λ was. with_values self.new.limits link from was.items
            ≡ self.old.limits) }
        ensures count { IfOk result (λ was. vec_len was ≡ to - from) }
        ensures can { OnOk result (to * length self.old.limits ≤ self.new.places) }
        ensures err { OnErr result (self.new.limits ≡ self.old.limits) }
        ensures slots { self.new.slots ≡ self.old.slots }
        ensures more { self.old.places ≤ self.new.places }
    {
        self.reach(to)?;
        let alloc = *self.table.allocator();
        let mut values = vec![in alloc; limit; (to - from) as usize]?;
        self.exchange(link, from, &mut values);
        Ok(values)
    }

    /// The limits with one link more, whose limits were never set.
    #[tactic(auto, using(crate::proofs::Rows::limits_widened, crate::proofs::Rows::limits_more_of_none, crate::proofs::Rows::limits_long, crate::proofs::Horizons::quiet_past, crate::proofs::Horizons::quiet_empty))]
    pub fn with_link(&self) -> Result<SlotLimits, NoMemory>
        requires { length self.now.limits < most_links }
        ensures limits { IfOk result (λ t. t.limits ≡ with_limits_of_link self.now.limits self.now.slots) }
        ensures slots { IfOk result (λ t. t.slots ≡ self.now.slots) }
    {
        let alloc = *self.table.allocator();
        let links = self.links + 1;
        if self.table.is_empty() {
            return Ok(SlotLimits {
                links,
                slots: self.slots,
                table: Vec::new(alloc),
            });
        }
        let table = widened(alloc, &self.table, self.links as usize, self.slots as usize)?;
        Ok(SlotLimits {
            links,
            slots: self.slots,
            table,
        })
    }

    /// Raises the horizon, at most to 10,000 slots. The limits of the new slots were never set. No memory is taken.
    #[tactic(auto, using(crate::proofs::Horizons::limits_lengthened, crate::proofs::Horizons::quiet_later, crate::proofs::Horizons::shortened_back))]
    pub fn lengthen(&mut self, slots: u32)
        requires longer { self.old.slots ≤ slots }
        requires most { slots ≤ most_slots }
        ensures limits { self.new.limits ≡ limits_over self.old.limits slots }
        ensures back { limits_within self.new.limits self.old.slots ≡ self.old.limits }
        ensures slots { self.new.slots ≡ slots }
        ensures places { self.new.places ≡ self.old.places }
    {
        self.slots = slots;
    }

    /// Lowers the horizon, as to undo a `lengthen`. What was set in the slots past it is gone. No memory is taken.
    #[tactic(auto, using(crate::proofs::Horizons::limits_shortened, crate::proofs::Horizons::quiet_shorter))]
    pub fn shorten(&mut self, slots: u32)
        requires { slots ≤ self.old.slots }
        ensures limits { self.new.limits ≡ limits_within self.old.limits slots }
        ensures slots { self.new.slots ≡ slots }
        ensures places { self.new.places ≡ self.old.places }
    {
        forget(&mut self.table, slots as usize * self.links as usize);
        self.slots = slots;
    }

    /// An equal table, on the same allocator.
    pub fn try_copy(&self) -> Result<SlotLimits, NoMemory>
        ensures { IfOk result (λ copy. copy ≡ self.now) }
    {
        let alloc = *self.table.allocator();
        Ok(SlotLimits {
            links: self.links,
            slots: self.slots,
            table: Vec::from_slice(alloc, self.table.as_slice())?,
        })
    }
}

/// What a table says at a place.
fn read(table: &[u16], place: usize) -> u16
    ensures { result ≡ slice_index_or table.now place never_set }
{
    if place < table.len() {
        table[place]
    } else {
        NEVER_SET
    }
}

/// Unsets all limits from a place on.
fn forget(table: &mut Vec<u16>, from: usize)
    ensures before { (k : ℕ) → k < from
        → slice_index_or table.new.items k never_set ≡ slice_index_or table.old.items k never_set }
    ensures behind { (k : ℕ) → from ≤ k → slice_index_or table.new.items k never_set ≡ never_set }
    ensures len { vec_len table.new ≡ vec_len table.old }
{
    for place in from..table.len() {
        table[place] = NEVER_SET;
    }
}

/// The whole table with one link more, whose limits were never set.
fn widened(alloc: Global, table: &[u16], links: usize, slots: usize) -> Result<Vec<u16>, NoMemory>
    requires links { links < most_links }
    requires slots { slots ≤ most_slots }
    ensures len { IfOk result (λ wide. vec_len wide ≡ slots * (links + 1)) }
    ensures limits { IfOk result (λ wide. (k : ℕ) → k < slots * (links + 1)
        → slice_index wide.items k ≡ wide_at table.now links (k / (links + 1)) (k % (links + 1))) }
{
    let wide_links = links + 1;
    let mut wide = Vec::with_capacity(alloc, slots * wide_links)?;
    for place in 0..slots * wide_links {
        let link = place % wide_links;
        let limit = if link < links {
            read(table, place / wide_links * links + link)
        } else {
            NEVER_SET
        };
        wide.push(limit)?;
    }
    Ok(wide)
}

/// Exchanges the limits of a link from a slot on with these.
fn exchange(table: &mut Vec<u16>, links: usize, link: usize, from: usize, values: &mut [u16])
    requires link { link < links }
    requires links { links ≤ most_links }
    requires slots { from + length values.old ≤ most_slots }
    requires places { (from + length values.old) * links ≤ vec_len table.old }
    ensures exchanged { AreExchanged table.old.items table.new.items links link from values.old }
    ensures were { (k : ℕ) → k < length values.old
        → slice_index values.new k ≡ said table.old.items links link (from + k) }
    ensures len { vec_len table.new ≡ vec_len table.old }
{
    for k in 0..values.len() {
        let place = (from + k) * links + link;
        let was = table[place];
        table[place] = values[k];
        values[k] = was;
    }
}
