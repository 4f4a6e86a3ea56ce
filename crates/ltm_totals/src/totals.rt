//! Totals of links by boundary.
ghost use Rattle.std.specs.Prelude.{◌≡◌, ◌≢◌, ℕ, ◌+◌, ◌-◌, ◌*◌, ◌/◌, ◌^◌, ◌<◌, ◌≤◌, ◌⊎◌, length, IfOk};
ghost use Rattle.ltm_diagram.specs.Delays.{IsDelay};
ghost use Rattle.ltm_loading.specs.Flows.{earlier};

use ltm_diagram::Delay;
use ltm_units::{Millis, NoMemory};
use std::alloc::Global;

/// A number for each link and boundary: what had passed an end of the link by then, of all destinations together.
#[derive(Drop)]
pub struct Totals {
    links: u32,
    slots: u32,
    table: Vec<u32>,
    ghost whole: { length table.items ≡ (slots + 1) * links },
}

/// What of the units of a slot has come in a part of it, rounded down. In most slots there are none, and nothing is divided.
#[inline]
#[tactic(auto, using(ltm_sending::proofs::Past::part_fits))]
fn part_of(units: u64, rest: u32, step: Millis) -> u64
    requires rest { rest < step.0 }
    requires small { units < 2 ^ 32 }
    ensures part { result ≡ units * rest / step.0 }
    ensures within { result ≤ units }
{
    if units == 0 {
        return 0;
    }
    units * u64::from(rest) / u64::from(step.0)
}

impl Totals {
    ghost use Rattle.ltm_totals.specs.Totals.{total_links, total_slots, total_at, SetsTotal};

    /// Nothing has passed any of so many links by any boundary of so many slots.
    pub fn none(alloc: Global, links: u32, slots: u32) -> Result<Totals, NoMemory>
        ensures links { IfOk result (λ t. total_links t ≡ links) }
        ensures slots { IfOk result (λ t. total_slots t ≡ slots) }
        ensures none { IfOk result (λ t. (l k : ℕ) → total_at t l k ≡ 0) }
    {
        let many = (slots as usize + 1) * links as usize;
        let table = vec![in alloc; 0u32; many].map_err(|_| NoMemory)?;
        Ok(Totals {
            links,
            slots,
            table,
        })
    }

    /// For how many links there are totals.
    pub fn links(&self) -> u32
        ensures { result ≡ total_links self.now }
    {
        self.links
    }

    /// For how many slots; there is one boundary more.
    pub fn slots(&self) -> u32
        ensures { result ≡ total_slots self.now }
    {
        self.slots
    }

    /// Where a total stands.
    #[inline]
    fn place(&self, link: u32, boundary: u32) -> usize
        requires link { link < total_links self.now }
        requires boundary { boundary ≤ total_slots self.now }
        ensures place { result ≡ boundary * self.now.links + link }
        ensures within { result < length self.now.table.items }
    {
        let _table = &self.table;
        boundary as usize * self.links as usize + link as usize
    }

    /// What had passed by a boundary.
    #[inline]
    pub fn at(&self, link: u32, boundary: u32) -> u64
        requires link { link < total_links self.now }
        requires boundary { boundary ≤ total_slots self.now }
        ensures total { result ≡ total_at self.now link boundary }
        ensures small { result < 2 ^ 32 }
    {
        let place = self.place(link, boundary);
        u64::from(self.table[place])
    }

    /// Says what had passed a link by a boundary.
    #[inline]
    pub fn set(&mut self, link: u32, boundary: u32, total: u32)
        requires link { link < total_links self.old }
        requires boundary { boundary ≤ total_slots self.old }
        ensures { SetsTotal self.old self.new link boundary total }
    {
        let place = self.place(link, boundary);
        self.table[place] = total;
    }

    /// What had passed so long before the end of a slot; nothing before the start. The time is at least a step, so no boundary
    /// after the slot's start is read.
    #[inline]
    pub(crate) fn ago(&self, link: u32, slot: u32, delay: Delay, step: Millis) -> u64
        requires link { link < total_links self.now }
        requires slot { slot ≤ total_slots self.now }
        requires rest { delay.rest < step.0 }
        requires long { step.0 + delay.rest ≤ delay.slots * step.0 }
        ensures total { (f : ℕ → ℕ) (time : ℕ) → ((k : ℕ) → k ≤ slot → total_at self.now link k ≡ f k)
            → IsDelay step.0 time delay → result ≡ earlier f step.0 slot time }
        ensures small { result < 2 ^ 33 }
    {
        let end = u64::from(slot) + 1;
        let slots = u64::from(delay.slots);
        if end < slots {
            return 0;
        }
        let boundary = (end - slots) as u32;
        let before = self.at(link, boundary);
        if delay.rest == 0 {
            return before;
        }
        let after = self.at(link, boundary + 1);
        before + part_of(after.saturating_sub(before), delay.rest, step)
    }
}
