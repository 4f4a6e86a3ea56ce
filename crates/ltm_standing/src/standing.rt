//! What stands on a link.
ghost use Rattle.std.specs.Prelude.{◌≡◌, ℕ, ◌+◌, ◌-◌, ◌*◌, ◌%◌, ◌^◌, ◌<◌, ◌≤◌, List, length, slice_index, false, IsTrue, IfOk, OnOk, OnErr};
ghost use Rattle.ltm_units.specs.Sums.{sum_below};
ghost use Rattle.ltm_units.specs.Nested.{nested_split};
ghost use Rattle.ltm_curve.specs.Counts.{Counts, total};
ghost use Rattle.ltm_loading.specs.Setting.{Setting};
ghost use Rattle.ltm_loading.specs.Flows.{link_sending};
ghost use Rattle.ltm_units.specs.Bounds.{most_in_slot};

use crate::numbers::{add_all, add_split, limit_all, take_all, take_row};
use crate::queue::take_front;
use ltm_units::NoMemory;
use std::alloc::Global;

/// Of each destination of a list, what entered the link by its position less what has left it; and of each slot behind in
/// which something entered a row of what entered of each destination. The position is the last boundary by which no more has
/// entered than may have left.
///
/// What has left may be more than what entered by the position, since a part of the row behind it may have left: such a
/// number is kept in two's complement. Rows stay until they have left whole: where fewer units may leave than a slot before,
/// the position falls.
#[derive(Drop)]
pub struct Standing {
    rest: Vec<u32>,
    base: u64,
    low: u64,
    dead: usize,
    next: usize,
    totals: Vec<u32>,
    entries: Vec<u16>,
    ghost order: { dead ≤ next },
    ghost within: { next ≤ length totals.items },
    ghost whole: { length entries.items ≡ length totals.items * length rest.items },
    ghost sums: { (j : ℕ) → j < length totals.items → slice_index totals.items j ≡ sum_below (length rest.items) (λ i. slice_index entries.items (j * length rest.items + i)) },
    ghost some: { (j : ℕ) → j < length totals.items → 0 < slice_index totals.items j },
}

impl Standing {
    ghost use Rattle.ltm_standing.specs.Standing.{width_of, end_of, row_at, row_of, total_at, StandsAt, CameAt, Keeps, SameRows, Passes, GoesBack, Frees, IsReached, Pushes, IsAsItWas, IsPassed, HasLeft, Loses};
    ghost use Rattle.ltm_standing.specs.Listed.{IsListed, IsAsked, HasEntered, HasGone, Stands};

    /// An empty link, for so many destinations.
    pub fn create(alloc: Global, destinations: usize) -> Result<Standing, NoMemory>
        ensures wide { IfOk result (λ s. width_of s ≡ destinations) }
        ensures stands { IfOk result (λ standing. (s : Setting) (c : Counts) (l : ℕ) (ds : List ℕ) → IsListed s c l ds
            → length ds ≡ destinations → Stands c l ds 0 0 standing) }
    {
        let rest = vec![in alloc; 0u32; destinations].map_err(|_| NoMemory)?;
        Ok(Standing {
            rest,
            base: 0,
            low: 0,
            dead: 0,
            next: 0,
            totals: Vec::new(alloc),
            entries: Vec::new(alloc),
        })
    }

    /// What a row has of all destinations.
    fn total_of(&self, row: usize) -> u64
        requires { row < end_of self.now }
        ensures value { result ≡ total_at self.now row }
        ensures small { result < 2 ^ 32 }
    {
        u64::from(self.totals[row])
    }

    /// Moves the position behind the next row.
    fn pass(&mut self)
        requires next { self.old.next < end_of self.old }
        requires fits { self.old.base + total_at self.old self.old.next < 2 ^ 64 }
        ensures { Passes self.old self.new }
    {
        let width = self.rest.len();
        let start = self.next * width;
        add_all(&mut self.rest, &self.entries[start..start + width]);
        self.base += u64::from(self.totals[self.next]);
        self.next += 1;
    }

    /// Moves the position before the last row before it.
    fn go_back(&mut self)
        requires { self.old.dead < self.old.next }
        ensures { GoesBack self.old self.new }
    {
        let width = self.rest.len();
        self.next -= 1;
        let start = self.next * width;
        take_row(&mut self.rest, &self.entries[start..start + width]);
        self.base = self.base.saturating_sub(u64::from(self.totals[self.next]));
    }

    /// Frees the first row that is kept.
    fn free_first(&mut self)
        requires next { self.old.dead < self.old.next }
        requires fits { self.old.low + total_at self.old self.old.dead < 2 ^ 64 }
        ensures { Frees self.old self.new }
    {
        self.low += u64::from(self.totals[self.dead]);
        self.dead += 1;
    }

    /// Whether there is a row behind the position, and so many units pass it.
    fn is_passed(&self, goal: u64) -> bool
        ensures yes { IsTrue result → IsPassed goal self.now }
        ensures no { result ≡ false → self.now.next < end_of self.now
            → goal < self.now.base + total_at self.now self.now.next }
    {
        if self.next < self.totals.len() {
            let total = u64::from(self.totals[self.next]);
            return self.base <= goal && total <= goal - self.base;
        }
        false
    }

    /// Whether there is a row before the position that is kept, and the first has left whole.
    fn has_left(&self, gone: u64) -> bool
        ensures { IsTrue result → HasLeft gone self.now }
    {
        if self.dead < self.next {
            let total = u64::from(self.totals[self.dead]);
            return self.low <= gone && total <= gone - self.low;
        }
        false
    }

    /// Moves the position before the rows that so many units do not pass.
    fn seek_back(&mut self, goal: u64)
        ensures wide { width_of self.new ≡ width_of self.old }
        ensures keeps { (k t : ℕ) → Keeps k t self.old self.new }
        ensures before { self.new.dead < self.new.next → self.new.base ≤ goal }
    {
        while self.dead < self.next && goal < self.base {
            self.go_back();
        }
    }

    /// Moves the position behind the rows that so many units pass.
    fn seek_on(&mut self, goal: u64)
        requires { self.old.dead < self.old.next → self.old.base ≤ goal }
        ensures wide { width_of self.new ≡ width_of self.old }
        ensures keeps { (k t : ℕ) → Keeps k t self.old self.new }
        ensures reached { IsReached goal self.new }
    {
        while self.is_passed(goal) {
            self.pass();
        }
    }

    /// Frees the rows that have left whole.
    fn free(&mut self, gone: u64)
        ensures wide { width_of self.new ≡ width_of self.old }
        ensures keeps { (width : ℕ) (up down : ℕ → ℕ → ℕ) (k t : ℕ) → gone ≤ total width down t
            → StandsAt width up down k t self.old → StandsAt width up down k t self.new }
    {
        while self.has_left(gone) {
            self.free_first();
        }
    }

    /// Lets the rows that are kept begin at the first place, where at least half of the places are free.
    fn close_up(&mut self)
        ensures wide { width_of self.new ≡ width_of self.old }
        ensures keeps { (k t : ℕ) → Keeps k t self.old self.new }
    {
        let dead = self.dead;
        if dead == 0 || dead < self.totals.len() - dead {
            return;
        }
        let width = self.rest.len();
        take_front(&mut self.entries, dead * width);
        take_front(&mut self.totals, dead);
        self.next -= dead;
        self.dead = 0;
    }

    /// Puts a row behind the others.
    fn push(&mut self, came: u32, mail: &[u16]) -> Result<(), NoMemory>
        requires some { 0 < came }
        requires mail { length mail.now ≡ width_of self.old }
        requires came { came ≡ sum_below (width_of self.old) (slice_index mail.now) }
        ensures wide { width_of self.new ≡ width_of self.old }
        ensures ok { OnOk result (Pushes self.old self.new came mail.now) }
        ensures err { OnErr result (IsAsItWas self.old self.new) }
    {
        let long = self.entries.len();
        self.entries.extend_from_slice(mail)?;
        match self.totals.push(came) {
            Ok(()) => Ok(()),
            Err(_) => {
                self.entries.truncate(long);
                Err(NoMemory)
            }
        }
    }

    /// Takes numbers from the rest.
    fn lose(&mut self, left: &[u32])
        requires { length left.now ≡ width_of self.old }
        ensures { Loses self.old self.new left.now }
    {
        take_all(&mut self.rest, left);
    }

    /// Writes what may leave next of each destination: the rest and the nested split of the units beyond the position over
    /// the row behind it.
    fn write_first(&self, goal: u64, into: &mut [u32])
        requires room { length into.old ≡ width_of self.now }
        requires within { self.now.next < end_of self.now
            → goal - self.now.base ≤ total_at self.now self.now.next }
        ensures { (i : ℕ) → i < width_of self.now → slice_index into.new i
            ≡ (slice_index self.now.rest.items i + slice_index (nested_split (goal - self.now.base) (row_of self.now self.now.next)) i) % 2 ^ 32 }
    {
        into.copy_from_slice(&self.rest);
        if goal <= self.base || self.next == self.totals.len() {
            return;
        }
        let width = self.rest.len();
        let start = self.next * width;
        let total = self.total_of(self.next);
        add_split(
            goal - self.base,
            total,
            &self.entries[start..start + width],
            into,
        );
    }

    /// Writes what a link sends of each destination in a slot: how many units may have left it by the slot's end, how many
    /// have by its beginning, and its exit limit. All that entered before the slot is taken in.
    pub fn send(&mut self, goal: u64, gone: u64, limit: u64, into: &mut [u32])
        requires room { length into.old ≡ width_of self.old }
        requires few { goal ≤ gone + most_in_slot }
        ensures wide { width_of self.new ≡ width_of self.old }
        ensures sends { (s : Setting) (c : Counts) (l t : ℕ) (ds : List ℕ) → IsListed s c l ds → t < s.slots
            → IsAsked s c l t goal gone limit → Stands c l ds t t self.old
            → (i : ℕ) → i < length ds → slice_index into.new i ≡ link_sending s c l t (slice_index ds i) }
        ensures stands { (s : Setting) (c : Counts) (l t : ℕ) (ds : List ℕ) → IsListed s c l ds → t < s.slots
            → IsAsked s c l t goal gone limit → Stands c l ds t t self.old → Stands c l ds t t self.new }
    {
        if goal <= gone {
            into.fill(0);
            return;
        }
        self.free(gone);
        self.seek_back(goal);
        self.seek_on(goal);
        self.write_first(goal, into);
        limit_all(limit, goal - gone, into);
    }

    /// Takes away what left the link in a slot, by place.
    pub fn leave(&mut self, left: &[u32])
        requires { length left.now ≡ width_of self.old }
        ensures wide { width_of self.new ≡ width_of self.old }
        ensures stands { (c : Counts) (l k t : ℕ) (ds : List ℕ) → HasGone c l ds t left.now
            → Stands c l ds k t self.old → Stands c l ds k (t + 1) self.new }
    {
        self.lose(left);
    }

    /// Takes in what entered the link in the slot behind those that are taken in: in all and by place. Where nothing entered
    /// the places are not read.
    pub fn take_in(&mut self, came: u32, mail: &[u16]) -> Result<(), NoMemory>
        requires mail { length mail.now ≡ width_of self.old }
        requires came { 0 < came → came ≡ sum_below (width_of self.old) (slice_index mail.now) }
        ensures wide { width_of self.new ≡ width_of self.old }
        ensures ok { OnOk result ((s : Setting) (c : Counts) (l k t : ℕ) (ds : List ℕ) → IsListed s c l ds → k < s.slots
            → HasEntered s c l ds k came mail.now → Stands c l ds k t self.old → Stands c l ds (k + 1) t self.new) }
        ensures err { OnErr result ((c : Counts) (l k t : ℕ) (ds : List ℕ) → Stands c l ds k t self.old → Stands c l ds k t self.new) }
    {
        if came == 0 {
            return Ok(());
        }
        self.close_up();
        self.push(came, mail)?;
        Ok(())
    }
}
