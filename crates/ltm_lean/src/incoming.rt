//! A link at the node where it ends.
ghost use Rattle.std.specs.Prelude.{◌≡◌, ℕ, ◌+◌, ◌-◌, ◌<◌, ◌≤◌, List, length, slice_index, OnOk};
ghost use Rattle.ltm_curve.specs.Counts.{Counts, total};
ghost use Rattle.ltm_loading.specs.Setting.{Setting};
ghost use Rattle.ltm_loading.specs.Groups.{down_of};
ghost use Rattle.ltm_loading.specs.Loading.{IsLoading};
ghost use Rattle.ltm_setting.specs.Setting.{setting_of};
ghost use Rattle.ltm_setting.specs.Places.{IsLink, IsSlot};
ghost use Rattle.ltm_standing.specs.Standing.{width_of};
ghost use Rattle.ltm_units.specs.Bounds.{most_destinations};

use crate::tables::Tables;
use ltm_lean_link::{leave_listed, send_listed, take_in_last};
use ltm_scenario::Scenario;
use ltm_standing::Standing;
use ltm_units::{LinkId, NoMemory};

/// A link at the node where it ends: what stands on it, the place of each of its destinations in the list of the node, and
/// what left it in the last slot.
#[derive(Drop)]
pub struct Incoming {
    pub link: LinkId,
    pub standing: Standing,
    pub places: Vec<u32>,
    pub room: Vec<u32>,
    pub gone: u32,
    ghost wide: { length places.items ≡ width_of standing },
    ghost roomy: { length room.items ≡ width_of standing },
    ghost few: { length places.items ≤ most_destinations },
}

impl Incoming {
    ghost use Rattle.ltm_standing.specs.Listed.{Ascends, Stands};
    ghost use Rattle.ltm_used.specs.Lists.{list_of};
    ghost use Rattle.ltm_lean_node.specs.Places.{ArePlaces, AreApart};
    ghost use Rattle.ltm_lean_link.specs.Moved.{IsMovedAt, IsSent};
    ghost use Rattle.ltm_lean.specs.Ends.{SameIncoming};
    ghost use Rattle.ltm_lean.specs.Nodes.{AreTables, IsFrozen};

    /// Takes in what entered the link in the slot before, and writes what it sends in the slot, by place in the node's list.
    pub(crate) fn send(
        &mut self,
        scenario: &Scenario,
        tables: &Tables,
        slot: u32,
        into: &mut [u64],
    ) -> Result<(), NoMemory>
        requires link { IsLink scenario.now self.old.link.0 }
        requires slot { IsSlot scenario.now slot }
        requires tables { AreTables (setting_of scenario.now) tables.now }
        requires wide { width_of self.old.standing ≡ length (list_of tables.now.links self.old.link.0) }
        requires apart { AreApart self.old.places.items (length into.old) }
        ensures same { SameIncoming self.old self.new }
        ensures sends { OnOk result ((c : Counts) (us : List ℕ) → IsLoading (setting_of scenario.now) c → IsFrozen (setting_of scenario.now) c slot tables.now
            → Stands c self.old.link.0 (list_of tables.now.links self.old.link.0) (slot - 1) slot self.old.standing
            → Ascends 0 (setting_of scenario.now).destinations us
            → ArePlaces (list_of tables.now.links self.old.link.0) us self.old.places.items → length us ≡ length into.old
            → IsSent (setting_of scenario.now) c self.old.link.0 slot us into.new) }
        ensures stands { OnOk result ((c : Counts) → IsLoading (setting_of scenario.now) c → IsFrozen (setting_of scenario.now) c slot tables.now
            → Stands c self.old.link.0 (list_of tables.now.links self.old.link.0) (slot - 1) slot self.old.standing
            → Stands c self.old.link.0 (list_of tables.now.links self.old.link.0) slot slot self.new.standing) }
    {
        let mail = &tables.mails[self.link.0 as usize];
        take_in_last(&mut self.standing, slot, mail.came, &mail.numbers)?;
        send_listed(
            scenario,
            &tables.entered,
            &tables.left,
            self.link,
            slot,
            &mut self.standing,
            &self.places,
            &mut self.room,
            into,
        );
        Ok(())
    }

    /// Takes away what left the link in the slot, from what left by place in the node's list.
    pub(crate) fn leave(&mut self, moved: &[u64])
        ensures same { SameIncoming self.old self.new }
        ensures gone { (s : Setting) (c : Counts) (l t : ℕ) (ds us : List ℕ) → IsMovedAt s c l (down_of l) t ds us self.old.places.items moved.now
            → total s.destinations (c (down_of l)) (t + 1) ≡ total s.destinations (c (down_of l)) t + self.new.gone }
        ensures stands { (s : Setting) (c : Counts) (l k t : ℕ) (ds us : List ℕ) → IsMovedAt s c l (down_of l) t ds us self.old.places.items moved.now
            → Stands c l ds k t self.old.standing → Stands c l ds k (t + 1) self.new.standing }
    {
        self.gone = leave_listed(&mut self.standing, &self.places, moved, &mut self.room);
    }

    /// Says that nothing left the link in a slot.
    pub(crate) fn rest(&mut self)
        ensures same { SameIncoming self.old self.new }
        ensures gone { self.new.gone ≡ 0 }
        ensures stands { self.new.standing ≡ self.old.standing }
    {
        self.gone = 0;
    }
}
