//! Names that are found fast, numbered in order of adding.
//!
//! The map may hold more than the list: a name that was taken off again keeps its entry. So what the map tells is
//! looked up in the list before it is believed, and nothing is ever taken out of the map.
ghost use Rattle.std.specs.Prelude.{◌≡◌, ℕ, ◌+◌, ◌<◌, ◌≤◌, ◌^◌, ◌-◌, List, [], ◌∷◌, ◌++◌, length, take, OnOk, OnErr, None, slice_get, Some};
ghost use Rattle.ltm_network.specs.Names.{place_of, stands_at};

use ltm_units::{Name, NoMemory};
use std::alloc::{AllocError, Global};
use std::collections::HashMap;
use std::marker::Model;

/// A list of names. Contracts see the list.
#[derive(Drop)]
pub struct Names {
    list: Vec<Name>,
    places: HashMap<Name, u32>,
}

impl Model for Names {
    ghost use Rattle.std.specs.Prelude.{List, ℕ};
    ghost use Rattle.ltm_network.specs.Found.{AreFound};

    ghost Value = { List (List ℕ) };

    ghost view = { λ n. n.list.items };

    ghost invariant = { λ n. AreFound n.list.items n.places };
}

impl Clone for Names {
    ghost use Rattle.std.specs.Prelude.{◌≡◌};

    ghost is_clone = { λ names copy. copy ≡ names };

    fn clone(&self) -> Result<Names, AllocError> {
        Ok(Names {
            list: self.list.clone()?,
            places: self.places.clone()?,
        })
    }
}

impl Names {
    pub fn new(alloc: Global) -> Names
        ensures { result ≡ [] }
    {
        Names {
            list: Vec::new(alloc),
            places: HashMap::new(alloc),
        }
    }

    pub fn len(&self) -> usize
        ensures { result ≡ length self.now }
    {
        self.list.len()
    }

    /// The name at a place.
    pub fn name(&self, place: u32) -> Name
        requires { place < length self.now }
        ensures { slice_get self.now place ≡ Some result }
    {
        self.list[place as usize]
    }

    /// The place of the name.
    pub fn find(&self, name: &Name) -> Option<u32>
        ensures { result ≡ place_of self.now name.now }
    {
        match self.places.get(name) {
            Some(place) => {
                let place = *place;
                if self.stands_at(place, name) {
                    return Some(place);
                }
                None
            }
            None => None,
        }
    }

    fn stands_at(&self, place: u32, name: &Name) -> bool
        ensures { result ≡ stands_at self.now place name.now }
    {
        (place as usize) < self.list.len() && self.list[place as usize] == *name
    }

    /// Puts a name last that is not there.
    pub fn push(&mut self, name: Name) -> Result<(), NoMemory>
        requires new { place_of self.old name ≡ None }
        requires few { length self.old < 2 ^ 32 - 1 }
        ensures ok { OnOk result (self.new ≡ self.old ++ name ∷ []) }
        ensures err { OnErr result (self.new ≡ self.old) }
    {
        let place = self.list.len() as u32;
        self.places.insert(name, place)?;
        self.list.push(name)?;
        Ok(())
    }

    /// Keeps the first names, this many.
    pub fn truncate(&mut self, count: usize)
        ensures { self.new ≡ take count self.old }
    {
        self.list.truncate(count);
    }
}
