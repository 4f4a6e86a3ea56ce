//! The destinations of a case, in order, and which of them a node is.
ghost use Rattle.std.specs.Prelude.{◌≡◌, ◌≢◌, ℕ, ◌<◌, ◌≤◌, List, [], ◌∷◌, ◌++◌, length, map, Some, None, IfOk, IfErr, OnOk, OnErr, Ok, Err, IfSome, slice_index, slice_index_or, vec_len};
ghost use Rattle.ltm_scenario.specs.Reads.{destination_of};
ghost use Rattle.ltm_scenario.specs.Build.{with_destination_at};
ghost use Rattle.ltm_units.specs.Bounds.{most_destinations};

use crate::faults::DestinationFault;
use ltm_units::{NoMemory, NodeId};
use std::alloc::Global;
use std::marker::Model;

/// The list of destinations, and by node number the place of the node in it, as far as the last node that is one.
pub struct Destinations {
    list: Vec<NodeId>,
    places: Vec<Option<u32>>,
}

// By hand, so that letting go of destinations is one call, and not their parts one by one wherever that may happen.
impl Drop for Destinations {
    fn drop(self) {
        let Destinations {
            list: _list,
            places: _places,
        } = self;
    }
}

impl Model for Destinations {
    ghost use Rattle.std.specs.Prelude.{◌≡◌, ◌≤◌, ℕ, List, None, map, vec_len, slice_index_or};
    ghost use Rattle.ltm_scenario.specs.Reads.{destination_of};
    ghost use Rattle.ltm_units.specs.Bounds.{most_destinations};

    ghost Value = { List ℕ };

    ghost view = { λ d. map (λ node. node.0) d.list.items };

    ghost invariant = { λ d. (vec_len d.list ≤ most_destinations)
        × ((node : ℕ) → slice_index_or d.places.items node None ≡ destination_of (map (λ n. n.0) d.list.items) node) };
}

impl Destinations {
    pub fn new(alloc: Global) -> Destinations
        ensures { result ≡ [] }
    {
        Destinations {
            list: Vec::new(alloc),
            places: Vec::new(alloc),
        }
    }

    pub fn list(&self) -> &[NodeId]
        ensures nodes { map (λ node. node.0) result.now ≡ self.now }
        ensures count { length result.now ≡ length self.now }
        ensures few { length result.now ≤ most_destinations }
    {
        &self.list
    }

    pub fn len(&self) -> u32
        ensures count { result ≡ length self.now }
        ensures few { result ≤ most_destinations }
    {
        self.list.len() as u32
    }

    /// The node of a destination.
    pub fn node(&self, destination: u32) -> NodeId
        requires { destination < length self.now }
        ensures { result.0 ≡ slice_index self.now destination }
    {
        self.list[destination as usize]
    }

    /// Which destination the node is.
    #[tactic(auto, using(crate::proofs::Added::place_there))]
    pub fn place(&self, node: NodeId) -> Option<u32>
        ensures place { result ≡ destination_of self.now node.0 }
        ensures there { IfSome result (λ place. (place < length self.now)
            × (slice_index self.now place ≡ node.0)) }
    {
        if (node.0 as usize) < self.places.len() {
            return self.places[node.0 as usize];
        }
        None
    }

    /// The place of the node, which becomes the last of at most so many destinations where it was none.
    pub fn add(&mut self, most: u32, node: NodeId) -> Result<u32, DestinationFault>
        requires { most ≤ most_destinations }
        ensures ok { OnOk result
            (with_destination_at most self.old node.0 (destination_of self.old node.0) ≡ Ok self.new) }
        ensures place { IfOk result (λ place. destination_of self.new node.0 ≡ Some place) }
        ensures err { OnErr result (self.new ≡ self.old) }
        ensures cause { IfErr result (λ e. e ≢ DestinationFault.NoMemory
            → with_destination_at most self.old node.0 (destination_of self.old node.0) ≡ Err e) }
    {
        match self.place(node) {
            Some(place) => return Ok(place),
            None => {}
        }
        if self.list.len() >= most as usize {
            return Err(DestinationFault::TooMany);
        }
        let place = self.len();
        self.put(node)?;
        Ok(place)
    }

    /// Puts a node last that is no destination yet.
    fn put(&mut self, node: NodeId) -> Result<(), NoMemory>
        requires new { destination_of self.old node.0 ≡ None }
        requires few { length self.old < most_destinations }
        ensures ok { OnOk result (self.new ≡ self.old ++ node.0 ∷ []) }
        ensures err { OnErr result (self.new ≡ self.old) }
    {
        let place = self.list.len() as u32;
        reach(&mut self.places, node)?;
        self.list.push(node)?;
        self.places[node.0 as usize] = Some(place);
        Ok(())
    }

    /// An equal one, on the same allocator.
    pub fn try_copy(&self) -> Result<Destinations, NoMemory>
        ensures { IfOk result (λ copy. copy ≡ self.now) }
    {
        let alloc = *self.list.allocator();
        Ok(Destinations {
            list: Vec::from_slice(alloc, self.list.as_slice())?,
            places: Vec::from_slice(alloc, self.places.as_slice())?,
        })
    }
}

/// Sees to it that the places reach as far as the node. No place changes.
#[tactic(auto, using(crate::proofs::Places::none_padded))]
fn reach(places: &mut Vec<Option<u32>>, node: NodeId) -> Result<(), NoMemory>
    ensures same { (n : ℕ)
        → slice_index_or places.new.items n None ≡ slice_index_or places.old.items n None }
    ensures ok { OnOk result (node.0 < vec_len places.new) }
{
    let count = node.0 as usize + 1;
    if places.len() < count {
        places.resize(count, None)?;
    }
    Ok(())
}
