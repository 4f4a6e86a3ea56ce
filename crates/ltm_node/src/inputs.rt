//! The inputs of a pair of node and slot.
ghost use Rattle.std.specs.Prelude.{◌≡◌, ◌<◌, ◌≤◌, ◌*◌, ◌+◌, ◌↔◌, max, length, IsTrue, IfOk, take};
ghost use Rattle.ltm_node.specs.Shape.{width, no_shape, is_own};
ghost use Rattle.ltm_node.specs.Inputs.{
  cleared_inputs,
  sending,
  left,
  entered,
  arrived,
  supply,
  capacity,
  weight,
  weights,
};

mod writers;

use crate::shape::NodeShape;
use ltm_units::NoMemory;
use std::alloc::Global;
use std::marker::Model;

/// The inputs of a node in a slot: one row of numbers.
///
/// With A arms, J out-links and D destinations the row holds what each arm sends to each destination (`A*D`, arm by
/// arm), the counts that had left each arm (`A*D`), that had entered each out-link (`J*D`, out-link by out-link) and
/// that had arrived (1) at the beginning of the slot, the supply of each out-link (J), the capacity of each arm (A),
/// and the weight of each out-link for each destination (`D*J`, destination by destination). Amounts are thousandths of
/// a vehicle.
#[derive(Drop)]
pub struct NodeInputs {
    shape: NodeShape,
    numbers: Vec<u64>,
}

impl Model for NodeInputs {
    ghost use Rattle.std.specs.Prelude.{◌≤◌, length, take};
    ghost use Rattle.ltm_node.specs.Shape.{width};
    ghost use Rattle.ltm_node.specs.Inputs.{Inputs};

    ghost Value = { Inputs };

    ghost view = { λ n. record {
      shape = n.shape;
      row = take (width n.shape) n.numbers.items;
      room = length n.numbers.items;
    } };

    ghost invariant = { λ n. width n.shape ≤ length n.numbers.items };
}

impl NodeInputs {
    ghost use Rattle.std.specs.Borrow.{sem};
    ghost use Rattle.ltm_node.specs.Lending.{LendsNumbers};

    /// Room for rows of this width, and at least for the row of a node without arms and out-links.
    pub fn create(alloc: Global, room: u32) -> Result<NodeInputs, NoMemory>
        ensures { IfOk result (λ n. n ≡ cleared_inputs no_shape (max 1 room)) }
    {
        let numbers = vec![in alloc; 0u64; room.max(1) as usize]?;
        Ok(NodeInputs {
            shape: NodeShape::empty(),
            numbers,
        })
    }

    /// Takes a shape, with all numbers 0.
    pub fn shape_as(&mut self, shape: NodeShape)
        requires { width shape ≤ self.old.room }
        ensures { self.new ≡ cleared_inputs shape self.old.room }
    {
        let _room = self.numbers.len();
        let width = shape.width();
        for place in 0..width {
            self.numbers[place] = 0;
        }
        self.shape = shape;
    }

    /// Takes a shape, for a caller that then writes every number: what numbers the row holds is not told.
    #[inline]
    pub fn reshape(&mut self, shape: NodeShape)
        requires { width shape ≤ self.old.room }
        ensures shape { self.new.shape ≡ shape }
        ensures room { self.new.room ≡ self.old.room }
        ensures width { length self.new.row ≡ width shape }
    {
        self.shape = shape;
    }

    /// The shape of the node.
    #[inline]
    pub fn shape(&self) -> NodeShape
        ensures { result ≡ self.now.shape }
    {
        self.shape
    }

    /// How many arms the node has.
    #[inline]
    pub(crate) fn arms(&self) -> u32
        ensures { result ≡ self.now.shape.arms }
    {
        self.shape.arms
    }

    /// How many out-links the node has.
    #[inline]
    pub(crate) fn outs(&self) -> u32
        ensures { result ≡ self.now.shape.outs }
    {
        self.shape.outs
    }

    /// How many destinations the case has.
    #[inline]
    pub(crate) fn destinations(&self) -> u32
        ensures { result ≡ self.now.shape.destinations }
    {
        self.shape.destinations
    }

    /// Whether what an arm moves by an out-link is rounded down once for all destinations.
    #[inline]
    pub(crate) fn by_turn(&self) -> bool
        ensures { result ≡ self.now.shape.by_turn }
    {
        self.shape.by_turn
    }

    /// Whether a destination is the node itself.
    #[inline]
    pub(crate) fn is_own(&self, destination: u32) -> bool
        ensures { result ≡ is_own self.now.shape destination }
    {
        self.shape.is_own(destination)
    }

    /// The row of all numbers.
    pub fn row(&self) -> &[u64]
        ensures row { result.now ≡ self.now.row }
        ensures width { length result.now ≡ width self.now.shape }
    {
        let width = self.shape.width();
        &self.numbers[..width]
    }

    /// Whether the row is this list of numbers.
    pub fn same(&self, other: &[u64]) -> bool
        ensures { IsTrue result ↔ (self.now.row ≡ other.now) }
    {
        self.row() == other
    }

    /// What an arm sends to a destination.
    #[inline]
    pub fn sending(&self, arm: u32, destination: u32) -> u64
        requires arm { arm < self.now.shape.arms }
        requires destination { destination < self.now.shape.destinations }
        ensures { result ≡ sending self.now arm destination }
    {
        self.numbers[self.shape.sending_place(arm, destination)]
    }

    /// What has left an arm for a destination by the beginning of the slot.
    #[inline]
    pub fn left(&self, arm: u32, destination: u32) -> u64
        requires arm { arm < self.now.shape.arms }
        requires destination { destination < self.now.shape.destinations }
        ensures { result ≡ left self.now arm destination }
    {
        self.numbers[self.shape.left_place(arm, destination)]
    }

    /// What has entered an out-link for a destination by the beginning of the slot.
    #[inline]
    pub fn entered(&self, out: u32, destination: u32) -> u64
        requires out { out < self.now.shape.outs }
        requires destination { destination < self.now.shape.destinations }
        ensures { result ≡ entered self.now out destination }
    {
        self.numbers[self.shape.entered_place(out, destination)]
    }

    /// What has arrived at the node by the beginning of the slot.
    #[inline]
    pub fn arrived(&self) -> u64
        ensures { result ≡ arrived self.now }
    {
        self.numbers[self.shape.arrived_place()]
    }

    /// What an out-link can take in the slot.
    #[inline]
    pub fn supply(&self, out: u32) -> u64
        requires { out < self.now.shape.outs }
        ensures { result ≡ supply self.now out }
    {
        self.numbers[self.shape.supply_place(out)]
    }

    /// The capacity of an arm in a slot.
    #[inline]
    pub fn capacity(&self, arm: u32) -> u64
        requires { arm < self.now.shape.arms }
        ensures { result ≡ capacity self.now arm }
    {
        self.numbers[self.shape.capacity_place(arm)]
    }

    /// The weight of an out-link for a destination.
    #[inline]
    pub fn weight(&self, destination: u32, out: u32) -> u64
        requires destination { destination < self.now.shape.destinations }
        requires out { out < self.now.shape.outs }
        ensures { result ≡ weight self.now destination out }
    {
        self.numbers[self.shape.weights_place(destination) + out as usize]
    }

    /// The weights of all out-links for a destination.
    #[inline]
    pub(crate) fn weights(&self, destination: u32) -> &[u64]
        requires { destination < self.now.shape.destinations }
        ensures weights { result.now ≡ weights self.now destination }
        ensures outs { length result.now ≡ self.now.shape.outs }
    {
        let from = self.shape.weights_place(destination);
        &self.numbers[from..from + self.shape.outs as usize]
    }

    /// The room of the numbers, for a caller that writes them in place: the row is the front of it.
    #[inline]
    pub fn numbers_mut(&mut self) -> &mut [u64]
        ensures* lends { sem 𝓛 (LendsNumbers self.entry result) }
        ensures row { take (width self.old.shape) result.now ≡ self.old.row }
        ensures room { length result.now ≡ self.old.room }
        ensures fits { width self.old.shape ≤ self.old.room }
    {
        &mut self.numbers
    }

    /// Takes a shape and all numbers of its row.
    pub fn copy_row(&mut self, shape: NodeShape, row: &[u64])
        requires room { width shape ≤ self.old.room }
        requires width { length row.now ≡ width shape }
        ensures { self.new ≡ record { shape = shape; row = row.now; room = self.old.room } }
    {
        for (place, number) in row.iter().enumerate() {
            self.numbers[place] = *number;
        }
        self.shape = shape;
    }
}
