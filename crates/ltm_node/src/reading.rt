//! The inputs of a node as the node step reads them: as they are, or where nothing has been counted.
//!
//! What moves does not depend on the counts. So the step is written once, over a reading, and where the counts are not
//! read each count is 0.
ghost use Rattle.std.specs.Prelude.{◌≡◌, ◌<◌, take, drop, length, slice_index};
ghost use Rattle.ltm_node.specs.Shape.{width, counts_width, counts_begin};
ghost use Rattle.ltm_node.specs.Inputs.{sending, supply, capacity};
ghost use Rattle.ltm_node.specs.Uncounted.{uncounted};
ghost use Rattle.ltm_node.specs.Reading.{row_as, count_as};

use crate::inputs::NodeInputs;
use crate::shape::NodeShape;
use std::marker::Model;

/// The inputs of a node as they are read.
#[derive(Drop)]
pub struct Reading<'a> {
    inputs: &'a NodeInputs,
    counted: bool,
}

impl<'a> Model for Reading<'a> {
    ghost use Rattle.std.specs.Prelude.{◌≡◌, length};
    ghost use Rattle.ltm_node.specs.Shape.{width};
    ghost use Rattle.ltm_node.specs.Inputs.{Inputs};
    ghost use Rattle.ltm_node.specs.Reading.{read_as};

    ghost Value = { Inputs };

    ghost view = { λ r. read_as r.counted r.inputs.now };

    ghost invariant = { λ r. length r.inputs.now.row ≡ width r.inputs.now.shape };
}

/// The numbers of a row of inputs, and whether its counts are read.
#[derive(Clone, Copy)]
pub struct Numbers<'a> {
    pub row: &'a [u64],
    pub counted: bool,
}

impl Numbers<'_> {
    /// The count at this place.
    #[inline]
    pub fn count_at(self, place: usize) -> u64
        requires { place < length self.row.now }
        ensures { result ≡ count_as self.entry.counted (slice_index self.entry.row.now place) }
    {
        if self.counted { self.row[place] } else { 0 }
    }
}

impl<'a> Reading<'a> {
    /// The inputs as they are.
    #[inline]
    pub fn counted(inputs: &'a NodeInputs) -> Reading<'a>
        ensures { result ≡ inputs.now }
    {
        let _row = inputs.row();
        Reading {
            inputs,
            counted: true,
        }
    }

    /// The inputs where nothing has been counted.
    #[inline]
    pub fn uncounted(inputs: &'a NodeInputs) -> Reading<'a>
        ensures { result ≡ uncounted inputs.now }
    {
        let _row = inputs.row();
        Reading {
            inputs,
            counted: false,
        }
    }

    /// The shape of the node.
    #[inline]
    pub fn shape(&self) -> NodeShape
        ensures { result ≡ self.now.shape }
    {
        self.inputs.shape()
    }

    /// How many arms the node has.
    #[inline]
    pub fn arms(&self) -> u32
        ensures { result ≡ self.now.shape.arms }
    {
        self.inputs.arms()
    }

    /// How many out-links the node has.
    #[inline]
    pub fn outs(&self) -> u32
        ensures { result ≡ self.now.shape.outs }
    {
        self.inputs.outs()
    }

    /// How many destinations the case has.
    #[inline]
    pub fn destinations(&self) -> u32
        ensures { result ≡ self.now.shape.destinations }
    {
        self.inputs.destinations()
    }

    /// Whether what an arm moves by an out-link is rounded down once for all destinations.
    #[inline]
    pub fn by_turn(&self) -> bool
        ensures { result ≡ self.now.shape.by_turn }
    {
        self.inputs.by_turn()
    }

    /// The numbers of the row.
    #[inline]
    pub fn numbers(&self) -> Numbers<'_>
        ensures row { self.now.row ≡ row_as result.counted self.now.shape result.row.now }
        ensures width { length result.row.now ≡ width self.now.shape }
    {
        Numbers {
            row: self.inputs.row(),
            counted: self.counted,
        }
    }

    /// What an arm sends to a destination.
    #[inline]
    pub fn sending(&self, arm: u32, destination: u32) -> u64
        requires arm { arm < self.now.shape.arms }
        requires destination { destination < self.now.shape.destinations }
        ensures { result ≡ sending self.now arm destination }
    {
        self.inputs.sending(arm, destination)
    }

    /// What an out-link can take in the slot.
    #[inline]
    pub fn supply(&self, out: u32) -> u64
        requires { out < self.now.shape.outs }
        ensures { result ≡ supply self.now out }
    {
        self.inputs.supply(out)
    }

    /// The capacity of an arm in a slot.
    #[inline]
    pub fn capacity(&self, arm: u32) -> u64
        requires { arm < self.now.shape.arms }
        ensures { result ≡ capacity self.now arm }
    {
        self.inputs.capacity(arm)
    }

    /// Writes the counts at the beginning of the slot.
    #[inline]
    pub fn write_counts(&self, into: &mut [u64])
        requires { length into.old ≡ counts_width self.now.shape }
        ensures { into.new ≡ take (counts_width self.now.shape)
            (drop (counts_begin self.now.shape) self.now.row) }
    {
        if self.counted {
            let from = self.inputs.shape().counts_begin();
            into.copy_from_slice(&self.inputs.row()[from..from + into.len()]);
        } else {
            into.fill(0);
        }
    }
}
