//! The writers of a pair's inputs: each sets one number of the row.
ghost use Rattle.std.specs.Prelude.{◌≡◌, ◌<◌, ◌+◌, slice_set};
ghost use Rattle.ltm_node.specs.Shape.{
  sending_place,
  left_place,
  entered_place,
  arrived_place,
  supply_place,
  capacity_place,
  weights_place,
};

use super::NodeInputs;

impl NodeInputs {
    /// Sets what an arm sends to a destination.
    #[inline]
    pub fn set_sending(&mut self, arm: u32, destination: u32, value: u64)
        requires arm { arm < self.old.shape.arms }
        requires destination { destination < self.old.shape.destinations }
        ensures { self.new ≡ record self.old {
          row = slice_set self.old.row (sending_place self.old.shape arm destination) value;
        } }
    {
        let place = self.shape.sending_place(arm, destination);
        self.numbers[place] = value;
    }

    /// Sets what has left an arm for a destination.
    #[inline]
    pub fn set_left(&mut self, arm: u32, destination: u32, value: u64)
        requires arm { arm < self.old.shape.arms }
        requires destination { destination < self.old.shape.destinations }
        ensures { self.new ≡ record self.old {
          row = slice_set self.old.row (left_place self.old.shape arm destination) value;
        } }
    {
        let place = self.shape.left_place(arm, destination);
        self.numbers[place] = value;
    }

    /// Sets what has entered an out-link for a destination.
    #[inline]
    pub fn set_entered(&mut self, out: u32, destination: u32, value: u64)
        requires out { out < self.old.shape.outs }
        requires destination { destination < self.old.shape.destinations }
        ensures { self.new ≡ record self.old {
          row = slice_set self.old.row (entered_place self.old.shape out destination) value;
        } }
    {
        let place = self.shape.entered_place(out, destination);
        self.numbers[place] = value;
    }

    /// Sets what has arrived at the node.
    #[inline]
    pub fn set_arrived(&mut self, value: u64)
        ensures { self.new
            ≡ record self.old {
              row = slice_set self.old.row
                  (arrived_place self.old.shape) value;
            } }
    {
        let place = self.shape.arrived_place();
        self.numbers[place] = value;
    }

    /// Sets what an out-link can take.
    #[inline]
    pub fn set_supply(&mut self, out: u32, value: u64)
        requires { out < self.old.shape.outs }
        ensures { self.new ≡ record self.old {
          row = slice_set self.old.row (supply_place self.old.shape out) value;
        } }
    {
        let place = self.shape.supply_place(out);
        self.numbers[place] = value;
    }

    /// Sets the capacity of an arm.
    #[inline]
    pub fn set_capacity(&mut self, arm: u32, value: u64)
        requires { arm < self.old.shape.arms }
        ensures { self.new ≡ record self.old {
          row = slice_set self.old.row (capacity_place self.old.shape arm) value;
        } }
    {
        let place = self.shape.capacity_place(arm);
        self.numbers[place] = value;
    }

    /// Sets the weight of an out-link for a destination.
    #[inline]
    pub fn set_weight(&mut self, destination: u32, out: u32, value: u64)
        requires destination { destination < self.old.shape.destinations }
        requires out { out < self.old.shape.outs }
        ensures { self.new ≡ record self.old {
          row = slice_set self.old.row (weights_place self.old.shape destination + out) value;
        } }
    {
        let place = self.shape.weights_place(destination) + out as usize;
        self.numbers[place] = value;
    }
}
