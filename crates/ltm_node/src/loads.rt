//! What an arm of a node sends to a destination.
ghost use Rattle.std.specs.Prelude.{◌≡◌};

/// What an arm sends to a destination.
#[derive(Clone, Copy)]
pub struct Load {
    pub arm: u32,
    pub destination: u32,
    pub amount: u64,
}

/// What an arm sends to a destination by an out-link.
#[derive(Clone, Copy)]
pub struct Part {
    pub arm: u32,
    pub destination: u32,
    pub out: u32,
    pub amount: u64,
}

impl Load {
    /// The part of it that goes by an out-link.
    #[inline]
    pub fn by(self, out: u32, amount: u64) -> Part
        ensures { result ≡ record { arm = self.arm; destination = self.destination; out = out; amount = amount } }
    {
        Part {
            arm: self.arm,
            destination: self.destination,
            out,
            amount,
        }
    }
}
