//! What the arms of a node send into its out-links.
ghost use Rattle.std.specs.Prelude.{◌≡◌, ℕ, ◌+◌, ◌<◌, ◌≤◌, ◌^◌};

/// How many arms a node has at most.
pub const ARMS: usize = 5;

/// How many out-links a node has at most.
pub const OUTS: usize = 4;

/// How many pairs of arm and out-link there are at most.
const TURNS: usize = 20;

/// An amount for each arm and out-link, in thousandths of a vehicle.
#[derive(Drop)]
pub struct Sent {
    /// Out-link by out-link, for each arm.
    amounts: [u64; TURNS],
}

impl Sent {
    ghost use Rattle.ltm_shares.specs.Sent.{sent_at, Adds};

    /// Nothing is sent.
    #[inline]
    pub fn nothing() -> Sent
        ensures { (arm out : ℕ) → sent_at result arm out ≡ 0 }
    {
        Sent {
            amounts: [0; TURNS],
        }
    }

    /// What an arm sends into an out-link.
    #[inline]
    pub fn at(&self, arm: usize, out: usize) -> u64
        requires arm { arm < 5 }
        requires out { out < 4 }
        ensures { result ≡ sent_at self.now arm out }
    {
        self.amounts[arm * OUTS + out]
    }

    /// Adds to what an arm sends into an out-link.
    #[inline]
    pub fn add(&mut self, arm: usize, out: usize, amount: u64)
        requires arm { arm < 5 }
        requires out { out < 4 }
        requires fits { sent_at self.old arm out + amount < 2 ^ 64 }
        ensures { Adds arm out amount self.old self.new }
    {
        self.amounts[arm * OUTS + out] += amount;
    }

    /// Takes from what an arm sends into an out-link: to add it again would give what was.
    #[inline]
    pub fn take(&mut self, arm: usize, out: usize, amount: u64)
        requires arm { arm < 5 }
        requires out { out < 4 }
        requires within { amount ≤ sent_at self.old arm out }
        ensures { Adds arm out amount self.new self.old }
    {
        self.amounts[arm * OUTS + out] -= amount;
    }
}
