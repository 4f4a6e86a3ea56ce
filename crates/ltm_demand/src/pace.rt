//! Units that start evenly over some slots, told slot by slot.
ghost use Rattle.std.specs.Prelude.{◌≡◌, ◌+◌, ◌*◌, ◌/◌, ◌<◌, ◌≤◌, ◌^◌};
ghost use Rattle.ltm_units.specs.Bounds.{most_amount};

/// What an amount has produced after some of its slots, floored: one sum a slot, and no division.
#[derive(Drop)]
pub struct Pace {
    amount: u64,
    slots: u64,
    passed: u64,
    // The amount divided by the slots, and what is over.
    whole: u64,
    over: u64,
    // What is produced so far, and what is left of it until one more unit is.
    done: u64,
    left: u64,
    ghost few: { amount ≤ 1000000000 },
    ghost short: { slots < 2 ^ 32 },
    ghost within: { passed ≤ slots },
    ghost each: { whole * slots + over ≡ amount },
    ghost over_small: { over < slots },
    ghost all: { done * slots + left ≡ amount * passed },
    ghost left_small: { left < slots },
}

impl Pace {
    /// Before the first of the slots.
    #[inline]
    pub fn of(amount: u64, slots: u64) -> Pace
        requires amount { amount ≤ most_amount }
        requires some { 0 < slots }
        requires short { slots < 2 ^ 32 }
        ensures amount { result.amount ≡ amount }
        ensures slots { result.slots ≡ slots }
        ensures passed { result.passed ≡ 0 }
    {
        Pace {
            amount,
            slots,
            passed: 0,
            whole: amount / slots,
            over: amount % slots,
            done: 0,
            left: 0,
        }
    }

    /// What is produced by the end of the next slot.
    #[inline]
    pub fn next(&mut self) -> u64
        requires { self.old.passed < self.old.slots }
        ensures value { result ≡ self.old.amount * (self.old.passed + 1) / self.old.slots }
        ensures amount { self.new.amount ≡ self.old.amount }
        ensures slots { self.new.slots ≡ self.old.slots }
        ensures passed { self.new.passed ≡ self.old.passed + 1 }
    {
        let (done, left) = carried(self.done + self.whole, self.left + self.over, self.slots);
        self.done = done;
        self.left = left;
        self.passed += 1;
        done
    }
}

/// One unit more where what is left makes one.
#[inline]
fn carried(done: u64, left: u64, slots: u64) -> (u64, u64)
    requires done { done < 2 ^ 63 }
    requires left { left < slots + slots }
    ensures same { result.0 * slots + result.1 ≡ done * slots + left }
    ensures left { result.1 < slots }
{
    if left >= slots {
        return (done + 1, left - slots);
    }
    (done, left)
}
