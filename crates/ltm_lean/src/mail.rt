//! What entered a link in a slot.
ghost use Rattle.std.specs.Prelude.{◌≡◌, ℕ, ◌≤◌, List, length, slice_index, IfOk};
ghost use Rattle.ltm_curve.specs.Counts.{Counts};
ghost use Rattle.ltm_loading.specs.Setting.{Setting};
ghost use Rattle.ltm_loading.specs.Groups.{up_of};
ghost use Rattle.ltm_units.specs.Bounds.{most_destinations};
ghost use Rattle.ltm_units.specs.Sums.{sum_below};

use ltm_lean_link::enter_listed;
use ltm_units::NoMemory;
use std::alloc::Global;

/// What entered a link in a slot, in all and by place in its list.
#[derive(Drop)]
pub struct Mail {
    pub came: u32,
    pub numbers: Vec<u16>,
    ghost whole: { came ≡ sum_below (length numbers.items) (slice_index numbers.items) },
}

impl Mail {
    ghost use Rattle.ltm_standing.specs.Listed.{HasEntered};
    ghost use Rattle.ltm_lean_link.specs.Moved.{IsMovedAt};
    ghost use Rattle.ltm_lean.specs.Ends.{mail_width};

    /// Nothing, for so many destinations.
    pub fn none(alloc: Global, destinations: usize) -> Result<Mail, NoMemory>
        ensures wide { IfOk result (λ m. mail_width m ≡ destinations) }
        ensures none { IfOk result (λ m. m.came ≡ 0) }
    {
        let numbers = vec![in alloc; 0u16; destinations].map_err(|_| NoMemory)?;
        Ok(Mail { came: 0, numbers })
    }

    /// Takes what entered in a slot, from what entered by place in the list of the node where the link begins.
    pub(crate) fn write(&mut self, places: &[u32], moved: &[u64])
        requires same { length places.now ≡ mail_width self.old }
        requires few { length places.now ≤ most_destinations }
        ensures wide { mail_width self.new ≡ mail_width self.old }
        ensures entered { (s : Setting) (c : Counts) (l t : ℕ) (ds us : List ℕ) → IsMovedAt s c l (up_of l) t ds us places.now moved.now
            → HasEntered s c l ds t self.new.came self.new.numbers.items }
    {
        self.came = enter_listed(places, moved, &mut self.numbers);
    }

    /// Takes it that nothing entered.
    pub(crate) fn clear(&mut self)
        ensures wide { mail_width self.new ≡ mail_width self.old }
        ensures none { self.new.came ≡ 0 }
    {
        if self.came > 0 {
            self.numbers.fill(0);
            self.came = 0;
        }
    }
}
