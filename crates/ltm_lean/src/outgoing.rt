//! A link at the node where it begins.
ghost use Rattle.std.specs.Prelude.{◌≡◌, ℕ, ◌≤◌, List, length};
ghost use Rattle.ltm_curve.specs.Counts.{Counts};
ghost use Rattle.ltm_loading.specs.Setting.{Setting};
ghost use Rattle.ltm_loading.specs.Groups.{up_of};
ghost use Rattle.ltm_units.specs.Bounds.{most_destinations};

use crate::mail::Mail;
use ltm_units::LinkId;
use std::mem;

/// A link at the node where it begins: the place of each of its destinations in the list of the node, and what entered it in
/// the last slot.
#[derive(Drop)]
pub struct Outgoing {
    pub link: LinkId,
    pub places: Vec<u32>,
    pub mail: Mail,
    ghost few: { length places.items ≤ most_destinations },
    ghost wide: { length places.items ≡ length mail.numbers.items },
}

impl Outgoing {
    ghost use Rattle.ltm_standing.specs.Listed.{HasEntered};
    ghost use Rattle.ltm_lean_link.specs.Moved.{IsMovedAt};
    ghost use Rattle.ltm_lean.specs.Ends.{mail_width, SameOutgoing};

    /// Writes what entered the link in a slot, from what entered by place in the node's list.
    pub(crate) fn enter(&mut self, moved: &[u64])
        ensures same { SameOutgoing self.old self.new }
        ensures entered { (s : Setting) (c : Counts) (l t : ℕ) (ds us : List ℕ) → IsMovedAt s c l (up_of l) t ds us self.old.places.items moved.now
            → HasEntered s c l ds t self.new.mail.came self.new.mail.numbers.items }
    {
        self.mail.write(&self.places, moved);
    }

    /// Says that nothing entered the link in a slot.
    pub(crate) fn rest(&mut self)
        ensures same { SameOutgoing self.old self.new }
        ensures came { self.new.mail.came ≡ 0 }
    {
        self.mail.clear();
    }

    /// Hands over what entered the link, for another mail as wide.
    pub fn trade(&mut self, mail: &mut Mail)
        requires { mail_width mail.old ≡ mail_width self.old.mail }
        ensures given { mail.new ≡ self.old.mail }
        ensures same { SameOutgoing self.old self.new }
    {
        mem::swap(&mut self.mail, mail);
    }
}
