//! What an editor does while its seat holds the desk of an office.
ghost use Rattle.std.specs.Prelude.{◌≡◌, IfOk, IfErr, OnErr};
ghost use Rattle.ltm_scenario.specs.Edits.{HaveAmounts};
ghost use Rattle.ltm_editors.specs.Seats.{held_place, held_found, held_value};
ghost use Rattle.ltm_editors.specs.Offices.{AnswersCall, StaysAs};

use crate::call::Verdict;
use crate::desk::Held;
use crate::office::Office;
use crate::recorded::Recorded;
use ltm_core::Core;
use ltm_scenario::Batch;
use ltm_units::NoMemory;

impl<T: Recorded> Held<T> {
    /// The value.
    pub fn get(&self) -> &T
        ensures { result.now ≡ held_value self.now }
    {
        self.value.as_ref()
    }
}

impl Held<Office> {
    /// The core.
    pub fn core(&self) -> &Core
        ensures { result.now ≡ (held_value self.now).core }
    {
        self.value.as_ref().core()
    }

    /// Makes all edits of a batch in order, or changes nothing but room: then the verdict is the first edit that is refused, and
    /// its cause. Either way one call of the seat's number is put last. Where memory is not found no call is made, nothing
    /// changes but room, and the batch comes back.
    ///
    /// Each amount is at most 1,000,000,000 units.
    pub fn accept(&mut self, batch: Batch) -> Result<Verdict, (Batch, NoMemory)>
        requires { HaveAmounts batch }
        ensures ok { IfOk result (λ verdict. AnswersCall (held_value self.old)
            (held_place self.old).number batch verdict (held_value self.new)) }
        ensures back { IfErr result (λ e. e.0 ≡ batch) }
        ensures same { OnErr result (StaysAs (held_value self.old) (held_value self.new)) }
        ensures place { held_place self.new ≡ held_place self.old }
        ensures found { held_found self.new ≡ held_found self.old }
    {
        let number = self.grip.number;
        self.value.as_mut().accept(number, batch)
    }
}
