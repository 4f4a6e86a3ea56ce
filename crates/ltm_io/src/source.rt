//! Bytes to be read, as the code above sees them.
ghost use Rattle.std.specs.Prelude.{◌≡◌, ℕ, ◌<◌, ◌≤◌, List, [], length, take, Option, IfOk, IfSome, OnErr};
ghost use Rattle.ltm_io.specs.Faults.{Rose};
ghost use Rattle.ltm_io.specs.Source.{prepended};

/// A read failed, and the source's count of faults rose.
#[derive(Clone, Copy, Debug, PartialEq, Eq)]
pub struct ReadFault;

/// The bytes that are left to be read, and a count of faults that never falls.
///
/// `left` is what the source tells of the bytes that are left; a real source tells nothing. A count that stands at the
/// greatest number of 64 bits counts as risen.
pub trait Source {
    ghost left: { Self → Option (List ℕ) };

    ghost faults: { Self → ℕ };

    /// Takes bytes from the front of those that are left, puts them into the first places of `into`, and says how many.
    /// None where there is a place for one means the end.
    ///
    /// A read that fails takes nothing; what then stands in `into` says nothing.
    fn read(&mut self, into: &mut [u8]) -> Result<usize, ReadFault>
        ensures count { IfOk result (λ n. n ≤ length into.new) }
        ensures took { IfOk result (λ n. left self.old
            ≡ prepended (take n into.new) (left self.new)) }
        ensures end { IfOk result
            (λ n. n ≡ 0 → 0 < length into.new → IfSome (left self.old) (λ bytes. bytes ≡ [])) }
        ensures refused { OnErr result (left self.new ≡ left self.old) }
        ensures later { faults self.old ≤ faults self.new }
        ensures cause { OnErr result (Rose (faults self.old) (faults self.new)) };
}
