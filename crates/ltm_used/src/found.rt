//! Numbers that are found one after another, each once.
ghost use Rattle.std.specs.Prelude.{◌≡◌, ℕ, ◌+◌, ◌<◌, ◌≤◌, ◌^◌, length, slice_index, sum, nat_lt, IfOk, OnOk};
ghost use Rattle.ltm_standing.specs.Listed.{NotIn};

use ltm_units::NoMemory;
use std::alloc::Global;

/// Which numbers below a count are found, and in which order they were. Each is looked at once: those that are found and not
/// yet looked at stand behind the others.
#[derive(Drop)]
pub struct Found {
    marks: Vec<u8>,
    order: Vec<u32>,
    ghost bits: { (k : ℕ) → slice_index marks.items k ≤ 1 },
    ghost counted: { sum marks.items ≡ length order.items },
    ghost inside: { (j : ℕ) → j < length order.items → slice_index order.items j < length marks.items },
    ghost listed: { (k : ℕ) → 0 < slice_index marks.items k → NotIn order.items k → ⊥ },
}

impl Found {
    ghost use Rattle.ltm_used.specs.Found.{size_of, count_of, is_found, number_at, Finds};

    /// None of so many numbers is found.
    #[tactic(auto, using(crate::proofs::Counting::none_found))]
    pub fn none(alloc: Global, many: usize) -> Result<Found, NoMemory>
        ensures size { IfOk result (λ f. size_of f ≡ many) }
        ensures none { IfOk result (λ f. count_of f ≡ 0) }
    {
        let marks = vec![in alloc; 0u8; many].map_err(|_| NoMemory)?;
        Ok(Found {
            marks,
            order: Vec::new(alloc),
        })
    }

    /// How many numbers there are.
    pub fn size(&self) -> usize
        ensures { result ≡ size_of self.now }
    {
        self.marks.len()
    }

    /// How many are found.
    pub fn count(&self) -> usize
        ensures count { result ≡ count_of self.now }
        ensures within { result ≤ size_of self.now }
    {
        self.order.len()
    }

    /// Whether a number is found.
    pub fn is_found(&self, number: usize) -> bool
        requires { number < size_of self.now }
        ensures { result ≡ nat_lt 0 (slice_index self.now.marks.items number) }
    {
        self.marks[number] != 0
    }

    /// The number that was found at a place.
    pub fn number(&self, place: usize) -> u32
        requires { place < count_of self.now }
        ensures number { result ≡ number_at self.now place }
        ensures inside { result < size_of self.now }
    {
        self.order[place]
    }

    /// Finds a number.
    pub fn find(&mut self, number: u32) -> Result<(), NoMemory>
        requires { number < size_of self.old }
        ensures { OnOk result (Finds self.old self.new number) }
    {
        if self.marks[number as usize] != 0 {
            return Ok(());
        }
        self.order.push(number)?;
        self.marks[number as usize] = 1;
        Ok(())
    }
}
