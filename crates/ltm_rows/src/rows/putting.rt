//! Rows are put in the places of their pairs.
ghost use Rattle.std.specs.Prelude.{◌≡◌, ℕ, ◌+◌, ◌^◌, ◌<◌, ◌++◌, length, slice_index, replicate, true};

use super::KeptRows;
use crate::comparing::write_row;
use crate::narrow::{write_behind_zeros, write_narrow_parts};
use crate::parts::Parts;

impl KeptRows {
    ghost use Rattle.ltm_rows.specs.Rows.{
      nodes_kept,
      slots_kept,
      amounts_width,
      weights_width,
      amounts_of,
      weights_of,
      is_weighed,
      PutsRow,
      PutsAmounts,
      PutsWeights,
    };
    ghost use Rattle.ltm_rows.specs.Parts.{amounts_in, row_of_parts, AreNarrow};

    /// Writes the amounts of a pair.
    #[inline]
    fn put_amounts(&mut self, node: usize, slot: usize, sends: &[u64], limits: &[u64])
        requires node { node < nodes_kept self.old }
        requires slot { slot < slots_kept self.old }
        requires width { length sends.now + length limits.now ≡ amounts_width self.old node }
        requires sends { (i : ℕ) → i < length sends.now → slice_index sends.now i < 2 ^ 16 }
        requires limits { (i : ℕ) → i < length limits.now → slice_index limits.now i < 2 ^ 16 }
        ensures { PutsAmounts self.old self.new node slot (sends.now ++ limits.now) }
    {
        let (from, to) = self.narrow.bounds(node, slot);
        write_narrow_parts(&mut self.amounts[from..to], sends, limits);
    }

    /// Writes the amounts of a pair whose arms send nothing, where zeros stand: the limits alone.
    #[inline]
    fn put_limits_in(&mut self, node: usize, slot: usize, sends: &[u64], limits: &[u64])
        requires node { node < nodes_kept self.old }
        requires slot { slot < slots_kept self.old }
        requires width { length sends.now + length limits.now ≡ amounts_width self.old node }
        requires limits { (i : ℕ) → i < length limits.now → slice_index limits.now i < 2 ^ 16 }
        requires zeros { amounts_of self.old node slot ≡ replicate (amounts_width self.old node) 0 }
        requires idle { (i : ℕ) → i < length sends.now → slice_index sends.now i ≡ 0 }
        ensures { PutsAmounts self.old self.new node slot (sends.now ++ limits.now) }
    {
        let (from, to) = self.narrow.bounds(node, slot);
        write_behind_zeros(&mut self.amounts[from..to], sends, limits);
    }

    /// Writes the weights of a pair.
    #[inline]
    fn put_weights(&mut self, node: usize, slot: usize, weights: &[u64])
        requires node { node < nodes_kept self.old }
        requires slot { slot < slots_kept self.old }
        requires width { length weights.now ≡ weights_width self.old node }
        requires small { (i : ℕ) → i < length weights.now → slice_index weights.now i < 2 ^ 32 }
        ensures { PutsWeights self.old self.new node slot weights.now }
    {
        let (from, to) = self.wide.bounds(node, slot);
        write_row(&mut self.weights[from..to], weights);
    }

    /// Puts a row with the weights of the setting in the place of a pair's, which is weighed, and changes no other.
    #[inline(always)]
    pub fn put(&mut self, node: usize, slot: usize, parts: Parts<'_>)
        requires node { node < nodes_kept self.old }
        requires slot { slot < slots_kept self.old }
        requires amounts { length parts.sends.now + length parts.limits.now
            ≡ amounts_width self.old node }
        requires weights { length parts.weights.now ≡ weights_width self.old node }
        requires narrow { AreNarrow parts }
        ensures { PutsRow self.old self.new node slot (row_of_parts parts.entry) }
    {
        self.put_amounts(node, slot, parts.sends, parts.limits);
        self.put_weights(node, slot, parts.weights);
        self.there.mark(node, slot);
        self.weighed.mark(node, slot);
    }

    /// Puts amounts in the place of a pair's that is weighed: its weights stand there, and those that are given are not looked at.
    #[inline]
    pub fn put_again(&mut self, node: usize, slot: usize, parts: Parts<'_>)
        requires node { node < nodes_kept self.old }
        requires slot { slot < slots_kept self.old }
        requires weighed { is_weighed self.old node slot ≡ true }
        requires amounts { length parts.sends.now + length parts.limits.now
            ≡ amounts_width self.old node }
        requires sends_small { (i : ℕ) → i < length parts.sends.now
            → slice_index parts.sends.now i < 2 ^ 16 }
        requires limits_small { (i : ℕ) → i < length parts.limits.now
            → slice_index parts.limits.now i < 2 ^ 16 }
        ensures { PutsRow self.old self.new node slot
            (amounts_in parts.entry ++ weights_of self.old node slot) }
    {
        self.put_amounts(node, slot, parts.sends, parts.limits);
        self.there.mark(node, slot);
    }

    /// The same of a pair whose arms send nothing, where no amounts but zeros were ever put: the limits alone are written.
    #[inline]
    pub fn put_limits(&mut self, node: usize, slot: usize, parts: Parts<'_>)
        requires node { node < nodes_kept self.old }
        requires slot { slot < slots_kept self.old }
        requires weighed { is_weighed self.old node slot ≡ true }
        requires amounts { length parts.sends.now + length parts.limits.now
            ≡ amounts_width self.old node }
        requires limits_small { (i : ℕ) → i < length parts.limits.now
            → slice_index parts.limits.now i < 2 ^ 16 }
        requires zeros { amounts_of self.old node slot ≡ replicate (amounts_width self.old node) 0 }
        requires idle { (i : ℕ) → i < length parts.sends.now → slice_index parts.sends.now i ≡ 0 }
        ensures { PutsRow self.old self.new node slot
            (amounts_in parts.entry ++ weights_of self.old node slot) }
    {
        self.put_limits_in(node, slot, parts.sends, parts.limits);
        self.there.mark(node, slot);
    }
}
