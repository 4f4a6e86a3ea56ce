//! Names of links and nodes.
ghost use Rattle.std.specs.Prelude.{◌≡◌, Some, None, true, if◌then◌else◌};
ghost use Rattle.std.specs.Prelude.{[], ◌∷◌, ◌==◌, refl};
ghost use Rattle.std.proofs.Common.{ap, sym};
ghost use Rattle.std.specs.List.{list_all};
ghost use Rattle.std.specs.Ordering.{nat_cmp};
ghost use Rattle.std.specs.Cmp.{partial_equiv_from_equiv};
ghost use Rattle.std.specs.Cmp.Lexicographic.{pointwise, slice_cmp, nat_list_eq_equiv, nat_list_cmp_total, same_text, texts_ties, texts_po};
ghost use Rattle.ltm_units.specs.Words.{is_name, is_name_byte};

use std::cmp::Ordering;
use std::hash::{Hash, Hasher};
use std::marker::Model;

/// The name of a link or a node: 1 to 32 bytes, each an ASCII letter, a digit, `_` or `-`.
///
/// Names are compared byte by byte, as text is.
#[derive(Clone, Copy)]
pub struct Name {
    bytes: [u8; 32],
    len: u8,
}

impl Model for Name {
    ghost use Rattle.std.specs.Prelude.{◌≡◌, ℕ, ◌≤◌, true, List, length, take};
    ghost use Rattle.ltm_units.specs.Words.{is_name};
    ghost use Rattle.ltm_units.specs.Padded.{padded};

    ghost Value = { List ℕ };

    ghost use Rattle.ltm_units.specs.PaddedBack.{gives_back};

    ghost view = { λ n. take n.len n.bytes };

    ghost invariant = { λ n. (is_name (take n.len n.bytes) ≡ true) × (n.len ≤ 32) × (n.bytes ≡ padded (take n.len n.bytes)) };

    ghost inverse = { λ name. record { bytes = padded name; len = length name } };

    ghost inverse_ok = { gives_back };
}

impl Name {
    /// The name, where the text is one.
    pub fn read(text: &[u8]) -> Option<Name>
        ensures { result ≡ (if is_name text.now then Some text.now else None) }
    {
        if !is_valid(text) {
            return None;
        }
        let mut bytes = [0u8; 32];
        bytes[..text.len()].copy_from_slice(text);
        Some(Name {
            bytes,
            len: text.len() as u8,
        })
    }

    /// The bytes of the name.
    pub fn bytes(&self) -> &[u8]
        ensures bytes { result.now ≡ self.now }
        ensures valid { is_name self.now ≡ true }
    {
        &self.bytes[..self.len as usize]
    }
}

fn is_part(b: u8) -> bool
    ensures { result ≡ is_name_byte b }
{
    matches!(b, b'a'..=b'z' | b'A'..=b'Z' | b'0'..=b'9' | b'_' | b'-')
}

fn are_parts(text: &[u8]) -> bool
    ensures { result ≡ list_all is_name_byte text.now }
{
    text.iter().all(|b| is_part(*b))
}

fn is_valid(text: &[u8]) -> bool
    ensures { result ≡ is_name text.now }
{
    !text.is_empty() && text.len() <= 32 && are_parts(text)
}

impl PartialEq for Name {
    ghost eq = { pointwise ◌==◌ };

    ghost laws = { partial_equiv_from_equiv nat_list_eq_equiv };

    fn eq(&self, other: &Name) -> bool {
        self.bytes() == other.bytes()
    }
}

impl Eq for Name {
    ghost laws = { nat_list_eq_equiv };
}

/// A name is hashed as its bytes, in one piece.
impl Hash for Name {
    ghost hash_input = { λ name. name ∷ [] };

    ghost respects_eq = { λ a b equal. ap (λ name. name ∷ []) (same_text a b (sym equal)) };

    fn hash<H: Hasher>(&self, state: &mut H) {
        state.write(self.bytes());
    }
}

impl PartialOrd for Name {
    ghost partial_cmp = { λ x y. Some (slice_cmp nat_cmp x y) };

    ghost laws = { texts_po };

    fn partial_cmp(&self, other: &Name) -> Option<Ordering> {
        Some(self.bytes().cmp(other.bytes()))
    }
}

impl Ord for Name {
    ghost cmp = { slice_cmp nat_cmp };

    ghost total = { nat_list_cmp_total };

    ghost matches_partial_cmp = { λ x y. refl };

    ghost matches_eq = { texts_ties };

    fn cmp(&self, other: &Name) -> Ordering {
        self.bytes().cmp(other.bytes())
    }
}
