//! The bytes of a file of edits.
ghost use Rattle.std.specs.Prelude.{◌≡◌, ◌≤◌, length};
ghost use Rattle.ltm_units.specs.Bounds.{longest_file};

use std::marker::Model;

/// A file of at most 16,777,216 bytes. Contracts see its bytes.
#[derive(Drop)]
pub(crate) struct Text {
    pub(crate) bytes: Vec<u8>,
}

impl Model for Text {
    ghost use Rattle.std.specs.Prelude.{ℕ, ◌≤◌, List, vec_len};
    ghost use Rattle.ltm_units.specs.Bounds.{longest_file};

    ghost Value = { List ℕ };

    ghost view = { λ t. t.bytes.items };

    ghost invariant = { λ t. vec_len t.bytes ≤ longest_file };
}

impl Text {
    pub(crate) fn bytes(&self) -> &[u8]
        ensures bytes { result.now ≡ self.now }
        ensures few { length self.now ≤ longest_file }
    {
        &self.bytes
    }
}
