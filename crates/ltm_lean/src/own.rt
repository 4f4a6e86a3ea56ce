//! Which place of its list a node is.
ghost use Rattle.std.specs.Prelude.{◌≡◌, ℕ, ◌^◌, ◌<◌, length, slice_index};
ghost use Rattle.ltm_node.specs.Shape.{is_this};
ghost use Rattle.ltm_lean_node.specs.Places.{Rises};

/// The place of a destination in a list that rises, if it is there.
pub fn own_place(list: &[u32], own: Option<u32>) -> Option<u32>
    requires rise { Rises list.now }
    requires fits { length list.now < 2 ^ 32 }
    ensures { (k : ℕ) → k < length list.now → is_this result k ≡ is_this own (slice_index list.now k) }
{
    let own = own?;
    for k in 0..list.len() {
        if list[k] == own {
            return Some(k as u32);
        }
    }
    None
}
