//! Texts cut at spaces.
ghost use Rattle.std.specs.Prelude.{◌≡◌, ◌∷◌, option_map, position};
ghost use Rattle.std.specs.List.{slice_split};
ghost use Rattle.ltm_records.specs.Pieces.{is_space, pieces_behind};

fn find_space(text: &[u8]) -> Option<usize>
    ensures { result ≡ position is_space text.now }
{
    text.iter().position(|b| *b == b' ')
}

/// The first piece of a text, and what stands behind the first space, if there is one.
#[tactic(auto, using(crate::proofs::Pieces::cuts))]
pub fn cut(text: &[u8]) -> (&[u8], Option<&[u8]>)
    ensures { slice_split is_space text.now
        ≡ result.0.now ∷ pieces_behind (option_map (λ s. s.now) result.1) }
{
    match find_space(text) {
        Some(place) => (&text[..place], Some(&text[place + 1..])),
        None => (text, None),
    }
}
