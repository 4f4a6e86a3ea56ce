//! Weights by the names of out-links.
ghost use Rattle.std.specs.Prelude.{◌≡◌, true};
ghost use Rattle.ltm_scenario.specs.Weights.{are_weights, as_weights, are_apart, is_named};

use ltm_units::{Four, Name};
use std::marker::Model;

/// One to four weights, each with the name of an out-link, no name twice. Contracts see the list of the pairs.
#[derive(Clone, Copy)]
pub struct Weights {
    pairs: Four<(Name, u32)>,
}

impl Model for Weights {
    ghost use Rattle.std.specs.Prelude.{◌≡◌, true, List};
    ghost use Rattle.ltm_scenario.specs.Weights.{NamedWeight, are_weights};

    ghost Value = { List NamedWeight };

    ghost view = { λ w. w.pairs };

    ghost invariant = { λ w. are_weights w.pairs ≡ true };

    ghost inverse = { λ weights. record { pairs = weights } };
}

impl Weights {
    /// The weights, where no name stands twice.
    pub fn of(pairs: Four<(Name, u32)>) -> Option<Weights>
        ensures { result ≡ as_weights pairs }
    {
        if !are_apart(pairs.as_slice()) {
            return None;
        }
        Some(Weights { pairs })
    }

    /// The names with their weights.
    pub fn pairs(&self) -> &[(Name, u32)]
        ensures pairs { result.now ≡ self.now }
        ensures valid { are_weights self.now ≡ true }
    {
        self.pairs.as_slice()
    }
}

/// Whether no name stands twice.
fn are_apart(pairs: &[(Name, u32)]) -> bool
    ensures { result ≡ are_apart pairs.now }
{
    let Some((pair, others)) = pairs.split_first() else {
        return true;
    };
    !is_named(&pair.0, others) && are_apart(others)
}

fn is_named(name: &Name, pairs: &[(Name, u32)]) -> bool
    ensures { result ≡ is_named name.now pairs.now }
{
    pairs.iter().any(|pair| pair.0 == *name)
}
