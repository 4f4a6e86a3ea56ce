//! One to four values in order, in a place that needs no memory.
ghost use Rattle.std.specs.Prelude.{◌≡◌, ◌<◌, ◌≤◌, ◌++◌, ◌∷◌, [], nat_lt, length, Some, None, ⊤, if◌then◌else◌};
ghost use Rattle.ltm_units.specs.Places.{is_few};

use std::alloc::AllocError;
use std::marker::Model;

/// One to four values in order. Contracts see the list of them.
pub struct Four<T: Copy> {
    places: [T; 4],
    count: u8,
}

impl<T: Copy> Model for Four<T> {
    ghost use Rattle.std.specs.Prelude.{◌≡◌, ◌≤◌, true, List, length, take};
    ghost use Rattle.std.proofs.Common.{sym};
    ghost use Rattle.ltm_units.specs.Places.{is_few, in_places};
    ghost use Rattle.ltm_units.specs.PlacesBack.{count_back};

    ghost Value = { List T };

    ghost view = { λ f. take f.count f.places };

    ghost invariant = { λ f. (is_few (take f.count f.places) ≡ true) × (f.count ≤ 4) × (f.places ≡ in_places (take f.count f.places)) };

    ghost inverse = { λ values. record { places = in_places values; count = length values } };

    ghost inverse_ok = { λ f h i. record { places = sym h.2 i; count = count_back f.places f.count h.0 h.1 h.2 i } };
}

impl<T: Copy> Clone for Four<T> {
    ghost is_clone = { λ x y. y ≡ x };

    ghost is_infallible = { λ _. ⊤ };

    fn clone(&self) -> Result<Four<T>, AllocError> {
        Ok(*self)
    }
}

impl<T: Copy> Copy for Four<T> {}

impl<T: Copy> Four<T> {
    /// The values, where they are one to four.
    pub fn of(values: &[T]) -> Option<Four<T>>
        ensures { result ≡ (if is_few values.now then Some values.now else None) }
    {
        if values.is_empty() || values.len() > 4 {
            return None;
        }
        let mut places = [values[0]; 4];
        places[..values.len()].copy_from_slice(values);
        Some(Four {
            places,
            count: values.len() as u8,
        })
    }

    /// One value.
    pub fn one(value: T) -> Four<T>
        ensures { result ≡ value ∷ [] }
    {
        Four {
            places: [value; 4],
            count: 1,
        }
    }

    /// The values and one more behind them, where there were not four.
    pub fn with(mut self, value: T) -> Option<Four<T>>
        ensures { result ≡ (if nat_lt (length self) 4 then Some (self ++ value ∷ []) else None) }
    {
        if self.count >= 4 {
            return None;
        }
        self.places[self.count as usize] = value;
        self.count += 1;
        Some(self)
    }

    /// The values in order.
    #[inline]
    pub fn as_slice(&self) -> &[T]
        ensures values { result.now ≡ self.now }
        ensures some { 0 < length self.now }
        ensures few { length self.now ≤ 4 }
    {
        &self.places[..self.count as usize]
    }
}
