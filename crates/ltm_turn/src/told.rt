//! The list and the number that a value tells, and what a worker may make of it.
ghost use Rattle.std.specs.Prelude.{ℕ, List};

/// A list of entries and a number, both functions of the value, and what a worker may make of it in one held turn.
///
/// Of whoever takes turns with a value one lengthens its list, and finds exactly the list that it last left; every one
/// finds a number that is at least the greatest that it has seen.
pub trait Told {
    type Entry;

    ghost entries: { Self → List Self.Entry };

    ghost number: { Self → ℕ };

    ghost may_become: { Self → Self → Type 0 };
}
