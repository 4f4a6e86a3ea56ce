//! What a value tells of itself to those who sit at a desk with it.
ghost use Rattle.std.specs.Prelude.{ℕ, List};

/// An opening, which stays, and a history of entries, each with its author's number, which grows at its end.
pub trait Recorded {
    type Opening;

    type Entry;

    ghost opening: { Self → Self.Opening };

    ghost history: { Self → List Self.Entry };

    ghost author: { Self.Entry → ℕ };
}
