//! How a session ends.
use ltm_units::NoMemory;

/// How a session ended.
#[derive(Clone, Copy, Debug, PartialEq, Eq)]
pub enum SessionEnd {
    /// The script was read to its end, and each line was answered.
    Ended,
    /// The source failed.
    ReadFault,
    /// The sink failed.
    WriteFault,
    /// This line, counted from 1, is longer than 65,536 bytes.
    LineTooLong(u32),
    /// There is a line after the first 100,000.
    TooManyCommands,
    /// Memory was not found.
    NoMemory,
}

impl From<NoMemory> for SessionEnd {
    ghost use Rattle.std.specs.Prelude.{◌≡◌};
    ghost use Rattle.ltm_session.specs.declared.ends.SessionEnd.TheVariants as end;

    ghost from_gives = { λ _ e. e ≡ end.NoMemory };

    fn from(_e: NoMemory) -> SessionEnd {
        SessionEnd::NoMemory
    }
}
