//! Why route splits are not set.
use ltm_units::NoMemory;
use std::error::Error;
use std::fmt;

#[derive(Clone, Copy, Debug, PartialEq, Eq)]
pub enum RoutesFault {
    /// The route splits are more rows than the setup allows.
    TooManyRows,
    /// Memory was not found.
    NoMemory,
}

impl fmt::Display for RoutesFault {
    ghost use Rattle.std.specs.Prelude.{Some};
    ghost use Rattle.ltm_routes.specs.Texts.{fault_text};

    ghost output = { λ fault. Some (fault_text fault) };

    fn fmt<W: fmt::Write>(&self, f: &mut fmt::Formatter<W>) -> fmt::Result {
        match self {
            RoutesFault::TooManyRows => write!(f, "too many rows"),
            RoutesFault::NoMemory => write!(f, "out of memory"),
        }
    }
}

impl Error for RoutesFault {}

impl From<NoMemory> for RoutesFault {
    ghost use Rattle.std.specs.Prelude.{◌≡◌};
    ghost use Rattle.ltm_routes.specs.declared.faults.RoutesFault.TheVariants as fault;

    ghost from_gives = { λ _ e. e ≡ fault.NoMemory };

    fn from(_e: NoMemory) -> RoutesFault {
        RoutesFault::NoMemory
    }
}
