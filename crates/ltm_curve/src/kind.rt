//! Curves with one destination, with two and with several, told apart once for many totals.
ghost use Rattle.std.specs.Prelude.{◌≡◌, ◌==◌, ℕ, ◌<◌, ◌≤◌, IsTrue};
ghost use Rattle.ltm_curve.specs.Table.{groups_of, slots_of, destinations_of, total_of};
ghost use Rattle.ltm_curve.specs.Totals.{most_total};

use crate::curves::Curves;

/// Which counts of destinations are looked for: code that is written over a kind asks for the kind once, and each total is
/// then read where that kind keeps it.
pub trait Kind {
    ghost fits: { ℕ → Type 0 };

    /// How many destinations there are.
    fn destinations(curves: &Curves) -> u32
        requires { fits (destinations_of curves.now) }
        ensures { result ≡ destinations_of curves.now };

    /// Whether there is one destination.
    fn is_alone(curves: &Curves) -> bool
        requires { fits (destinations_of curves.now) }
        ensures { result ≡ (destinations_of curves.now == 1) };

    /// Whether it is known beforehand that there are two destinations.
    fn is_two(curves: &Curves) -> bool
        requires { fits (destinations_of curves.now) }
        ensures { IsTrue result → destinations_of curves.now ≡ 2 };

    /// The total of a group at a boundary, over all destinations.
    fn total(curves: &Curves, group: u32, boundary: u32) -> u64
        requires kind { fits (destinations_of curves.now) }
        requires group { group < groups_of curves.now }
        requires boundary { boundary ≤ slots_of curves.now }
        ensures total { result ≡ total_of curves.now group boundary }
        ensures small { result ≤ most_total };
}

/// One destination.
#[derive(Drop)]
pub struct Alone;

/// Two destinations.
#[derive(Drop)]
pub struct Two;

/// Three destinations or more.
#[derive(Drop)]
pub struct Several;

/// Any count of destinations.
#[derive(Drop)]
pub struct Any;

impl Kind for Alone {
    ghost use Rattle.std.specs.Prelude.{◌≡◌, ℕ};

    ghost fits = { λ n. n ≡ 1 };

    #[inline]
    fn destinations(_curves: &Curves) -> u32 {
        1
    }

    #[inline]
    fn is_alone(_curves: &Curves) -> bool {
        true
    }

    #[inline]
    fn is_two(_curves: &Curves) -> bool {
        false
    }

    #[inline]
    #[tactic(auto, using(crate::proofs::Places::total_small))]
    fn total(curves: &Curves, group: u32, boundary: u32) -> u64 {
        curves.only_total(group, boundary)
    }
}

impl Kind for Two {
    ghost use Rattle.std.specs.Prelude.{◌≡◌, ℕ};

    ghost fits = { λ n. n ≡ 2 };

    #[inline]
    fn destinations(_curves: &Curves) -> u32 {
        2
    }

    #[inline]
    fn is_alone(_curves: &Curves) -> bool {
        false
    }

    #[inline]
    fn is_two(_curves: &Curves) -> bool {
        true
    }

    #[inline]
    #[tactic(auto, using(crate::proofs::Places::total_small))]
    fn total(curves: &Curves, group: u32, boundary: u32) -> u64 {
        curves.both_total(group, boundary)
    }
}

impl Kind for Several {
    ghost use Rattle.std.specs.Prelude.{ℕ, ◌≤◌};

    ghost fits = { λ n. 3 ≤ n };

    #[inline]
    fn destinations(curves: &Curves) -> u32 {
        curves.destinations()
    }

    #[inline]
    fn is_alone(_curves: &Curves) -> bool {
        false
    }

    #[inline]
    fn is_two(_curves: &Curves) -> bool {
        false
    }

    #[inline]
    #[tactic(auto, using(crate::proofs::Places::total_small))]
    fn total(curves: &Curves, group: u32, boundary: u32) -> u64 {
        curves.kept_total(group, boundary)
    }
}

impl Kind for Any {
    ghost use Rattle.std.specs.Prelude.{ℕ, ◌≤◌};

    ghost fits = { λ n. 0 ≤ n };

    #[inline]
    fn destinations(curves: &Curves) -> u32 {
        curves.destinations()
    }

    #[inline]
    fn is_alone(curves: &Curves) -> bool {
        curves.destinations() == 1
    }

    #[inline]
    fn is_two(_curves: &Curves) -> bool {
        false
    }

    #[inline]
    fn total(curves: &Curves, group: u32, boundary: u32) -> u64 {
        curves.total(group, boundary)
    }
}
