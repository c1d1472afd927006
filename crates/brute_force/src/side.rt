// Sides, in half units.
ghost use Rattle.brute_force.specs.Sides.{IsSideFrom};

use std::fmt;

// The greatest number that is a side.
pub const GREATEST: u64 = 20_000;

// A side; as a limit, the greatest side that a rule allows. Free, where no side is too large, is the greatest, so this is no Option.
#[derive(Clone, Copy, PartialEq, Eq, PartialOrd, Ord)]
pub enum Side {
    Number(u64),
    Free,
}

impl Side {
    // The greatest side that this limit allows.
    pub fn or_free(self) -> Side
        ensures { IsSideFrom 0 result }
    {
        match self {
            Side::Number(h) if h <= GREATEST => self,
            _ => Side::Free,
        }
    }

    pub fn is_even(self) -> bool {
        matches!(self, Side::Number(h) if h % 2 == 0)
    }

    pub fn is_odd(self) -> bool {
        matches!(self, Side::Number(h) if h % 2 == 1)
    }
}

impl fmt::Display for Side {
    fn fmt<W: fmt::Write>(&self, f: &mut fmt::Formatter<W>) -> fmt::Result {
        match self {
            Side::Number(h) => write!(f, "{h}"),
            Side::Free => write!(f, "free"),
        }
    }
}
