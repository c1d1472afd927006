// Coordinates in units, sides in half units, and the one conversion between them. These types hold any numbers, since `how_far` and
// `is_side` answer for any: `OnPlan` and `Judged` are asked where they are needed.
ghost use Rattle.std.specs.Prelude.{◌≡◌, ◌*◌, ◌≤◌, ◌<◌, ◌/◌, max};
ghost use Rattle.placing.specs.rules.Units.{in_half_units, greatest_coordinate, OnPlan};
ghost use Rattle.placing.specs.rules.Answer.{judged_at};
ghost use Rattle.placing.specs.code.Sites.{Judged};
ghost use Rattle.placing.specs.deciding.Decides.{Decides};
ghost use Rattle.placing.specs.deciding.Tests.{on_plan_test};
ghost use Rattle.placing.specs.rules.Growth.{Exceeds};

// A coordinate, or a distance between two, in units.
#[derive(Clone, Copy, PartialEq, Eq, PartialOrd, Ord)]
pub struct Units(pub u32);

// A side, or a distance, in half units.
#[derive(Clone, Copy, PartialEq, Eq, PartialOrd, Ord)]
pub struct HalfUnits(pub u32);

// Where a site lies: x grows to the right, y grows upwards.
#[derive(Clone, Copy, PartialEq, Eq)]
pub struct Place {
    pub x: Units,
    pub y: Units,
}

// A side, found or given: a whole number of half units, or free, where no side is too large. Free is an answer of the rules and no absence,
// so this is no Option.
#[derive(Clone, Copy, PartialEq, Eq)]
pub enum Side {
    Number(HalfUnits),
    Free,
}

// How far two labels grow: up to a side, the greatest at which they do not meet; or they never meet, which is further than any side, and
// no absence of an answer.
#[derive(Clone, Copy, PartialEq, Eq, PartialOrd, Ord)]
pub enum Growth {
    UpTo(HalfUnits),
    Never,
}

// The side at which a side is judged: free at 20,001.
impl From<Side> for HalfUnits {
    ghost from_gives = { λ side judged. judged.0 ≡ judged_at side };

    fn from(side: Side) -> HalfUnits {
        match side {
            Side::Number(h) => h,
            Side::Free => HalfUnits(Limits::FREE_SIDE),
        }
    }
}

// The limits of document 01, "Units and limits".
#[derive(Clone, Copy)]
pub struct Limits();

impl Limits {
    // The most sites of a plan.
    pub const SITES: usize = 240;
    // The corners of a site.
    pub const CORNERS: usize = 4;
    // A place for each corner of each site, one site after another.
    pub const ALL_CORNERS: usize = Limits::CORNERS * Limits::SITES;
    // The greatest coordinate, in units.
    pub const COORDINATE: u32 = 10_000;
    // The least and the greatest side, in half units.
    pub const LEAST_SIDE: u32 = 1;

    pub const GREATEST_SIDE: u32 = 20_000;
    // The side at which free is judged.
    pub const FREE_SIDE: u32 = Limits::GREATEST_SIDE + 1;
}

impl Place {
    // The place (x, y).
    pub fn at(x: u32, y: u32) -> Place
        ensures { result ≡ record { x = record { 0 = x }; y = record { 0 = y } } }
    {
        Place {
            x: Units(x),
            y: Units(y),
        }
    }

    // Both coordinates are in range.
    pub fn is_on_plan(self) -> bool
        ensures test { result ≡ on_plan_test self }
        ensures decides { Decides result (OnPlan self) }
    {
        self.x.0 <= Limits::COORDINATE && self.y.0 <= Limits::COORDINATE
    }
}

impl Units {
    // The one conversion: a unit is two half units. It is no From, since it asks for a coordinate: twice any number would not fit.
    pub(crate) fn in_half_units(self) -> HalfUnits
        requires { self.0 ≤ greatest_coordinate }
        ensures { result.0 ≡ in_half_units self.0 }
    {
        HalfUnits(2 * self.0)
    }
}

impl HalfUnits {
    // Two labels meet at the sides that exceed their growth. No operator: a side and a growth are two types.
    pub(crate) fn exceeds(self, growth: Growth) -> bool
        ensures { Decides result (Exceeds self.0 1 growth) }
    {
        match growth {
            Growth::UpTo(most) => most < self,
            Growth::Never => false,
        }
    }

    // Twice a side: the side of the doubled label, and how far two labels that face each other reach together.
    pub(crate) fn doubled(self) -> HalfUnits
        requires { Judged self }
        ensures { result.0 ≡ 2 * self.0 }
    {
        HalfUnits(self.0 + self.0)
    }

    // Half of a doubled side, rounded down: the greatest side whose double is no more than this.
    pub(crate) fn halved(self) -> HalfUnits
        ensures { result.0 ≡ self.0 / 2 }
    {
        HalfUnits(self.0 / 2)
    }
}
