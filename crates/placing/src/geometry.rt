// The rules for two sites: distances, which way a site lies, and the pair test, how far two labels grow. Distances are in half units.
ghost use Rattle.std.specs.Prelude.{◌≡◌, ℕ, ◌≤◌};
ghost use Rattle.placing.specs.rules.Units.{greatest_coordinate, in_half_units, dist, OnPlan};
ghost use Rattle.placing.specs.rules.Corner.{Corner, directions_of};
ghost use Rattle.placing.specs.rules.Label.{Onward};
ghost use Rattle.placing.specs.rules.Growth.{growth_number};
ghost use Rattle.placing.specs.deciding.Decides.{Decides};
ghost use Rattle.placing.specs.deciding.Growth.{growth_along, further_of, growth_of};
ghost use Rattle.placing.specs.code.Steps.{label_at};
ghost use Rattle.placing.specs.code.Reach.{LiesToward, distance_between};

use crate::corner::{Direction, Directions, directions_of};
use crate::units::{Growth, HalfUnits, Place, Units};

// The distance between two coordinates of an axis.
pub(crate) fn distance(a: Units, b: Units) -> HalfUnits
    requires { (a.0 ≤ greatest_coordinate) × (b.0 ≤ greatest_coordinate) }
    ensures { result.0 ≡ in_half_units (dist a.0 b.0) }
{
    Units(a.0.abs_diff(b.0)).in_half_units()
}

// The distance between two places: the larger of their distances along the axes.
pub(crate) fn distance_between(s: Place, t: Place) -> HalfUnits
    requires { OnPlan s × OnPlan t }
    ensures { result.0 ≡ distance_between s t }
{
    distance(s.x, t.x).max(distance(s.y, t.y))
}

// Measured from `a` in direction `d`, `b` lies at 0 or more.
fn onward(d: Direction, a: Units, b: Units) -> bool
    ensures { Decides result (Onward d a.0 b.0) }
{
    match d {
        Direction::Up => a <= b,
        Direction::Down => b <= a,
    }
}

// The place `t` lies at 0 or more in both directions of corner `c` of `s`.
pub(crate) fn lies_toward(s: Place, c: u8, t: Place) -> bool
    requires { Corner c }
    ensures { Decides result (LiesToward s c t) }
{
    let d = directions_of(c);
    onward(d.x, s.x, t.x) && onward(d.y, s.y, t.y)
}

// How far the label that goes `d` from `a` and the one that goes `e` from `b` grow before they overlap along this axis. Two that face each
// other share the way between them; two that face away never overlap.
fn growth_along(d: Direction, a: Units, e: Direction, b: Units) -> Growth
    requires { (a.0 ≤ greatest_coordinate) × (b.0 ≤ greatest_coordinate) }
    ensures { result ≡ growth_along d a.0 e b.0 }
{
    let apart = distance(a, b);
    if d == e {
        Growth::UpTo(apart)
    } else if onward(d, a, b) {
        Growth::UpTo(apart.halved())
    } else {
        Growth::Never
    }
}

// Of the growths along both axes the one up to which two labels do not meet: never if either is never, else the larger. By hand, for speed:
// with the derived `max` placing 240 sites above the spot takes a tenth to a fifth more time, at as many instructions.
fn further(x: Growth, y: Growth) -> Growth
    ensures { result ≡ further_of x y }
{
    let Growth::UpTo(along_x) = x else {
        return x;
    };
    let Growth::UpTo(along_y) = y else {
        return y;
    };
    if along_x <= along_y { y } else { x }
}

// The label of a site: where the site stands, and the directions in which the label goes from it. A caller who looks at many labels of a
// corner finds that corner's directions once.
#[derive(Clone, Copy)]
pub(crate) struct Label {
    pub site: Place,
    pub toward: Directions,
}

impl Label {
    // The label at corner `c` of a site.
    pub(crate) fn at(site: Place, c: u8) -> Label
        requires { Corner c }
        ensures { result ≡ label_at site c }
    {
        Label {
            site,
            toward: directions_of(c),
        }
    }

    // The pair test: how far the two labels grow. Of the growths along both axes it is the further, up to which they do not meet.
    pub(crate) fn growth(self, other: Label) -> Growth
        requires { OnPlan self.site × OnPlan other.site }
        ensures { (c e : ℕ) → self.toward ≡ directions_of c → other.toward ≡ directions_of e
            → result ≡ growth_of self.site c other.site e }
    {
        let (s, t) = (self.site, other.site);
        let (d, e) = (self.toward, other.toward);
        let along_x = growth_along(d.x, s.x, e.x, t.x);
        let along_y = growth_along(d.y, s.y, e.y, t.y);
        further(along_x, along_y)
    }
}

// The pair test for two places and two corners.
pub fn growth_of(s: Place, c: u8, t: Place, e: u8) -> Growth
    requires { OnPlan s × Corner c × OnPlan t × Corner e }
    ensures growth { result ≡ growth_of s c t e }
    ensures value { growth_number result ≡ growth_number (growth_of s c t e) }
{
    Label::at(s, c).growth(Label::at(t, e))
}
