// The sides to give for a list by a way: some around the distance of its first two sites, some around the side that it has that way, and
// free. Where two labels begin to meet, or a label to crowd a site, another choice may be the first. The product has to refuse the side
// next after its own. Above the spot, where its side is exact for fractions too, no more is to be tried: the limits are whole numbers, so
// what holds at a fraction greater than a side holds at the next side.
ghost use Rattle.std.specs.Prelude.{◌≤◌, All};
ghost use Rattle.brute_force.specs.Sides.{IsSideFrom};

use crate::enumerate::same_direction;
use crate::side::{GREATEST, Side};
use crate::sites::Place;

// Twice the distance of the first two sites, at most 20,000; of a lone site from 0, 0.
fn twice_apart(sites: &[Place]) -> u64
    ensures { result ≤ 20000 }
{
    let a = sites.first().copied().unwrap_or(Place { x: 0, y: 0 });
    let b = sites.get(1).copied().unwrap_or(Place { x: 0, y: 0 });
    same_direction(a.x, b.x)
        .max(same_direction(a.y, b.y))
        .min(GREATEST)
}

// The nearest side from 1 to 20,000, or free.
fn in_range(h: u64) -> Side
    ensures { IsSideFrom 1 result }
{
    if h > GREATEST {
        Side::Free
    } else {
        Side::Number(h.max(1))
    }
}

// The side that is so much greater.
fn greater_by(side: Side, more: u64) -> Side
    ensures { IsSideFrom 1 result }
{
    match side {
        Side::Number(h) => in_range(h.saturating_add(more)),
        Side::Free => Side::Free,
    }
}

// The sides for a list with this side.
pub fn given(sites: &[Place], side: Side) -> [Side; 7]
    ensures { All (IsSideFrom 1) result }
{
    let twice = twice_apart(sites);
    [
        in_range(twice / 2),
        in_range(twice / 2 + 1),
        in_range(twice),
        in_range(twice + 1),
        greater_by(side, 0),
        greater_by(side, 1),
        Side::Free,
    ]
}
