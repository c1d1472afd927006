// Finding the side: the greatest up to 20,001 that has a good choice; at 20,001 the answer is free. The top, above which crowding
// leaves none, is tried first, and then what lies below it by bisection.
ghost use Rattle.std.specs.Prelude.{◌≡◌, ◌<◌};
ghost use Rattle.placing.specs.deciding.Answer.{answer_of};
ghost use Rattle.placing.specs.code.Placed.{MayFind, MayBisect};
ghost use Rattle.placing.specs.code.Bisect.{NextIs, MayNarrow, Narrowed, SideIs};

use crate::crowding::Crowding;
use crate::labels::Labels;
use crate::units::{HalfUnits, Limits, Place, Side};
use crate::way::Way;

// Two sides: `low` has a good choice, and no judged side from `high` on has one. `next`, below `high`, is to be tried next; it is
// above `low` while a side is left to try.
#[derive(Clone, Copy)]
struct Between {
    low: HalfUnits,
    high: HalfUnits,
    next: HalfUnits,
}

// The side half-way between two: what is to be tried next.
fn middle(low: HalfUnits, high: HalfUnits) -> HalfUnits
    requires { low.0 < high.0 }
    ensures { NextIs low.0 high.0 result.0 }
{
    HalfUnits(low.0 + (high.0 - low.0) / 2)
}

// The side of an answer, by the greatest side that has a good choice: free is judged at 20,001. No From: of an answer alone does that
// number stand for free.
fn side_of(greatest: HalfUnits) -> Side
    ensures { SideIs greatest result }
{
    if greatest < HalfUnits(Limits::FREE_SIDE) {
        Side::Number(greatest)
    } else {
        Side::Free
    }
}

impl Labels<'_> {
    // Narrows what lies between, to the part in which the greatest side with a good choice is.
    fn narrow(&self, crowding: &Crowding, between: Between, marks: &mut [u8]) -> Between
        requires { MayNarrow self.now crowding.now between marks.old }
        ensures { Narrowed self.now.way self.now.sites.now crowding.now.top.0 between result }
    {
        let low = between.low;
        let high = between.high;
        let side = between.next;
        let labels = Labels {
            sites: self.sites,
            way: self.way,
            side,
        };
        if labels.choose(crowding, marks).is_some() {
            return Between {
                low: side,
                high,
                next: middle(side, high),
            };
        }
        Between {
            low,
            high: side,
            next: middle(low, side),
        }
    }

    // The greatest side by bisection. At 1 corner 1 everywhere is good; the top is tried next, since it often has a good choice.
    fn bisect(&self, crowding: &Crowding, marks: &mut [u8]) -> Side
        requires { MayBisect self.now crowding.now marks.old }
        ensures { result ≡ (answer_of self.now.way self.now.sites.now).side }
    {
        let top = crowding.top;
        let mut between = Between {
            low: HalfUnits(Limits::LEAST_SIDE),
            high: HalfUnits(top.0 + 1),
            next: top,
        };
        while between.low < between.next {
            between = self.narrow(crowding, between, marks);
        }
        side_of(between.low)
    }
}

// The greatest side of these sites, by a way.
pub(crate) fn greatest_side(sites: &[Place], way: Way, marks: &mut [u8]) -> Side
    requires { MayFind sites.now marks.old }
    ensures { result ≡ (answer_of way sites.now).side }
{
    let labels = Labels {
        sites,
        way,
        side: HalfUnits(Limits::FREE_SIDE),
    };
    let crowding = labels.crowding();
    labels.bisect(&crowding, marks)
}
