// Finding the side of a list of places, and choosing their corners at a side.
ghost use Rattle.std.specs.Prelude.{◌≡◌, ◌++◌, ◌*◌, ◌≤◌, length, drop, replicate};
ghost use Rattle.placing.specs.rules.Units.{free_side};
ghost use Rattle.placing.specs.rules.Answer.{judged_at, side_number};
ghost use Rattle.placing.specs.calls.Placing.{choice_as, MayPlace};
ghost use Rattle.placing.specs.deciding.Answer.{answer_of, first_good};

use crate::labels::Labels;
use crate::side::greatest_side;
use crate::units::{HalfUnits, Limits, Place, Side};
use crate::way::Way;

// The greatest side of these sites, by a way. Of the lent table the first bytes, one a site, hold marks until the end.
pub fn find_side(sites: &[Place], way: Way, table: &mut [u8]) -> Side
    requires { MayPlace sites.now table.old }
    ensures side { result ≡ (answer_of way sites.now).side }
    ensures table { let m = length sites.now * length sites.now in table.new ≡ replicate m 0 ++ drop m table.old }
    ensures value { side_number result ≡ side_number (answer_of way sites.now).side }
{
    let n = sites.len();
    let side = greatest_side(sites, way, &mut table[..n]);
    table[..n * n].fill(0);
    side
}

// The first good choice by a way at this side: the corner of each site in list order, 0 past the last. The table is used as in finding.
pub fn choose_corners(
    sites: &[Place],
    way: Way,
    side: Side,
    table: &mut [u8],
) -> Option<[u8; Limits::SITES]>
    requires { MayPlace sites.now table.old × (judged_at side ≤ free_side) }
    ensures first { result ≡ choice_as (first_good way (judged_at side) sites.now) }
    ensures table { let m = length sites.now * length sites.now in table.new ≡ replicate m 0 ++ drop m table.old }
{
    let n = sites.len();
    let labels = Labels {
        sites,
        way,
        side: HalfUnits::from(side),
    };
    let corners = labels.first_choice(&mut table[..n]);
    table[..n * n].fill(0);
    corners
}
