// How far each corner reaches before it is crowded. This does not depend on the side that is tried, so it is found once for all of
// them. Where all four corners of a site are crowded there is no good choice: so the reaches also bound the side. Above the spot, where
// crowding plays no part, the reaches say which corners there are.
ghost use Rattle.std.specs.Prelude.{◌≡◌, List, ◌+◌, ◌*◌, ◌≤◌, ◌<◌, length};
ghost use Rattle.placing.specs.rules.Units.{most_sites};
ghost use Rattle.placing.specs.rules.Corner.{Corner};
ghost use Rattle.placing.specs.code.Sites.{Held, Judged};
ghost use Rattle.placing.specs.code.Reach.{distance_between, Lowered};
ghost use Rattle.placing.specs.code.Pairs.{SiteLowered, MayLower, PairLowered, RowsBelow, ReachesOver};
ghost use Rattle.placing.specs.declared.units.Place.{Place};
ghost use Rattle.placing.specs.declared.way.Way.TheVariants.{Usual, Above};
ghost use Rattle.placing.specs.code.Crowding.{TopLeft, CrowdingIs, UpperReach};

use crate::geometry::{distance, distance_between, lies_toward};
use crate::labels::Labels;
use crate::units::{HalfUnits, Limits, Place};
use crate::way::Way;

// The reach of each corner of each site, in half units, in the places of `Limits::ALL_CORNERS`; and the top: no side above it, up to the
// one that was asked, leaves every site a corner. For sides up to the top, a corner may be chosen where the doubled side is within its
// reach. In an array and on no heap, so that no call can fail; the reaches are bare numbers, of which `ReachesAre` speaks.
#[derive(Clone, Copy)]
pub(crate) struct Crowding {
    pub reaches: [u32; Limits::ALL_CORNERS],
    pub top: HalfUnits,
}

// The reach of corner `c` of `s`, `reach` so far, with one other site more: `t`, which lies `away` from `s`. The distance is
// asked first: most sites lie too far away to count.
fn lowered(reach: HalfUnits, away: HalfUnits, s: Place, c: u8, t: Place) -> HalfUnits
    requires { Corner c × (away.0 ≡ distance_between s t) }
    ensures { Lowered s c t reach.0 result.0 }
{
    if reach <= away {
        return reach;
    }
    if lies_toward(s, c, t) { away } else { reach }
}

// Lowers the reaches of site `i`, which stands at `s`, by one other site: the one at `t`, which lies `away`.
fn lower_site(
    reaches: &mut [u32; Limits::ALL_CORNERS],
    i: usize,
    s: Place,
    t: Place,
    away: HalfUnits,
)
    requires { (length reaches.old ≡ 4 * most_sites) × (i < most_sites) × (away.0 ≡ distance_between s t) }
    ensures { SiteLowered i s t reaches.old reaches.new }
{
    // By index: of what an adapter of `iter_mut` lends a proof knows nothing afterwards.
    for e in 0..Limits::CORNERS {
        let at = 4 * i + e;
        let reach = lowered(HalfUnits(reaches[at]), away, s, (e + 1) as u8, t);
        reaches[at] = reach.0;
    }
}

// Lowers the reaches of sites `i` and `j`, which stand at `s` and `t`, by each other, for sides up to `top`. Most sites lie too far away
// along x to count.
fn lower_pair(
    reaches: &mut [u32; Limits::ALL_CORNERS],
    top: HalfUnits,
    i: usize,
    s: Place,
    j: usize,
    t: &Place,
)
    requires { MayLower reaches.old top i s j t.now }
    ensures { PairLowered top.0 i s j t.now reaches.old reaches.new }
{
    let Place { x, y } = *t;
    if top.doubled() <= distance(s.x, x) {
        return;
    }
    let t = Place { x, y };
    let away = distance_between(s, t);
    lower_site(reaches, i, s, t, away);
    lower_site(reaches, j, t, s, away);
}

// Lowers the reaches of site `i` and of each later site by each other, for sides up to `top`.
fn lower_row(sites: &[Place], reaches: &mut [u32; Limits::ALL_CORNERS], top: HalfUnits, i: usize)
    requires { Held sites.now top × (i < length sites.now)
        × ReachesOver sites.now top.0 (RowsBelow i) reaches.old }
    ensures { ReachesOver sites.now top.0 (RowsBelow (i + 1)) reaches.new }
{
    let s = sites[i];
    for (j, t) in sites.iter().enumerate().skip(i + 1) {
        lower_pair(reaches, top, i, s, j, t);
    }
}

// The top that site `i` leaves: the greatest side up to `top` at which it has a corner left, so no more than half the furthest of its
// reaches.
fn top_left(reaches: &[u32; Limits::ALL_CORNERS], i: usize, top: HalfUnits) -> HalfUnits
    requires { (length reaches.now ≡ 4 * most_sites) × (i < most_sites) }
    ensures { TopLeft reaches.now i top.0 result.0 }
{
    let own = Limits::CORNERS * i;
    // By a loop: `iter().copied().max()` was tried, and that it bounds each of the four (`TopLeft`) did not close.
    let mut furthest = HalfUnits(0);
    for reach in &reaches[own..own + Limits::CORNERS] {
        furthest = furthest.max(HalfUnits(*reach));
    }
    top.min(furthest.halved())
}

// The reach of the corner at a place of the array, above the spot: as far as can be for corners 1 and 2, nothing for 3 and 4.
fn upper_reach(at: usize, furthest: u32) -> u32
    ensures { UpperReach furthest at result }
{
    if at % 4 < 2 { furthest } else { 0 }
}

// The reaches by which corners 1 and 2 are open at every side up to `most`, and corners 3 and 4 at none.
fn upper_corners(n: usize, most: HalfUnits) -> Crowding
    requires { (n ≤ most_sites) × Judged most }
    ensures { (ps : List Place) → length ps ≡ n → CrowdingIs Above most.0 ps result }
{
    let furthest = most.doubled();
    let mut reaches = [0u32; Limits::ALL_CORNERS];
    // By index: of a number that `array::from_fn` is given a proof does not know that the closure has it still.
    for at in 0..4 * n {
        reaches[at] = upper_reach(at, furthest.0);
    }
    Crowding { reaches, top: most }
}

impl Labels<'_> {
    // The reaches of all sites for sides up to the labels', and the top, by the usual way. Over no sites they are twice that side; each pair
    // of sites is gone over once. The top falls with each site, and the next pairs are gone over for sides up to it.
    fn crowding_of(&self) -> Crowding
        ensures { CrowdingIs Usual self.now.side.0 self.now.sites.now result }
    {
        let furthest = self.side.doubled();
        let mut reaches = [furthest.0; Limits::ALL_CORNERS];
        let mut top = self.side;
        // By number: a row lowers the reaches of the sites after its own too.
        for i in 0..self.sites.len() {
            lower_row(self.sites, &mut reaches, top, i);
            top = top_left(&reaches, i, top);
        }
        Crowding { reaches, top }
    }

    // The reaches of all sites by the labels' way, for sides up to theirs, and the top.
    pub(crate) fn crowding(&self) -> Crowding
        ensures { CrowdingIs self.now.way self.now.side.0 self.now.sites.now result }
    {
        // Two ways of an enum: as closures they would be no plainer.
        match self.way {
            Way::Usual => self.crowding_of(),
            Way::Above => upper_corners(self.sites.len(), self.side),
        }
    }
}
