// The answer to a small list by trying every list of corners that a way has, from the rules of documents 01 and 02 alone.
//
// Each rule forbids the sides above some limit. So a list of corners is good at a side exactly when the side is at most the least of
// its limits, and the greatest side with a good choice is the greatest of these over all lists of corners.
ghost use Rattle.std.specs.Prelude.{◌≡◌, ◌≤◌};
ghost use Rattle.brute_force.specs.Sides.{IsSideFrom};

use crate::answer::Answer;
use crate::labels::{Label, labels_of};
use crate::side::Side;
use crate::sites::{MOST_SITES, Place};
use placing::way::Way;

// Which lists of corners are good: of corners 1 to `last`, with no two labels that meet and, where crowding counts, no crowded corner.
#[derive(Clone, Copy)]
struct Rules {
    last: u64,
    crowding: bool,
    ghost corners: { (1 ≤ last) × (last ≤ 4) },
}

// The first list of corners.
const FIRST: [u8; MOST_SITES] = [1; MOST_SITES];

// The number of a list of corners, in list order, and its limit.
#[derive(Clone, Copy)]
struct Choice {
    number: u64,
    limit: Side,
}

// How far `to` lies up the axis from `from`; no limit where it lies down the axis.
fn rise(from: u32, to: u32) -> Side {
    to.checked_sub(from)
        .map_or(Side::Free, |d| Side::Number(u64::from(d)))
}

// Same direction: two labels overlap along the axis exactly when h > 2 × |d|.
pub fn same_direction(a: u32, b: u32) -> u64 {
    2 * u64::from(a.abs_diff(b))
}

// Up to which side the labels at `a` and `b` do not overlap along one axis. Opposite directions: let d be the place of the label
// that goes down the axis minus the place of the one that goes up it; they overlap exactly when d ≥ 0 and h > d.
fn overlap_limit(a: u32, a_up: bool, b: u32, b_up: bool) -> Side {
    match (a_up, b_up) {
        (true, false) => rise(a, b),
        (false, true) => rise(b, a),
        _ => Side::Number(same_direction(a, b)),
    }
}

// Labels meet when they overlap along x and along y: up to the greater of the two limits they do not.
fn meeting_limit(a: Label, b: Label) -> Side {
    let x = overlap_limit(a.place.x, a.goes_right(), b.place.x, b.goes_right());
    let y = overlap_limit(a.place.y, a.goes_up(), b.place.y, b.goes_up());
    x.max(y)
}

// How far `other` lies from `place` in the label's own direction; no limit where it lies behind.
fn ahead(place: u32, up: bool, other: u32) -> Side {
    if up {
        rise(place, other)
    } else {
        rise(other, place)
    }
}

// A corner is crowded at h when another site lies at a ≥ 0 and b ≥ 0 in the label's directions, the larger of them below h.
fn crowding_limit(mine: Label, other: Place) -> Side {
    let a = ahead(mine.place.x, mine.goes_right(), other.x);
    let b = ahead(mine.place.y, mine.goes_up(), other.y);
    a.max(b)
}

impl Rules {
    // The rules of a way: those of document 01; above the spot, document 02, L2: "any choice of 1 and 2 without meeting labels counts".
    fn of(way: Way) -> Rules {
        match way {
            Way::Usual => Rules {
                last: 4,
                crowding: true,
            },
            Way::Above => Rules {
                last: 2,
                crowding: false,
            },
        }
    }

    // The limit that a label and another one set for the first; no limit where they are of one site.
    fn pair_limit(self, mine: Label, other: Label) -> Side {
        if mine.place == other.place {
            return Side::Free;
        }
        let meeting = meeting_limit(mine, other);
        if self.crowding {
            meeting.min(crowding_limit(mine, other.place))
        } else {
            meeting
        }
    }

    // All limits of these labels pass this test.
    fn all_limits<F: Fn(Side) -> bool>(self, labels: &[Label], passes: F) -> bool
        requires { F.IsAlwaysCallable passes }
    {
        labels.iter().all(|mine| {
            labels
                .iter()
                .all(|other| passes(self.pair_limit(*mine, *other)))
        })
    }

    // The least limit of these labels.
    fn limit(self, labels: &[Label]) -> Side {
        let of_label = |mine: &Label| {
            labels
                .iter()
                .map(|other| self.pair_limit(*mine, *other))
                .min()
                .unwrap_or(Side::Free)
        };
        labels.iter().map(of_label).min().unwrap_or(Side::Free)
    }

    // How many lists of corners 1 to `last` the labels have.
    fn count(self, labels: &[Label]) -> u64 {
        labels
            .iter()
            .fold(1u64, |count, _| count.saturating_mul(self.last))
    }

    // Gives the labels the list of corners with this number in list order, from 0: the last site's corner changes fastest.
    fn set_corners(self, labels: &mut [Label], number: u64) {
        let mut rest = number;
        for label in labels.iter_mut().rev() {
            label.corner = (rest % self.last) as u8 + 1;
            rest /= self.last;
        }
    }

    // Of all lists of corners with a limit above `floor`, the first with the greatest limit.
    fn best(self, labels: &mut [Label], floor: Side) -> Option<Choice> {
        // A loop, since each list of corners is set in the same labels, and counts against the best before it.
        let mut best = None;
        let mut most = floor;
        for number in 0..self.count(labels) {
            self.set_corners(labels, number);
            if self.all_limits(labels, |limit| limit > most) {
                most = self.limit(labels);
                best = Some(Choice {
                    number,
                    limit: most,
                });
            }
        }
        best
    }
}

// The answer by a way: the greatest side that has a good choice, or free, with the first good choice there.
pub fn enumerate(sites: &[Place], way: Way) -> Answer
    ensures { IsSideFrom 0 result.side }
{
    let rules = Rules::of(way);
    let mut labels = labels_of(sites, &FIRST);
    let Some(best) = rules.best(&mut labels, Side::Number(0)) else {
        return Answer::none(Side::Number(0));
    };
    rules.set_corners(&mut labels, best.number);
    Answer {
        side: best.limit.or_free(),
        labels: Some(labels),
    }
}

// The answer by a way at a given side: the first list of corners that is good there.
pub fn enumerate_at(sites: &[Place], way: Way, side: Side) -> Answer
    ensures { result.side ≡ side }
{
    let rules = Rules::of(way);
    let mut labels = labels_of(sites, &FIRST);
    // A loop, since each list of corners is set in the labels that are the answer.
    for number in 0..rules.count(&labels) {
        rules.set_corners(&mut labels, number);
        if rules.all_limits(&labels, |limit| limit >= side) {
            return Answer {
                side,
                labels: Some(labels),
            };
        }
    }
    Answer::none(side)
}

// Some list of the four corners has no two labels that meet at 2 × side + 1; crowding plays no part.
pub fn holds_over_twice(sites: &[Place], side: u64) -> bool {
    let crowded_or_not = Rules {
        last: 4,
        crowding: false,
    };
    let mut labels = labels_of(sites, &FIRST);
    let twice = Side::Number(side.saturating_mul(2));
    crowded_or_not.best(&mut labels, twice).is_some()
}
