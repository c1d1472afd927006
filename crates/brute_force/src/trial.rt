// One list: the product's output and the one by enumeration, compared and counted, both ways.
use crate::answer::Answer;
use crate::counts::{Tally, name_of};
use crate::enumerate::{enumerate, enumerate_at, holds_over_twice};
use crate::given::given;
use crate::lists::draw_sites;
use crate::product::output_of;
use crate::random::Random;
use crate::side::Side;
use crate::sites::{List, Place, in_one_row};
use crate::text::{SHEET_BYTES, text_of};
use arrayvec::ArrayString;
use placing::way::Way;
use std::io;

// Sides are given for lists of at most so many sites: with more, trying every list of corners at each would take long.
const MOST_GIVEN: usize = 5;

// The product's output by a way, at the side found or at a given one, is not that of this answer, byte for byte. If so, the way, the
// list, both outputs and the given side are printed.
fn differs(
    rt: &impl Print,
    sites: &[Place],
    way: Way,
    given: Option<Side>,
    right: &Answer,
) -> io::Result<bool> {
    let came = output_of(sites, way, given);
    let should: ArrayString<SHEET_BYTES> = text_of(right);
    if came.as_slice() == should.as_bytes() {
        return Ok(false);
    }
    print!(rt;
        "difference, {}\n{}should be\n{should}came\n",
        name_of(way),
        List(sites)
    )?;
    rt.write_all(&came)?;
    if let Some(side) = given {
        println!(rt; "at the given side {side}")?;
    }
    Ok(true)
}

// The side of the usual way is a number, and yet some choice holds at 2 × side + 1. If so, the list is printed.
fn over_twice(rt: &impl Print, sites: &[Place], side: Side) -> io::Result<bool> {
    let Side::Number(h) = side else {
        return Ok(false);
    };
    let holds = holds_over_twice(sites, h);
    if holds {
        print!(rt; "a choice holds at 2 x side + 1\n{}", List(sites))?;
    }
    Ok(holds)
}

// Judges the product by this answer for a list, and counts the list, by one way.
fn judge_by(
    rt: &impl Print,
    tally: &mut Tally,
    sites: &[Place],
    way: Way,
    right: &Answer,
) -> io::Result<()> {
    let differs = differs(rt, sites, way, None, right)?;
    let counts = tally.by(way);
    counts.lists.add(true);
    counts.free.add(right.side == Side::Free);
    counts.even.add(right.side.is_even());
    counts.odd.add(right.side.is_odd());
    counts.differences.add(differs);
    Ok(())
}

// The same by each way; and counts what the list is and how its two sides compare.
pub fn judge(
    rt: &impl Print,
    tally: &mut Tally,
    sites: &[Place],
    usual: &Answer,
    above: &Answer,
) -> io::Result<()> {
    tally.in_one_row.add(in_one_row(sites));
    tally.over_twice.add(over_twice(rt, sites, usual.side)?);
    tally.smaller.add(above.side < usual.side);
    tally.same.add(above.side == usual.side);
    tally.greater.add(above.side > usual.side);
    judge_by(rt, tally, sites, Way::Usual, usual)?;
    judge_by(rt, tally, sites, Way::Above, above)
}

// Judges the product at the side of this answer, as a given one, and counts the side.
pub fn judge_at(
    rt: &impl Print,
    tally: &mut Tally,
    sites: &[Place],
    way: Way,
    right: &Answer,
) -> io::Result<()> {
    let differs = differs(rt, sites, way, Some(right.side), right)?;
    let counts = tally.by(way);
    counts.given.add(true);
    counts.without.add(right.labels.is_none());
    counts.differences_at.add(differs);
    Ok(())
}

// Judges the product at given sides for a list with this side by a way, and counts them.
fn judge_given(
    rt: &impl Print,
    tally: &mut Tally,
    sites: &[Place],
    way: Way,
    side: Side,
) -> io::Result<()> {
    for h in given(sites, side) {
        let right = enumerate_at(sites, way, h);
        judge_at(rt, tally, sites, way, &right)?;
    }
    Ok(())
}

// Draws a list and judges the product by enumeration.
pub fn trial(rt: &impl Print, tally: &mut Tally, random: &mut Random) -> io::Result<()> {
    let sites = draw_sites(random);
    let usual = enumerate(&sites, Way::Usual);
    let above = enumerate(&sites, Way::Above);
    judge(rt, tally, &sites, &usual, &above)?;
    if sites.len() <= MOST_GIVEN {
        judge_given(rt, tally, &sites, Way::Usual, usual.side)?;
        judge_given(rt, tally, &sites, Way::Above, above.side)?;
    }
    Ok(())
}
