// Answers that are wrong for document 01's list A, B, C, whose side is 6 with corners 3, 1, 1, and above the spot 8 with 1, 1, 1, and for
// a column of seven sites. Judging the product by them is meant to tell of a difference each, so that the stored output changes when the
// comparing breaks, or when a way is taken for the other.
ghost use Rattle.std.specs.Prelude.{◌≡◌};

use crate::answer::Answer;
use crate::counts::Tally;
use crate::labels::labels_of;
use crate::side::Side;
use crate::sites::Place;
use crate::trial::{judge, judge_at};
use placing::way::Way;
use std::io;

// A column of seven sites; the first three are A, B, C.
const SEVEN: [Place; 7] = [
    Place { x: 10, y: 10 },
    Place { x: 10, y: 14 },
    Place { x: 10, y: 20 },
    Place { x: 10, y: 30 },
    Place { x: 10, y: 40 },
    Place { x: 10, y: 50 },
    Place { x: 10, y: 60 },
];

// An answer with these corners for the first of the sites.
fn answer(side: u64, corners: &[u8]) -> Answer
    ensures { result.side ≡ Side.Number side }
{
    Answer {
        side: Side::Number(side),
        labels: Some(labels_of(&SEVEN, corners)),
    }
}

// Judges the product for A, B, C at given sides by a way.
fn judge_at_sides(
    rt: &impl Print,
    tally: &mut Tally,
    way: Way,
    answers: [Answer; 3],
) -> io::Result<()> {
    for right in &answers {
        judge_at(rt, tally, &SEVEN[..3], way, right)?;
    }
    Ok(())
}

// At the side found: first a side that is too small by one, so that a choice holds at twice it and one more, and above the spot the usual
// answer; then another last corner. At given sides other corners, corners where no choice is good, and none where one is; above the spot
// the other corners are the usual ones there.
pub fn print_wrong(rt: &impl Print) -> io::Result<()> {
    let column = &SEVEN[..3];
    let mut tally = Tally::default();
    println!(rt; "meant to come out wrong:")?;
    judge(
        rt,
        &mut tally,
        column,
        &answer(5, &[3, 1, 1]),
        &answer(6, &[3, 1, 1]),
    )?;
    judge(
        rt,
        &mut tally,
        column,
        &answer(6, &[3, 1, 2]),
        &answer(8, &[1, 1, 2]),
    )?;
    let usual = [
        answer(5, &[1, 1, 1]),
        answer(7, &[3, 1, 1]),
        Answer::none(Side::Number(6)),
    ];
    judge_at_sides(rt, &mut tally, Way::Usual, usual)?;
    let above = [
        answer(5, &[3, 1, 1]),
        answer(9, &[1, 1, 1]),
        Answer::none(Side::Number(8)),
    ];
    judge_at_sides(rt, &mut tally, Way::Above, above)?;
    let of_seven = answer(1, &[1, 1, 1, 0, 0, 0, 0]);
    judge(rt, &mut tally, &SEVEN, &of_seven, &of_seven)?;
    print!(rt; "{tally}")
}
