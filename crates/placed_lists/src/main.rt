// Places document 01's lists that are marked P, and some at the limits, and prints a line for each: the side, then the corners
// of the first sites. Then some at given sides, the last of them too large. Then lists above the spot, document 02, L2, at the side found
// and at given ones. The last list is wrong, and that is to be noticed: two of its sites stand at one place.
#![tactic(auto)]

mod lists;
mod print;
mod ready;

use crate::lists::{column, grid, line, row};
use crate::print::{print_chosen, print_placed};
use placing::way::Way;
use std::io;

fn main(rt: HostRuntime) -> io::Result<()> {
    print_placed(&rt, &line::<1>(5, 5, 0, 0), Way::Usual)?;
    print_placed(&rt, &line::<2>(0, 0, 1, 0), Way::Usual)?;
    print_placed(&rt, &grid::<4>(2), Way::Usual)?;
    print_placed(&rt, &line::<4>(0, 0, 1, 1), Way::Usual)?;
    print_placed(&rt, &line::<5>(0, 0, 1, 1), Way::Usual)?;
    print_placed(&rt, &column(), Way::Usual)?;
    print_placed(&rt, &grid::<9>(3), Way::Usual)?;
    print_placed(&rt, &line::<2>(0, 0, 10_000, 10_000), Way::Usual)?;
    print_placed(&rt, &line::<240>(0, 0, 1, 0), Way::Usual)?;
    print_placed(&rt, &grid::<240>(15), Way::Usual)?;
    print_chosen(&rt, &column(), Way::Usual, 4)?;
    print_chosen(&rt, &column(), Way::Usual, 5)?;
    print_chosen(&rt, &line::<5>(0, 0, 1, 1), Way::Usual, 3)?;
    print_chosen(&rt, &column(), Way::Usual, 7)?;
    print_placed(&rt, &grid::<4>(2), Way::Above)?;
    print_placed(&rt, &column(), Way::Above)?;
    print_placed(&rt, &line::<4>(0, 0, 1, 1), Way::Above)?;
    print_placed(&rt, &grid::<9>(3), Way::Above)?;
    print_placed(&rt, &line::<2>(0, 0, 1, 0), Way::Above)?;
    print_placed(&rt, &row(), Way::Above)?;
    print_chosen(&rt, &column(), Way::Above, 8)?;
    print_chosen(&rt, &column(), Way::Above, 9)?;
    print_placed(&rt, &line::<2>(5, 5, 0, 0), Way::Usual)
}
