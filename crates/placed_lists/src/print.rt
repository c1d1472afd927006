// Placing a list by a way and printing its line.
ghost use Rattle.std.specs.Prelude.{◌≤◌};
ghost use Rattle.placing.specs.rules.Units.{free_side};
ghost use Rattle.placing.specs.rules.Answer.{judged_at};
ghost use Rattle.placed_lists.specs.Ready.{Ready};

use crate::ready::ready;
use placing::place::{choose_corners, find_side};
use placing::units::{HalfUnits, Place, Side};
use placing::way::Way;
use std::io;

// How many corners of a choice are printed at most.
const SHOWN: usize = 9;

// A side is printed as a number, or as the word free. No Display: that is for placing to give, which knows no text.
fn print_side(rt: &impl Print, side: Side) -> io::Result<()> {
    match side {
        Side::Number(h) => print!(rt; "{}", h.0),
        Side::Free => print!(rt; "free"),
    }
}

fn print_corners(rt: &impl Print, corners: &[u8]) -> io::Result<()> {
    for corner in corners {
        print!(rt; "\t{corner}")?;
    }
    Ok(())
}

// The greatest side of these sites, by a way.
fn found(sites: &[Place], way: Way) -> Side
    requires { Ready sites.now }
    ensures { judged_at result ≤ free_side }
{
    let mut table = [0u8; 57600];
    find_side(sites, way, &mut table)
}

// Prints a side and the first corners of their first good choice at it.
fn print_line(rt: &impl Print, sites: &[Place], way: Way, side: Side) -> io::Result<()>
    requires { Ready sites.now × (judged_at side ≤ free_side) }
{
    let mut table = [0u8; 57600];
    print_side(rt, side)?;
    match choose_corners(sites, way, side, &mut table) {
        Some(corners) => print_corners(rt, &corners[..sites.len().min(SHOWN)])?,
        None => print!(rt; "\tno good choice")?,
    }
    println!(rt)
}

// Places these sites by a way at the side found and prints their line.
pub fn print_placed(rt: &impl Print, sites: &[Place], way: Way) -> io::Result<()> {
    if ready(sites) {
        print_line(rt, sites, way, found(sites, way))
    } else {
        println!(rt; "not to be placed")
    }
}

// The same at a given side. Apart, since one function over an Option of the side has the same two calls behind one test and is no plainer.
pub fn print_chosen(rt: &impl Print, sites: &[Place], way: Way, h: u32) -> io::Result<()>
    requires { h ≤ 20000 }
{
    if ready(sites) {
        print_line(rt, sites, way, Side::Number(HalfUnits(h)))
    } else {
        println!(rt; "not to be placed")
    }
}
