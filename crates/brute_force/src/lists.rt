// Random lists: 1 to 7 sites, all places distinct, in one of several shapes and ranges of coordinates.
ghost use Rattle.std.specs.Prelude.{◌≤◌};

use crate::random::Random;
use crate::sites::{MOST_SITES, Place};
use arrayvec::ArrayVec;

// How many places are drawn for one list.
const DRAWS: u32 = 40;

// How the places of one list lie.
#[derive(Clone, Copy)]
enum Shape {
    Scattered,
    Row,
    Column,
    Rising,
    Falling,
    Clusters,
}

// What the places of one list have in common: coordinates from 0 to `last`, and two points. A row or a column goes through the
// first point; the sites of clusters lie at most two units right and up of one of the points.
#[derive(Clone, Copy)]
struct Frame {
    shape: Shape,
    last: u32,
    here: Place,
    there: Place,
    ghost here_on_plan: { (here.x ≤ 9998) × (here.y ≤ 9998) },
    ghost there_on_plan: { (there.x ≤ 9998) × (there.y ≤ 9998) },
}

fn draw_shape(random: &mut Random) -> Shape {
    match random.up_to(5) {
        0 => Shape::Scattered,
        1 => Shape::Row,
        2 => Shape::Column,
        3 => Shape::Rising,
        4 => Shape::Falling,
        _ => Shape::Clusters,
    }
}

// The greatest coordinate of a list.
fn draw_last(random: &mut Random) -> u32
    ensures { (2 ≤ result) × (result ≤ 10000) }
{
    match random.up_to(7) {
        0 => 2,
        1 => 3,
        2 => 5,
        3 => 8,
        4 => 15,
        5 => 60,
        6 => 900,
        _ => 10_000,
    }
}

// A place with both coordinates from 0 to `last`.
fn draw_point(random: &mut Random, last: u32) -> Place
    ensures { (result.x ≤ last) × (result.y ≤ last) }
{
    let x = random.up_to(last);
    let y = random.up_to(last);
    Place { x, y }
}

fn draw_frame(random: &mut Random) -> Frame
    ensures { result.last ≤ 10000 }
{
    let shape = draw_shape(random);
    let last = draw_last(random);
    let here = draw_point(random, last - 2);
    let there = draw_point(random, last - 2);
    Frame {
        shape,
        last,
        here,
        there,
    }
}

// A place in this frame.
fn draw_place(random: &mut Random, frame: Frame) -> Place {
    let point = draw_point(random, frame.last);
    let Place { x, y } = point;
    match frame.shape {
        Shape::Scattered => point,
        Shape::Row => Place { x, y: frame.here.y },
        Shape::Column => Place { x: frame.here.x, y },
        Shape::Rising => Place { x, y: x },
        Shape::Falling => Place {
            x,
            y: frame.last - x,
        },
        Shape::Clusters => draw_near(random, frame),
    }
}

// A place near one of the frame's two points.
fn draw_near(random: &mut Random, frame: Frame) -> Place {
    let off = draw_point(random, 2);
    let near = if random.up_to(1) == 0 {
        frame.here
    } else {
        frame.there
    };
    Place {
        x: near.x + off.x,
        y: near.y + off.y,
    }
}

// A list of 1 to 7 sites: of as many as are drawn for it, or fewer where the draws do not find so many places.
pub fn draw_sites(random: &mut Random) -> ArrayVec<Place, MOST_SITES> {
    let count = random.up_to(6) as usize + 1;
    let frame = draw_frame(random);
    let mut sites = ArrayVec::new();
    // A loop, since a draw changes the generator.
    for _ in 0..DRAWS {
        let place = draw_place(random, frame);
        if sites.len() < count && !sites.contains(&place) {
            sites.push(place);
        }
    }
    sites
}
